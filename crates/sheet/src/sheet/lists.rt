//! The calls that tell. They borrow the sheet, and so leave it as it is: `held` says so of the sheet, and not of the list
//! that `writes` speaks of.

ghost use Rattle.field.specs.Refusals.{by_number};
ghost use Rattle.reckoning.specs.Order.{Plays};
ghost use Rattle.reckoning.specs.Spans.{Unused};
ghost use Rattle.sheet.specs.Answers.{count, range as told_range, said_by};
ghost use Rattle.sheet.specs.Book.{lists, no_lists};
ghost use Rattle.sheet.specs.Calls.{Order, RangeOf, Spans, Through, change_made};
ghost use Rattle.sheet.specs.Content.{order_of, spans_of, windows_of};
ghost use Rattle.sheet.specs.Law.{GoesOn};
ghost use Rattle.sheet.specs.Promises.{Writes};
ghost use Rattle.sheet.specs.Questions.{Thirteen, verdict};
ghost use Rattle.sheet.specs.Ranges.{GroupTold};
ghost use Rattle.sheet.specs.Sheets.{content};
ghost use Rattle.std.specs.Prelude.{◌≡◌, [], length, take, pos, IfOk};

use crate::sheet::Sheet;
use field::{Held, Refusal};
use reckoning::order::order;
use reckoning::range::range;
use reckoning::spans::spans;
use reckoning::{Range, Start};
use theory::Span;

impl Sheet {
    /// Writes the written order of the rows, and answers how many entries it has.
    pub fn order(&self, list: &mut [Start]) -> Result<usize, Refusal>
        ensures writes { let c = content self.now in Writes (verdict c Order (length list.old)) (order_of c) list.old result list.new }
        ensures held { content self.exit.now ≡ content self.entry.now }
        ensures plays { let c = content self.now in IfOk result (λ n. Plays (pos c.pace) (windows_of c.rows) (take n list.new)) }
        ensures law { GoesOn self.now Order (lists list.old []) (said_by count (by_number result)) (lists list.new []) self.now }
    {
        order(&self.holding.rows(), self.holding.pace, list)
    }

    /// Writes the closed spans in the order found, and answers how many there are.
    pub fn spans(&self, list: &mut [Span]) -> Result<usize, Refusal>
        ensures writes { let c = content self.now in Writes (verdict c Spans (length list.old)) (spans_of c) list.old result list.new }
        ensures held { content self.exit.now ≡ content self.entry.now }
        ensures unused { let c = content self.now in IfOk result (λ n. Unused (pos c.pace) (windows_of c.rows) (take n list.new)) }
        ensures law { GoesOn self.now Spans (lists [] list.old) (said_by count (by_number result)) (lists [] list.new) self.now }
    {
        spans(&self.holding.rows(), self.holding.pace, list)
    }

    /// Writes the written order of the rows with one group held at one time, and answers how many entries it has.
    pub fn through(&self, number: u16, time: i32, list: &mut [Start]) -> Result<usize, Refusal>
        ensures writes { let c = content self.now in let held = change_made (Through number time) c in Writes (verdict c (Through number time) (length list.old)) (order_of held) list.old result list.new }
        ensures held { content self.exit.now ≡ content self.entry.now }
        ensures thirteen { Thirteen (content self.now) (Through number time) (length list.old) result }
        ensures plays { let held = change_made (Through number time) (content self.now) in IfOk result (λ n. Plays (pos held.pace) (windows_of held.rows) (take n list.new)) }
        ensures law { GoesOn self.now (Through number time) (lists list.old []) (said_by count (by_number result)) (lists list.new []) self.now }
    {
        let place = self.holding.ask_hold(number, time)?;
        let held = Held::new(self.holding.rows(), place, time, time);
        order(&held, self.holding.pace, list)
    }

    /// Tells the first and the last start of a group.
    pub fn range(&self, number: u16) -> Result<Range, Refusal>
        ensures exact { GroupTold (content self.now) number result }
        ensures law { GoesOn self.now (RangeOf number) no_lists (said_by told_range (by_number result)) no_lists self.now }
    {
        let place = self.holding.find(number)?;
        range(&self.holding.rows(), self.holding.pace, place)
    }
}
