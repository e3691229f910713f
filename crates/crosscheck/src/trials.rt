//! Examples of trials: taken back and kept, with refused calls inside, and slips of other sheets.

ghost use Rattle.crosscheck.specs.Trials.{Takes};
ghost use Rattle.sheet.specs.Sheets.{SameTrial};
ghost use Rattle.std.specs.Prelude.{◌≡◌};

use crate::sheets::{Act, tell_act, tell_held};
use crate::telling::{blank_list, tell_ranges};
use field::{Field, Refusal};
use reckoning::Range;
use sheet::{Answer, Refused, Request, Returned, Sheet, Slip};
use std::{fmt, io};

/// How a trial ends.
// A case and no closure: it is printed too.
#[derive(Clone, Copy)]
enum Ending {
    Keep,
    Back,
}

impl fmt::Display for Ending {
    fn fmt<W: fmt::Write>(&self, f: &mut fmt::Formatter<W>) -> fmt::Result {
        f.write_str(match self {
            Ending::Keep => "keep",
            Ending::Back => "back",
        })
    }
}

/// Makes calls inside a trial. What cannot be printed is let go, since the slip must still be handed in.
fn inside(rt: &HostRuntime, sheet: &mut Sheet, acts: &[Act])
    ensures same { SameTrial sheet.old sheet.new }
{
    for act in acts {
        let _ = tell_act(rt, sheet, *act);
    }
}

/// Hands a slip to a sheet that takes it.
fn hand_in(sheet: &mut Sheet, slip: Slip, ending: Ending)
    requires { Takes sheet.old slip }
{
    let ended = match ending {
        Ending::Keep => sheet.keep(slip),
        Ending::Back => sheet.back(slip),
    };
    match ended {
        Ok(()) => {}
        Err(_) => unreachable(),
    }
}

/// A trial with calls inside it, and what the sheet holds after it.
fn trial(rt: &HostRuntime, sheet: &mut Sheet, acts: &[Act], ending: Ending) -> io::Result<()> {
    match sheet.open() {
        Err(refusal) => println!(rt; "open refused {refusal}"),
        Ok(slip) => {
            let _ = println!(rt; "open");
            inside(rt, sheet, acts);
            hand_in(sheet, slip, ending);
            println!(rt; "{ending}")?;
            tell_held(rt, sheet)
        }
    }
}

const BEFORE: [Act; 5] = [
    Act::Enter(1, 0, 1000),
    Act::Enter(2, 100, 300),
    Act::Enter(3, 2000, 2000),
    Act::Call(2, 100),
    Act::Pace(500),
];

const INSIDE: [Act; 11] = [
    Act::Pace(400),
    Act::StandDown(2),
    Act::Change(2, 0, 0),
    Act::Withdraw(3),
    Act::Enter(4, 5000, 6000),
    Act::Away(2),
    Act::Call(1, 2000),
    Act::Call(1, 400),
    Act::Away(1),
    Act::Order(3),
    Act::Range(4),
];

/// One trial taken back, and the same one kept.
pub fn trials(rt: &HostRuntime) -> io::Result<()> {
    println!(rt; "a blank sheet: a trial taken back, and then kept")?;
    let mut sheet = Sheet::blank(rt.alloc(), 1)?;
    inside(rt, &mut sheet, &BEFORE);
    trial(rt, &mut sheet, &INSIDE, Ending::Back)?;
    trial(rt, &mut sheet, &INSIDE, Ending::Keep)?;
    tell_act(rt, &mut sheet, Act::Away(1))
}

/// Offers the slip of one sheet to another, which hands it back, and then to a twin made with the same number, which
/// takes it; the twin's slip ends the trial of the one. The answer is the other's refusal.
fn exchange(one: &mut Sheet, other: &mut Sheet, twin: &mut Sheet) -> Option<Refusal>
    requires { one.old.number ≡ twin.old.number }
{
    let Ok(slip) = one.open() else {
        return None;
    };
    let Err(Returned { refusal, slip }) = other.keep(slip) else {
        return None;
    };
    let Ok(twins) = twin.open() else {
        hand_in(one, slip, Ending::Back);
        return Some(refusal);
    };
    hand_in(twin, slip, Ending::Keep);
    hand_in(one, twins, Ending::Back);
    Some(refusal)
}

/// Slips of another sheet and of a twin.
pub fn slips(rt: &HostRuntime) -> io::Result<()> {
    let mut one = Sheet::blank(rt.alloc(), 1)?;
    let mut other = Sheet::blank(rt.alloc(), 2)?;
    let mut twin = Sheet::blank(rt.alloc(), 1)?;
    if let Some(refusal) = exchange(&mut one, &mut other, &mut twin) {
        println!(rt; "a slip of another sheet is refused {refusal}")?;
        println!(rt; "  a twin's slip is taken")?;
    }
    trial(rt, &mut one, &[Act::Enter(1, 0, 0)], Ending::Keep)
}

/// Asks the sheet's one door for the range of a place in a field.
fn ask<F: Field>(sheet: &mut Sheet, field: &F, place: usize) -> Result<Range, Refusal> {
    let request = Request::Ask {
        field,
        pace: 480,
        place,
    };
    match sheet.serve(request, &mut blank_list(), &mut blank_list()) {
        Ok(Answer::Ranged(range)) => Ok(range),
        Err(Refused::Alone(refusal)) => Err(refusal),
        _ => unreachable(),
    }
}

/// Ranges of a sheet's own rows, asked as of any field.
pub fn asked(rt: &HostRuntime) -> io::Result<()> {
    let mut sheet = Sheet::blank(rt.alloc(), 1)?;
    inside(
        rt,
        &mut sheet,
        &[Act::Enter(1, 0, 1000), Act::Enter(2, 100, 300)],
    );
    let mut door = Sheet::blank(rt.alloc(), 2)?;
    let rows = sheet.rows();
    tell_ranges(rt, "rows", |place| ask(&mut door, &rows, place))
}
