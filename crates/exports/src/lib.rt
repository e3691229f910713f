//! The reckoning of a strip, exported for programs in Rust or C that link `libexports.a`.

#![tactic(auto)]

ghost use Rattle.exports.specs.Outcomes.{outcome};
ghost use Rattle.field.specs.Refusals.{by_number};
ghost use Rattle.field.specs.Strip.{records, numbers_of};
ghost use Rattle.reckoning.specs.Lists.{answer, leaves};
ghost use Rattle.reckoning.specs.Order.{order_told};
ghost use Rattle.reckoning.specs.Spans.{spans_told};
ghost use Rattle.std.specs.Prelude.{◌≡◌, length};

use field::{Numbered, Refusal, Strip};
use reckoning::Start;
use reckoning::order::order;
use reckoning::spans::spans;
use theory::Span;

/// How a call ended: how many entries it wrote, and the number of its refusal, 0 if it was taken.
// The C interface has no `Result`: a refusal crosses as its number beside the count.
#[repr(C)]
#[derive(Clone, Copy)]
pub struct Outcome {
    pub count: usize,
    pub refusal: u8,
}

impl From<Result<usize, Refusal>> for Outcome {
    ghost from_gives = { λ res out. out ≡ outcome (by_number res) };

    fn from(res: Result<usize, Refusal>) -> Outcome {
        match res {
            Ok(count) => Outcome { count, refusal: 0 },
            Err(refusal) => Outcome {
                count: 0,
                refusal: refusal.number(),
            },
        }
    }
}

/// Writes the closed spans of a strip in the order found.
#[unsafe(no_mangle)]
pub extern "C" fn starter_spans(strip: &[u8], pace: u16, list: &mut [Span]) -> Outcome
    ensures answer { result ≡ outcome (answer (spans_told pace (records strip.now) (length list.old))) }
    ensures list { list.new ≡ leaves (spans_told pace (records strip.now) (length list.old)) list.old }
{
    spans(&Strip { bytes: strip }, pace, list).into()
}

/// Writes the written order of a strip.
// Not one function with the above: C calls each by its name, with a list of its own type.
#[unsafe(no_mangle)]
pub extern "C" fn starter_order(strip: &[u8], pace: u16, list: &mut [Start]) -> Outcome
    ensures answer { result ≡ outcome (answer (order_told pace (records strip.now) (numbers_of strip.now) (length list.old))) }
    ensures list { list.new ≡ leaves (order_told pace (records strip.now) (numbers_of strip.now) (length list.old)) list.old }
{
    order(&Strip { bytes: strip }, pace, list).into()
}
