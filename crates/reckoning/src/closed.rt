//! The closed spans, and looking up times outside them.

ghost use Rattle.std.specs.Prelude.{◌≡◌, ◌<◌, [], ◌∷◌, ◌++◌, reverse, ◌<ℤ◌, if◌then◌else◌, int_lt};
ghost use Rattle.arrayvec.specs.ArrayVec.{array_vec_len};
ghost use Rattle.reckoning.specs.Values.{Falling, Falling-prop, Fit};
ghost use Rattle.std.proofs.Props.{props};
ghost use Rattle.std.specs.List.{AllByRecursion};
ghost use Rattle.theory.specs.Closed.{covers, greatest_outside, least_outside};

use arrayvec::ArrayVec;
use theory::Span;

/// The closed spans of a field, in the order found: each ends before those found before it.
#[derive(Drop)]
pub struct Closed {
    spans: ArrayVec<Span, 64>,
    ghost falling: { Falling (reverse spans.items) } by { Falling-prop (reverse spans.items) },
    ghost fit: { AllByRecursion Fit spans.items } by { Prim.hlevel props },
}

impl Closed {
    /// Nothing is closed.
    pub fn none() -> Closed
        ensures { result.spans.items ≡ [] }
    {
        Closed {
            spans: ArrayVec::new(),
        }
    }

    /// The spans in the order found.
    pub fn spans(&self) -> &[Span]
        ensures spans { result.now ≡ self.now.spans.items }
        ensures falling { Falling (reverse result.now) }
        ensures fit { AllByRecursion Fit result.now }
    {
        &self.spans
    }

    /// The span joins, unless it is empty.
    pub fn join(&mut self, span: Span)
        requires room { array_vec_len self.old.spans < 64 }
        requires before { AllByRecursion (λ o. span.last <ℤ o.last) self.old.spans.items }
        requires fit { Fit span }
        ensures { self.new.spans.items ≡ (if int_lt span.last span.first then self.old.spans.items else self.old.spans.items ++ span ∷ []) }
    {
        if span.first <= span.last {
            self.spans.push(span);
        }
    }

    /// The greatest time at or before `time` outside the spans.
    pub fn greatest_outside(&self, time: i64) -> i64
        ensures { result ≡ greatest_outside (reverse self.now.spans.items) time }
    {
        let mut low = time;
        for span in self.spans.iter() {
            if is_closed(*span, low) {
                low = span.first - 1;
            }
        }
        low
    }

    /// The least time at or after `time` outside the spans.
    // A loop of its own: one for both directions would take an iterator and a closure for its two lines.
    pub fn least_outside(&self, time: i64) -> i64
        ensures { result ≡ least_outside (reverse self.now.spans.items) time }
    {
        let mut high = time;
        for span in self.spans.iter().rev() {
            if is_closed(*span, high) {
                high = span.last + 1;
            }
        }
        high
    }
}

fn is_closed(span: Span, time: i64) -> bool
    ensures { result ≡ covers span time }
{
    (span.first..=span.last).contains(&time)
}
