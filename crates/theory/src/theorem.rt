//! The scheduling theorem, on the contract of a function, so that the check asks for its proof.

ghost use Rattle.theory.specs.Theorem.{Sound, FailsRightly, Complete, Decided, Turned, CutStaysPossible, LeastCutIsFirst, LastIsFirstTurned};

/// The method fails exactly when no order of play exists; what it closes no order of play uses, and
/// what it writes is an order of play. Reversing negates orders, a window cut to the least time
/// that leaves an order ends at the place's first start, and the last start is minus the first one
/// of the reversed field.
pub fn method_decides_orders_of_play()
    ensures soundness { Sound }
    ensures failure { FailsRightly }
    ensures completeness { Complete }
    ensures decision { Decided }
    ensures duality { Turned }
    ensures cutting { CutStaysPossible }
    ensures least { LeastCutIsFirst }
    ensures last { LastIsFirstTurned }
{}
