//! The laws of the look-ups, on the contract of a function, so that the check asks for their proof.

ghost use Rattle.theory.specs.Lookups.{LeastAndGreatest, BackwardAndForward};

/// The look-ups tell the greatest and the least time outside a closed set, and n steps forth from e
/// end by l exactly when n steps back from l end at or after e.
pub fn lookups_are_exact()
    ensures extremal { LeastAndGreatest }
    ensures adjoint { BackwardAndForward }
{}
