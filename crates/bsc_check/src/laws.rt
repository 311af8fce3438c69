//! What the check's definition promises beyond the calls.
ghost use Rattle.bsc_check.specs.Laws.{OneRemainder};

/// Long division by the generator leaves a remainder, and there is no other.
pub fn one_remainder()
    ensures { OneRemainder }
{}
