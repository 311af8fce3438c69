//! What the reasons promise beyond the calls.
ghost use Rattle.rje_monitor.specs.Reasons.{OneReason};

/// For bytes that are heard as bad at most one reason holds.
pub fn one_reason()
    ensures { OneReason }
{}
