//! What the receiver's table is for: a law of runs, which are lists of steps, from a state on.
ghost use Rattle.bsc_link.specs.Laws.{MakesAtMostOneRvi};

/// A new receiver makes at most one RVI, whatever it hears; asked again, it may say that one again.
pub fn at_most_one_rvi()
    ensures { MakesAtMostOneRvi }
{}
