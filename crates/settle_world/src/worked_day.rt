//! A worked example of a day.
ghost use Rattle.settle_world.specs.WorkedDay.{LostJobMakesADay};

/// A worked example of a day. Of two jobs that are promised the first is kept, and the second is
/// lost: by the other end's next receipt the first one is settled as sent, and the second one is
/// ready again.
pub fn a_day_with_a_lost_job()
    ensures a_day { LostJobMakesADay }
{}
