//! A worked example of a day.
ghost use Rattle.day_world.specs.WorkedDay.{JobInDoubtMakesADay};

use crate::{exchanges_pass_on_the_first_jobs, sessions_carry_their_exchanges};

/// A worked example of a day. Both ends bid at once, and the secondary yields; the primary's job
/// comes, but its answer doesn't. In a second exchange they bid at once again, and another job of the
/// primary's is sent. So the first job is in doubt, is kept, and isn't sent again; the secondary's is
/// given to both transmissions, and lies ready still.
pub fn a_day_with_a_job_in_doubt()
    ensures a_day { JobInDoubtMakesADay }
{
    sessions_carry_their_exchanges();
    exchanges_pass_on_the_first_jobs();
}
