//! What holds of every day of two stations.
ghost use Rattle.day_world.specs.Books.{CarryWhatIsEntered};
ghost use Rattle.day_world.specs.Carried.{PassOnTheFirstJobs};
ghost use Rattle.day_world.specs.Day.{BringsEachOnce, BringsNoOther, BringsNoneReady, BringsWhatWasSent, KeepsWhatCame, LeavesFewInDoubt, OverDays};

use connection_world::exchanges_hand_out_what_was_said;
use rje_day::no_job_is_given_again;

/// Where at each end of an exchange a session enters turn by turn what happens, and settles what is
/// left once its transmission is over, the exchange is carried: each job is settled by how its
/// transmission ended, the last block of a job is said only once it is entered that the job may
/// arrive, and just the jobs that came whole are kept.
pub fn sessions_carry_their_exchanges()
    ensures carried { CarryWhatIsEntered }
{}

/// Each way of an exchange that is carried, the jobs that the other end kept are the first of those
/// given, in order and as they were given; each job that was sent is one of them, and none that lies
/// ready still.
pub fn exchanges_pass_on_the_first_jobs()
    ensures passed_on { PassOnTheFirstJobs }
{
    exchanges_hand_out_what_was_said();
}

/// The headline over a whole day, each way: every exchange is carried, each job is put out once, and
/// each transmission is given only what lies ready, each job once. What the other end keeps is, in
/// the order of the day, just what came. Each job that was sent came, at a place of its own; of each
/// transmission nothing else came but a job in doubt, behind those that were sent. No job comes
/// twice, whatever is sent again, and none has come that lies ready still. Of each transmission at
/// most one job is in doubt, and only where it ended so.
#[tactic(auto, using(crate::proofs::WholeDay::over_days))]
pub fn days_keep_each_job_once()
    ensures kept { OverDays KeepsWhatCame }
    ensures sent { OverDays BringsWhatWasSent }
    ensures no_other { OverDays BringsNoOther }
    ensures once { OverDays BringsEachOnce }
    ensures none_ready { OverDays BringsNoneReady }
    ensures doubt { OverDays LeavesFewInDoubt }
{
    exchanges_pass_on_the_first_jobs();
    no_job_is_given_again();
}
