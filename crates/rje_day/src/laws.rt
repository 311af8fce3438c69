//! What holds of whole days.
ghost use Rattle.rje_day.specs.Laws.{BeginWhereNoneIsInHand, CallsAgainAtOnce, CallsAgainInTime, CarryOneEachWay, EndsAfterOne, GivesNoJobAgain, HangsUpTheIdle, HangsUpTheIdleAlone};

/// Whatever happens and is seen in a day: the stations in use have carried at most one transmission each way.
pub fn stations_carry_one_each_way()
    ensures { CarryOneEachWay }
{}

/// Whatever happens and is seen in a day: a transmission begins only where none is in hand, so the one before it on that connection ended, by an
/// EOT that was said or heard.
pub fn transmissions_begin_where_none_is_in_hand()
    ensures { BeginWhereNoneIsInHand }
{}

/// A station that isn't drained, and whose line isn't wanted, hangs up an end that says no word for as long as there is patience, where no
/// transmission is in hand, and no other.
pub fn the_idle_alone_are_hung_up()
    ensures alone { HangsUpTheIdleAlone }
    ensures idle { HangsUpTheIdle }
{}

/// A station that calls does so again at once after the first connection that broke, and after each further one, until a transmission ends
/// well, when it is time to call again.
pub fn calls_again_once_at_once()
    ensures at_once { CallsAgainAtOnce }
    ensures in_time { CallsAgainInTime }
{}

/// A station that isn't drained ends only where it was told to end after one connection, and after one on which the other end said a word.
pub fn ends_after_one_connection()
    ensures { EndsAfterOne }
{}

/// A job that one transmission sent or left in doubt is given to no later one, where each is given only what lies ready.
pub fn no_job_is_given_again()
    ensures { GivesNoJobAgain }
{}
