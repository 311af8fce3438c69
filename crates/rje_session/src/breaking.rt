//! When a transmission breaks.
ghost use Rattle.std.specs.Prelude.{◌≡◌};
ghost use Rattle.bsc_link.specs.declared.say.Say.{Say as Word};
ghost use Rattle.rje_session.specs.Breaking.{breaks as broken_by, gives_up as has_given_up, heard_end as is_ended, is_answer as has_answered, may_be_said as allows, is_unanswered as lacks_answer, is_word as says_word};

use bsc_link::{Outcome, Say, Sound};
use rje_station::Arrival;

/// Whether the other end said a word: more came than noise.
pub(crate) fn is_word(heard: Sound) -> bool
    ensures { result ≡ says_word heard }
{
    !matches!(heard, Sound::Quiet | Sound::Noise)
}

/// Whether this answers what was said: a reply, EOT, or to a bid one of the other end's.
pub(crate) fn is_answer(said: Say, heard: Sound) -> bool
    ensures { result ≡ has_answered said heard }
{
    match heard {
        Sound::Ack0 | Sound::Ack1 | Sound::Nak | Sound::Wack | Sound::Rvi | Sound::Eot => true,
        Sound::Enq => said == Say::Bid,
        _ => false,
    }
}

/// Whether a transmission breaks in a turn in which this was said and heard, and it ended so, if it did: what was said wasn't answered, but where
/// a host may leave that, or it gave up after its bid was granted.
pub(crate) fn breaks(host: bool, said: Say, heard: Sound, outcome: Option<Outcome>) -> bool
    ensures { result ≡ broken_by host said heard outcome }
{
    (!host && is_unanswered(said, heard)) || gives_up(said, outcome)
}

/// Whether what was said, except EOT, wasn't answered.
fn is_unanswered(said: Say, heard: Sound) -> bool
    ensures { result ≡ lacks_answer said heard }
{
    said != Say::End && !is_answer(said, heard)
}

/// Whether a transmission gave up once this was said, after its bid was granted.
fn gives_up(said: Say, outcome: Option<Outcome>) -> bool
    ensures { result ≡ has_given_up said outcome }
{
    match said {
        Say::Block | Say::Again | Say::Ask | Say::Delay => outcome == Some(Outcome::GaveUp),
        Say::Bid | Say::End | Say::Nothing => false,
    }
}

/// Whether what is due may be said: after something wasn't answered in time, no block is transmitted once more. It is due because of an answer, which
/// may be a late one to what was said before the block.
pub(crate) fn may_be_said(broken: bool, due: Say) -> bool
    ensures { result ≡ allows broken due }
{
    !broken || due != Say::Again
}

/// Whether EOT came.
pub(crate) fn heard_end(arrival: Option<Arrival>) -> bool
    ensures { result ≡ is_ended arrival }
{
    match arrival {
        Some(arrival) => arrival.sound == Sound::Eot,
        None => false,
    }
}
