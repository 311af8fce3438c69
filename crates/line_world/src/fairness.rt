//! Whether a schedule is fair.
ghost use Rattle.std.specs.Prelude.{◌≡◌, ◌↔◌, false, IsTrue};
ghost use Rattle.std.specs.List.{AllByRecursion};
ghost use Rattle.bsc_link.specs.declared.wish.Wish.TheVariants as Wish;
ghost use Rattle.line_world.specs.Fairness.{HasGoodPair, IsFair};
ghost use Rattle.line_world.specs.GoodTurn.{AllArrives, IsGood};

use crate::{Fate, Turn};
use bsc_link::Wish;

/// Whether the schedule is fair: the receiver wishes nothing in any turn, the sender's next block never waits, and each eight neighbouring
/// turns hold two neighbouring ones in which all arrives. Fewer than eight turns may all be lost. Takes no memory.
pub fn is_fair(turns: &[Turn]) -> bool
    ensures { IsTrue result ↔ IsFair turns.now }
{
    turns.iter().all(is_ready) && turns.windows(8).all(has_good_pair)
}

/// Whether the receiver wishes nothing in the turn, and the sender's next block doesn't wait.
fn is_ready(turn: &Turn) -> bool
    ensures { IsTrue result ↔ ((turn.now.wish ≡ Wish.Go) × (turn.now.pause ≡ false)) }
{
    turn.wish == Wish::Go && !turn.pause
}

/// Whether two neighbouring turns of these are good.
fn has_good_pair(turns: &[Turn]) -> bool
    ensures { IsTrue result ↔ HasGoodPair turns.now }
{
    turns.windows(2).any(are_good)
}

fn are_good(turns: &[Turn]) -> bool
    ensures { IsTrue result ↔ AllByRecursion IsGood turns.now }
{
    turns.iter().all(is_good)
}

fn is_good(turn: &Turn) -> bool
    ensures { IsTrue result ↔ IsGood turn.now }
{
    all_arrives(&turn.up) && all_arrives(&turn.down) && is_ready(turn)
}

fn all_arrives(fate: &Fate) -> bool
    ensures { IsTrue result ↔ AllArrives fate.now }
{
    matches!(fate, Fate::Arrives { .. })
}
