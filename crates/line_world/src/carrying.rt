//! The pieces in which bytes come after their fate.
ghost use Rattle.std.specs.Prelude.{◌≡◌, ◌↔◌, ◌≤◌, ◌++◌, length, map, drop, IfOk, OnOk, IfErr, IsTrue};
ghost use Rattle.std.specs.List.{flat_map};
ghost use Rattle.bsc_link.specs.declared.sound.Sound.{Sound};
ghost use Rattle.line_world.specs.Damage.{AreCuts, Fits};
ghost use Rattle.line_world.specs.Carrying.{bytes_after, IsFateFault};

use crate::turn_fault::TurnFault;
use crate::{Fate, MemoryLine};
use std::alloc::{AllocError, Global};

/// The most bytes that a damaged transmission has.
pub const MAX_DAMAGE: usize = 8192;

/// What was sent on one line comes on another one, after its fate.
pub fn carry(
    alloc: Global,
    fate: &Fate,
    from: &MemoryLine,
    to: &mut MemoryLine,
) -> Result<(), TurnFault>
    ensures fits { OnOk result (Fits fate.now from.now.sent) }
    ensures short { OnOk result (length (flat_map (λ p. p) to.new.waiting) ≤ 8192) }
    ensures calm { to.new.until_failure ≡ to.old.until_failure }
    ensures comes { OnOk result (flat_map (λ p. p) to.new.waiting
        ≡ bytes_after fate.now from.now.sent) }
    ensures fault { IfErr result (λ fault. (said : Sound)
        → IsFateFault fate.now said from.now.sent fault) }
{
    match fate {
        Fate::Arrives { cuts } if cuts.is_empty() => to.put_whole(alloc, from.sent())?,
        _ => to.put(pieces_of(alloc, fate, from.sent())?),
    }
    Ok(())
}

/// The pieces that come of what was sent.
fn pieces_of(alloc: Global, fate: &Fate, sent: &[u8]) -> Result<Vec<Vec<u8>>, TurnFault>
    ensures fits { OnOk result (Fits fate.now sent.now) }
    ensures bytes { IfOk result (λ pieces. flat_map (λ p. p) (map (λ p. p.items) pieces.items)
        ≡ bytes_after fate.now sent.now) }
    ensures fault { IfErr result (λ fault. (said : Sound)
        → IsFateFault fate.now said sent.now fault) }
{
    match fate {
        Fate::Arrives { cuts } if !are_cuts(0, sent.len(), cuts) => Err(TurnFault::BadCut),
        Fate::Arrives { cuts } => Ok(cut_apart(alloc, 0, cuts, sent)?),
        Fate::Lost => Ok(Vec::new(alloc)),
        Fate::Damaged { bytes } if MAX_DAMAGE < bytes.len() => Err(TurnFault::NotDamage),
        Fate::Damaged { bytes } => Ok(one_piece(alloc, bytes)?),
    }
}

/// Whether these places rise strictly, all behind one place and before another.
fn are_cuts(from: usize, end: usize, cuts: &[usize]) -> bool
    ensures { IsTrue result ↔ AreCuts from end cuts.now }
{
    match cuts {
        [] => true,
        [cut, rest @ ..] => from < *cut && *cut < end && are_cuts(*cut, end, rest),
    }
}

/// The bytes from a place on, cut apart at these places.
fn cut_apart(
    alloc: Global,
    from: usize,
    cuts: &[usize],
    bytes: &[u8],
) -> Result<Vec<Vec<u8>>, AllocError>
    requires within { from ≤ length bytes.now }
    requires cuts { AreCuts from (length bytes.now) cuts.now }
    ensures bytes { IfOk result (λ pieces. flat_map (λ p. p) (map (λ p. p.items) pieces.items)
        ≡ drop from bytes.now) }
{
    let mut pieces = Vec::new(alloc);
    let mut place = from;
    for cut in cuts {
        pieces.push(Vec::from_slice(alloc, &bytes[place..*cut])?)?;
        place = *cut;
    }
    pieces.push(Vec::from_slice(alloc, &bytes[place..])?)?;
    Ok(pieces)
}

/// These bytes in one piece.
fn one_piece(alloc: Global, bytes: &[u8]) -> Result<Vec<Vec<u8>>, AllocError>
    ensures bytes { IfOk result (λ pieces.
        flat_map (λ p. p) (map (λ p. p.items) pieces.items) ≡ bytes.now) }
{
    let mut pieces = Vec::new(alloc);
    pieces.push(Vec::from_slice(alloc, bytes)?)?;
    Ok(pieces)
}
