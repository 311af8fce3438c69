//! Scripts of `try`: a schedule of losses and damage, a turn a line.
//!
//! A line has four words with one blank between: what the line does to what the sender says, what it does to the reply, the receiver's wish,
//! and whether the sender's next block has to wait.
//!
//! | Word | Forms |
//! |---|---|
//! | up, down | `ok`; `ok:` and the places of cuts in decimal with commas between; `lost`; `bad:` and pairs of hexadecimal digits |
//! | wish | `go`, `hold`, `turn` |
//! | pause | `-`, `pause` |
ghost use Rattle.std.specs.Prelude.{◌≡◌, ◌≢◌, ◌<◌, Bool, [], length, IfErr, IfOk, IfSome, MatchOption};
ghost use Rattle.bsc_link.specs.declared.wish.Wish.{Wish};
ghost use Rattle.rje_print.specs.Script.{IsNextLine, IsScript, IsScriptFault, IsTurn, IsTurnLine, TurnFits, wish_word, pause_word};

mod fate_word;
mod splitting;

use crate::script_fault::ScriptFault;
use bsc_link::Wish;
use fate_word::fate_of;
use line_world::Turn;
use splitting::split_once;
use std::alloc::{AllocError, Global};

/// The turns of a script. The first line that isn't a turn is reported by its number, from 1.
pub fn read_script(alloc: Global, script: &[u8]) -> Result<Vec<Turn>, ScriptFault>
    ensures script { IfOk result (λ turns. IsScript turns.items script.now) }
    ensures told { IfErr result (IsScriptFault script.now) }
{
    let mut turns = Vec::new(alloc);
    let mut rest = script;
    while let Some((line, more)) = first_line(rest) {
        match turn_of(alloc, line) {
            Ok(Some(turn)) => {
                if turns.push(turn).is_err() {
                    return Err(ScriptFault::OutOfMemory);
                }
            }
            Ok(None) => return Err(ScriptFault::NotATurn(turns.len() + 1)),
            Err(AllocError) => return Err(ScriptFault::OutOfMemory),
        }
        rest = more;
    }
    Ok(turns)
}

/// The first line, and what is after its LF.
fn first_line<'a>(bytes: &'a [u8]) -> Option<(&'a [u8], &'a [u8])>
    ensures line { MatchOption result (bytes.entry.now ≡ [])
        (λ p. IsNextLine bytes.entry.now p.0.now p.1.now) }
    ensures shorter { IfSome result (λ p. length p.1.now < length bytes.entry.now) }
{
    if bytes.is_empty() {
        return None;
    }
    match split_once(bytes, b'\n') {
        Some(parts) => Some(parts),
        None => Some((bytes, &[])),
    }
}

/// The turn of a line; None where it isn't one.
fn turn_of(alloc: Global, line: &[u8]) -> Result<Option<Turn>, AllocError>
    ensures { IfOk result (λ turn. MatchOption turn (¬ (IsTurn line.now))
        (λ t. IsTurnLine t line.now × TurnFits t)) }
{
    let Some((up, rest)) = split_once(line, b' ') else {
        return Ok(None);
    };
    let Some((down, rest)) = split_once(rest, b' ') else {
        return Ok(None);
    };
    let Some((wish, pause)) = split_once(rest, b' ') else {
        return Ok(None);
    };
    let Some(wish) = wish_of(wish) else {
        return Ok(None);
    };
    let Some(pause) = pause_of(pause) else {
        return Ok(None);
    };
    let Some(up) = fate_of(alloc, up)? else {
        return Ok(None);
    };
    let Some(down) = fate_of(alloc, down)? else {
        return Ok(None);
    };
    Ok(Some(Turn {
        up,
        down,
        wish,
        pause,
    }))
}

fn wish_of(word: &[u8]) -> Option<Wish>
    ensures { MatchOption result ((wish : Wish) → word.now ≢ wish_word wish)
        (λ wish. word.now ≡ wish_word wish) }
{
    if word == b"go".as_slice() {
        Some(Wish::Go)
    } else if word == b"hold".as_slice() {
        Some(Wish::Hold)
    } else if word == b"turn".as_slice() {
        Some(Wish::Turn)
    } else {
        None
    }
}

fn pause_of(word: &[u8]) -> Option<bool>
    ensures { MatchOption result ((pause : Bool) → word.now ≢ pause_word pause)
        (λ pause. word.now ≡ pause_word pause) }
{
    if word == b"-".as_slice() {
        Some(false)
    } else if word == b"pause".as_slice() {
        Some(true)
    } else {
        None
    }
}
