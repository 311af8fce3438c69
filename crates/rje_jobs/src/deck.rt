//! Decks: printable text, one card a line.
ghost use Rattle.std.specs.Prelude.{◌≡◌, ◌<◌, ◌≤◌, ◌^◌, length, position, is_none, IfSome, IfOk, IfErr, Some, None, true};
ghost use Rattle.std.specs.Str.Lines.{lines};
ghost use Rattle.bsc_codes.specs.CodePage.{ebcdic_of};
ghost use Rattle.rje_jobs.specs.Deck.{AreCoded, line_fault, deck_fault, deck_select, cards_of, job_of, IsDeckFault};
ghost use Rattle.rje_jobs.specs.Deck.{job_of_cards as JobOfCards};

use crate::cards::{CARD, Cards};
use crate::lines::next_line;
use crate::{DeckFault, Job};
use bsc_codes::to_ebcdic;
use rje_text::{Mode, Records, Select};
use std::alloc::{AllocError, Global};

/// The first printable character, the blank, and the last one, the tilde.
const FIRST: u8 = 0x20;

const LAST: u8 = 0x7E;

/// The job of a deck: a card for each line, in EBCDIC. A transparent job goes to the punch,
/// its cards filled to 80 bytes. The first fault of the deck is reported before any memory is taken.
pub fn job_of_deck(alloc: Global, deck: &[u8], select: Select, mode: Mode) -> Result<Job, DeckFault>
    ensures job { IfOk result (λ job. (deck_fault deck.now ≡ None)
        × (job ≡ job_of select mode deck.now)) }
    ensures told { IfErr result (λ fault. IsDeckFault deck.now fault) }
{
    let cards = cards_of_deck(deck, mode)?;
    Ok(job_of_cards(alloc, select, mode, cards)?)
}

/// The job of the cards of a deck in this mode. A transparent job goes to the punch.
pub fn job_of_cards(
    alloc: Global,
    select: Select,
    mode: Mode,
    cards: Cards,
) -> Result<Job, AllocError>
    ensures job { IfOk result (λ job. job ≡ JobOfCards select mode cards.entry) }
{
    Ok(Job {
        select: deck_device(select, mode),
        mode,
        records: collected(alloc, cards)?,
        whole: true,
    })
}

/// The cards of a deck, once the whole deck is checked. Takes no memory, and so never runs out of it.
pub fn cards_of_deck<'a>(deck: &'a [u8], mode: Mode) -> Result<Cards<'a>, DeckFault>
    ensures cards { IfOk result (λ cards. (deck_fault deck.entry.now ≡ None)
        × (cards ≡ cards_of mode deck.entry.now)) }
    ensures few { IfOk result (λ cards. length cards < 2 ^ 64) }
    ensures fault { IfErr result (λ fault. deck_fault deck.entry.now ≡ Some fault) }
    ensures told { IfErr result (λ fault. IsDeckFault deck.entry.now fault) }
{
    let count = count_lines(deck)?;
    Ok(Cards::new(deck, mode, count))
}

/// The cards as records, whose memory is taken at once in normal mode.
fn collected(alloc: Global, cards: Cards) -> Result<Records, AllocError>
    ensures { IfOk result (λ records. records ≡ cards.entry) }
{
    let mut records = Records::with_capacity(alloc, cards.len(), cards.rest().len())?;
    for card in cards {
        records.push(card)?;
    }
    Ok(records)
}

/// How many lines the deck has; its first fault where it has one.
fn count_lines(deck: &[u8]) -> Result<usize, DeckFault>
    ensures counted { IfOk result (λ count. (deck_fault deck.now ≡ None)
        × (count ≡ length (lines deck.now))) }
    ensures told { IfErr result (λ fault. deck_fault deck.now ≡ Some fault) }
{
    let mut number = 0;
    let mut rest = deck;
    while let Some((line, after)) = next_line(rest) {
        number += 1;
        if let Some(fault) = fault_in(line, number) {
            return Err(fault);
        }
        rest = after;
    }
    Ok(number)
}

/// The fault of line `number`, if any.
fn fault_in(line: &[u8], number: usize) -> Option<DeckFault>
    ensures { result ≡ line_fault number line.now }
{
    if CARD < line.len() {
        return Some(DeckFault::LongLine(number));
    }
    match bad_place(line) {
        Some(place) => Some(DeckFault::BadCharacter(number, place + 1)),
        None => None,
    }
}

/// The place, from 0, of the first character without an EBCDIC code.
#[tactic(auto, using(crate::proofs::Coded::none_bad))]
fn bad_place(line: &[u8]) -> Option<usize>
    ensures place { result ≡ position (λ character. is_none (ebcdic_of character)) line.now }
    ensures within { IfSome result (λ place. place < length line.now) }
{
    if is_printable(line) {
        return None;
    }
    line.iter()
        .position(|character| to_ebcdic(*character).is_none())
}

/// Whether all characters of a line are printable, by the least and the greatest of them: each printable character has a code.
#[tactic(auto, using(crate::proofs::Coded::all_printable))]
fn is_printable(line: &[u8]) -> bool
    ensures { result ≡ true → AreCoded line.now }
{
    let mut least = LAST;
    let mut greatest = FIRST;
    for character in line {
        if *character < least {
            least = *character;
        }
        if greatest < *character {
            greatest = *character;
        }
    }
    FIRST <= least && greatest <= LAST
}

/// The device of a deck's job: the one that is asked for, and the punch for a transparent job.
pub fn deck_device(select: Select, mode: Mode) -> Select
    ensures device { result ≡ deck_select select mode }
{
    match mode {
        Mode::Normal => select,
        Mode::Transparent => Select::Punch,
    }
}
