//! The cards of a deck, one after another.
ghost use Rattle.std.specs.Prelude.{◌≡◌, [], ◌≤◌, length, map, None};
ghost use Rattle.std.specs.List.{filter_map};
ghost use Rattle.std.specs.Str.Lines.{lines};
ghost use Rattle.bsc_codes.specs.CodePage.{ebcdic_of};
ghost use Rattle.rje_jobs.specs.Deck.{AreCardsOf, AreCoded, code_or_zero, deck_fault, filled, card_of, cards_of};

use crate::lines::next_line;
use arrayvec::ArrayVec;
use bsc_codes::BLANK;
use rje_text::{Action, MAX_RECORD, Mode, Record};
use std::marker::Model;

/// The EBCDIC code of each character; 00 for one that has none.
const CODES: [u8; 256] = [
    0x00, 0x00, 0x00, 0x00, 0x00, 0x00, 0x00, 0x00, 0x00, 0x00, 0x00, 0x00, 0x00, 0x00, 0x00, 0x00,
    0x00, 0x00, 0x00, 0x00, 0x00, 0x00, 0x00, 0x00, 0x00, 0x00, 0x00, 0x00, 0x00, 0x00, 0x00, 0x00,
    0x40, 0x5A, 0x7F, 0x7B, 0x5B, 0x6C, 0x50, 0x7D, 0x4D, 0x5D, 0x5C, 0x4E, 0x6B, 0x60, 0x4B, 0x61,
    0xF0, 0xF1, 0xF2, 0xF3, 0xF4, 0xF5, 0xF6, 0xF7, 0xF8, 0xF9, 0x7A, 0x5E, 0x4C, 0x7E, 0x6E, 0x6F,
    0x7C, 0xC1, 0xC2, 0xC3, 0xC4, 0xC5, 0xC6, 0xC7, 0xC8, 0xC9, 0xD1, 0xD2, 0xD3, 0xD4, 0xD5, 0xD6,
    0xD7, 0xD8, 0xD9, 0xE2, 0xE3, 0xE4, 0xE5, 0xE6, 0xE7, 0xE8, 0xE9, 0xBA, 0xE0, 0xBB, 0xB0, 0x6D,
    0x79, 0x81, 0x82, 0x83, 0x84, 0x85, 0x86, 0x87, 0x88, 0x89, 0x91, 0x92, 0x93, 0x94, 0x95, 0x96,
    0x97, 0x98, 0x99, 0xA2, 0xA3, 0xA4, 0xA5, 0xA6, 0xA7, 0xA8, 0xA9, 0xC0, 0x4F, 0xD0, 0xA1, 0x00,
    0x00, 0x00, 0x00, 0x00, 0x00, 0x00, 0x00, 0x00, 0x00, 0x00, 0x00, 0x00, 0x00, 0x00, 0x00, 0x00,
    0x00, 0x00, 0x00, 0x00, 0x00, 0x00, 0x00, 0x00, 0x00, 0x00, 0x00, 0x00, 0x00, 0x00, 0x00, 0x00,
    0x00, 0x00, 0x00, 0x00, 0x00, 0x00, 0x00, 0x00, 0x00, 0x00, 0x00, 0x00, 0x00, 0x00, 0x00, 0x00,
    0x00, 0x00, 0x00, 0x00, 0x00, 0x00, 0x00, 0x00, 0x00, 0x00, 0x00, 0x00, 0x00, 0x00, 0x00, 0x00,
    0x00, 0x00, 0x00, 0x00, 0x00, 0x00, 0x00, 0x00, 0x00, 0x00, 0x00, 0x00, 0x00, 0x00, 0x00, 0x00,
    0x00, 0x00, 0x00, 0x00, 0x00, 0x00, 0x00, 0x00, 0x00, 0x00, 0x00, 0x00, 0x00, 0x00, 0x00, 0x00,
    0x00, 0x00, 0x00, 0x00, 0x00, 0x00, 0x00, 0x00, 0x00, 0x00, 0x00, 0x00, 0x00, 0x00, 0x00, 0x00,
    0x00, 0x00, 0x00, 0x00, 0x00, 0x00, 0x00, 0x00, 0x00, 0x00, 0x00, 0x00, 0x00, 0x00, 0x00, 0x00,
];

/// The columns of a card.
pub(crate) const CARD: usize = 80;

/// The cards of a deck that has no fault, one after another. Contracts see the list of those that are left.
#[derive(Drop)]
pub struct Cards<'a> {
    rest: &'a [u8],
    mode: Mode,
    left: usize,
}

impl<'a> Model for Cards<'a> {
    ghost use Rattle.std.specs.Prelude.{List};
    ghost use Rattle.rje_text.specs.declared.record.Record.{Record as Item};

    ghost Value = { List Item };

    ghost use Rattle.std.specs.Prelude.{◌≡◌, length};
    ghost use Rattle.std.specs.Str.Lines.{lines};
    ghost use Rattle.rje_jobs.specs.Deck.{AreSound, cards_of};

    ghost view = { λ cards. cards_of cards.mode cards.rest.now };

    ghost invariant = { λ cards. (cards.left ≡ length (lines cards.rest.now))
        × AreSound cards.rest.now };
}

impl<'a> Cards<'a> {
    pub(crate) fn new(deck: &'a [u8], mode: Mode, count: usize) -> Self
        requires sound { deck_fault deck.now ≡ None }
        requires counted { count ≡ length (lines deck.now) }
        ensures { result ≡ cards_of mode deck.entry.now }
    {
        Cards {
            rest: deck,
            mode,
            left: count,
        }
    }

    /// How many cards are left.
    pub fn len(&self) -> usize
        ensures { result ≡ length self.now }
    {
        self.left
    }

    /// What is left of the deck: the lines of the cards that are left.
    pub fn rest(&self) -> &'a [u8]
        ensures { AreCardsOf result.now self.now }
    {
        self.rest
    }
}

impl Iterator for Cards<'_> {
    type Item = Record;

    ghost use Rattle.std.specs.Iterator.{YieldsFirst, item_count};

    ghost next_gives = { YieldsFirst (λ cards. cards) };

    ghost remaining = { item_count (λ cards. cards) };

    #[tactic(auto, using(crate::proofs::Coded::first_coded))]
    fn next(&mut self) -> Option<Record> {
        let (line, after) = next_line(self.rest)?;
        let card = card(line, self.mode);
        self.rest = after;
        self.left -= 1;
        Some(card)
    }
}

/// The card of a line.
fn card(line: &[u8], mode: Mode) -> Record
    requires fits { length line.now ≤ CARD }
    requires coded { AreCoded line.now }
    ensures { result ≡ card_of mode line.now }
{
    let mut bytes = ArrayVec::new();
    push_codes(line, &mut bytes);
    if mode == Mode::Transparent {
        fill(&mut bytes);
    }
    Record {
        action: Action::Plain,
        bytes,
    }
}

/// Puts the codes of the characters of a line, each of which has one, into an empty card.
#[tactic(auto, using(crate::proofs::Coded::codes_are, crate::proofs::Coded::length_codes))]
fn push_codes(line: &[u8], card: &mut ArrayVec<u8, MAX_RECORD>)
    requires fits { length line.now ≤ CARD }
    requires coded { AreCoded line.now }
    requires empty { card.old.items ≡ [] }
    ensures codes { card.new.items ≡ filter_map ebcdic_of line.now }
    ensures fits { length card.new.items ≤ CARD }
{
    if card.try_extend_from_slice(line).is_err() {
        unreachable!();
    }
    make_codes(card.as_mut_slice());
}

/// Puts each character's code in its place, and 00 where it has none.
fn make_codes(characters: &mut [u8])
    ensures { characters.new ≡ map code_or_zero characters.old }
{
    for character in characters.iter_mut() {
        *character = code(*character);
    }
}

/// The code of a character; 00 where it has none.
#[tactic(auto, using(crate::proofs::Coded::entry_is))]
fn code(character: u8) -> u8
    ensures { result ≡ code_or_zero character }
{
    CODES[usize::from(character)]
}

/// Fills a card with blanks.
fn fill(card: &mut ArrayVec<u8, MAX_RECORD>)
    requires { length card.old.items ≤ CARD }
    ensures { card.new.items ≡ filled Mode.Transparent card.old.items }
{
    for _ in 0..CARD - card.len() {
        card.push(BLANK);
    }
}
