//! Decks and their jobs.
use super::{are_plain, is_one_record, is_record};
use rje_jobs::{Cards, DeckFault, cards_of_deck, job_of_deck};
use rje_text::{Action, Mode, Select};
use std::process::Abort;
use std::test::Fail;

/// The deck's normal job for the default device has these cards.
fn assert_cards(rt: &(impl Abort + AllocGlobal), deck: &[u8], cards: &[&[u8]]) -> Result<(), Fail> {
    let job = job_of_deck(rt.alloc(), deck, Select::Unset, Mode::Normal)?;
    assert!(rt; job.select == Select::Unset);
    assert!(rt; job.mode == Mode::Normal);
    assert!(rt; job.whole);
    assert!(rt; are_plain(&job.records, cards));
    Ok(())
}

#[test]
fn lines_are_cards(rt: HostRuntime) -> Result<(), Fail> {
    assert_cards(&rt, b"A\nB\n", &[&[0xC1], &[0xC2]])?;
    assert_cards(&rt, b"A\nB", &[&[0xC1], &[0xC2]])?;
    assert_cards(&rt, b"A\r\n\r\nB\r\n", &[&[0xC1], &[], &[0xC2]])?;
    assert_cards(&rt, b"A  \n", &[&[0xC1, 0x40, 0x40]])?;
    assert_cards(&rt, b"\n", &[&[]])?;
    assert_cards(&rt, b"", &[])
}

/// The deck makes no job for this cause.
fn assert_refused(rt: &(impl Abort + AllocGlobal), deck: &[u8], fault: DeckFault) {
    let job = job_of_deck(rt.alloc(), deck, Select::Unset, Mode::Normal);
    assert!(rt; job.err() == Some(fault));
}

#[test]
fn the_first_bad_line_is_told(rt: HostRuntime) {
    assert_refused(&rt, b"AB\tC\n", DeckFault::BadCharacter(1, 3));
    assert_refused(&rt, b"A\nB\r", DeckFault::BadCharacter(2, 2));
    assert_refused(&rt, b"A\r\r\n", DeckFault::BadCharacter(1, 2));
    assert_refused(&rt, &[b'A'; 81], DeckFault::LongLine(1));
    assert_refused(&rt, &[b'\t'; 81], DeckFault::LongLine(1));
}

#[test]
fn transparent_jobs_are_filled_cards_for_the_punch(rt: HostRuntime) -> Result<(), Fail> {
    let job = job_of_deck(rt.alloc(), b"A\n", Select::Printer, Mode::Transparent)?;
    assert!(rt; job.select == Select::Punch);
    assert!(rt; job.mode == Mode::Transparent);
    let mut card = [0x40; 80];
    card[0] = 0xC1;
    assert!(rt; is_one_record(&job.records, Action::Plain, &card));
    Ok(())
}

/// Whether the next card has these bytes.
fn next_is(cards: &mut Cards<'_>, bytes: &[u8]) -> bool {
    match cards.next() {
        Some(card) => is_record(&card, Action::Plain, bytes),
        None => false,
    }
}

#[test]
fn cards_come_one_after_another(rt: HostRuntime) -> Result<(), Fail> {
    let mut cards = cards_of_deck(b"A\nB\n", Mode::Normal)?;
    assert!(rt; cards.len() == 2);
    assert!(rt; next_is(&mut cards, &[0xC1]));
    assert!(rt; next_is(&mut cards, &[0xC2]));
    assert!(rt; cards.next().is_none());
    assert!(rt; cards_of_deck(b"\t", Mode::Normal).err() == Some(DeckFault::BadCharacter(1, 1)));
    Ok(())
}
