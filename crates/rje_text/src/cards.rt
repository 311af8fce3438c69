//! Transparent text: cards of 80 bytes, as they are.
ghost use Rattle.std.specs.Prelude.{◌≡◌, ◌≢◌, ◌≤◌, ◌%◌, ◌/◌, IfOk, IfErr, OnOk, Some, length};
ghost use Rattle.rje_text.specs.Reading.{cards, card_reading, Agrees, IsCountOf};
ghost use Rattle.rje_text.specs.Inside.RecordText.{IsCardFault};

use crate::spelling::append;
use crate::unpacking::agrees;
use crate::{Action, Counted, Mode, Record, Records, Select, TextFault, Unpacked};
use arrayvec::ArrayVec;
use bsc_codes::MAX_TEXT;
use std::alloc::{AllocError, Global};

/// The bytes of a card.
const CARD: usize = 80;

/// What a transparent text represents.
pub(crate) fn unpack_cards(
    alloc: Global,
    text: &[u8],
    so_far: Option<Mode>,
) -> Result<Unpacked, TextFault>
    requires { length text.now ≤ MAX_TEXT }
    ensures read { IfOk result (λ u. (card_reading text.now ≡ Some u)
        × Agrees Mode.Transparent so_far) }
    ensures told { IfErr result (λ fault. IsCardFault so_far text.now fault) }
{
    if let Err(fault) = check_cards(text, so_far) {
        return Err(fault);
    }
    match collect_cards(alloc, text) {
        Ok(records) => Ok(Unpacked {
            select: Select::Punch,
            mode: Mode::Transparent,
            records,
        }),
        Err(AllocError) => Err(TextFault::OutOfMemory),
    }
}

/// What a transparent text represents, its cards only counted.
pub(crate) fn count_cards(text: &[u8], so_far: Option<Mode>) -> Result<Counted, TextFault>
    requires { length text.now ≤ MAX_TEXT }
    ensures counted { IfOk result (λ counted. IsCountOf (card_reading text.now) counted
        × Agrees Mode.Transparent so_far) }
    ensures told { IfErr result (λ fault. IsCardFault so_far text.now fault) }
    ensures no_memory { IfErr result (λ fault. fault ≢ TextFault.OutOfMemory) }
{
    match check_cards(text, so_far) {
        Ok(()) => Ok(Counted {
            select: Select::Punch,
            mode: Mode::Transparent,
            count: text.len() / CARD,
        }),
        Err(fault) => Err(fault),
    }
}

/// Refuses a text that isn't cards in its job's mode.
fn check_cards(text: &[u8], so_far: Option<Mode>) -> Result<(), TextFault>
    requires { length text.now ≤ MAX_TEXT }
    ensures cards { OnOk result (length text.now % CARD ≡ 0) }
    ensures agrees { OnOk result (Agrees Mode.Transparent so_far) }
    ensures told { IfErr result (λ fault. IsCardFault so_far text.now fault) }
    ensures no_memory { IfErr result (λ fault. fault ≢ TextFault.OutOfMemory) }
{
    if text.len() % CARD != 0 {
        return Err(TextFault::CardsNot80);
    }
    if !agrees(Mode::Transparent, so_far) {
        return Err(TextFault::MixedModes);
    }
    Ok(())
}

fn collect_cards(alloc: Global, text: &[u8]) -> Result<Records, AllocError>
    requires { length text.now % CARD ≡ 0 }
    ensures { IfOk result (λ records. records ≡ cards (length text.now / 80) text.now) }
{
    let mut records = Records::with_capacity(alloc, text.len() / CARD, text.len())?;
    let mut rest = text;
    while !rest.is_empty() {
        let (card, others) = rest.split_at(CARD);
        records.push(card_record(card))?;
        rest = others;
    }
    Ok(records)
}

fn card_record(card: &[u8]) -> Record
    requires { length card.now ≤ CARD }
    ensures action { result.action ≡ Action.Plain }
    ensures bytes { result.bytes.items ≡ card.now }
{
    let mut bytes = ArrayVec::new();
    append(&mut bytes, card);
    Record {
        action: Action::Plain,
        bytes,
    }
}
