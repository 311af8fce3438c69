//! Why a record can't be sent.
ghost use Rattle.std.specs.Prelude.{◌≡◌, not, position};
ghost use Rattle.rje_text.specs.Records.{record_of_data};
ghost use Rattle.std.specs.List.{list_any};
ghost use Rattle.rje_text.specs.PackFault.{
  pack_fault,
  bad_byte as bad_byte_of,
  is_no_data_byte as no_data,
  card_length as card_length_of,
  is_of_cards as of_cards,
  action_here as action_fault,
};

use crate::{Action, Mode, Record, Select};
use thiserror::Error;

/// Why a record can't be sent in a job.
#[derive(Debug, PartialEq, Eq, Error, Clone, Copy)]
pub enum PackFault {
    /// A normal text can't carry this byte of the data; its place counts from 0.
    #[error("no text byte at {0}")]
    BadByte(usize),
    /// A card of this many bytes: a transparent job's have 80, a punch job's 80 at most.
    #[error("a card of {0} bytes")]
    CardLength(usize),
    /// Carriage control in a job of cards.
    #[error("carriage control in a job of cards")]
    ActionHere,
}

impl PackFault {
    /// Why a record can't be sent in a job of this selection and mode, if it can't: the first cause that holds.
    pub fn of(item: &Record, select: Select, mode: Mode) -> Option<PackFault>
        ensures { result ≡ pack_fault select mode item.now }
    {
        PackFault::of_data(item.action, item.bytes.as_slice(), select, mode)
    }

    /// The same of a record of this action and these data.
    pub(crate) fn of_data(
        action: Action,
        items: &[u8],
        select: Select,
        mode: Mode,
    ) -> Option<PackFault>
        ensures { result ≡ pack_fault select mode (record_of_data action items.now) }
    {
        let length = card_length(items.len(), select, mode);
        let action = action_here(action, is_of_cards(select, mode));
        bad_byte(items, mode).or(length.or(action))
    }
}

/// The first byte that a normal text can't carry for data.
fn bad_byte(bytes: &[u8], mode: Mode) -> Option<PackFault>
    ensures { result ≡ bad_byte_of mode bytes.now }
{
    match mode {
        Mode::Normal => match no_data_byte(bytes) {
            Some(place) => Some(PackFault::BadByte(place)),
            None => None,
        },
        Mode::Transparent => None,
    }
}

/// The place of the first byte that a normal text can't carry for data. Most records have none, and that is seen sooner without a place.
#[tactic(auto, using(crate::proofs::NoneFound::none_first))]
fn no_data_byte(bytes: &[u8]) -> Option<usize>
    ensures { result ≡ position no_data bytes.now }
{
    if are_data_bytes(bytes) {
        return None;
    }
    bytes.iter().position(|byte| is_no_data_byte(*byte))
}

/// Whether a normal text can carry each of these bytes for data. It doesn't stop at the first that it can't, so many are tested at once.
fn are_data_bytes(bytes: &[u8]) -> bool
    ensures { result ≡ not (list_any no_data bytes.now) }
{
    let mut good = true;
    for byte in bytes {
        good &= !is_no_data_byte(*byte);
    }
    good
}

fn is_no_data_byte(byte: u8) -> bool
    ensures { result ≡ no_data byte }
{
    byte < 0x40 || 0xFE < byte
}

/// A card of another length than the job's cards have.
fn card_length(length: usize, select: Select, mode: Mode) -> Option<PackFault>
    ensures { result ≡ card_length_of select mode length }
{
    let fits = match (mode, select) {
        (Mode::Transparent, _) => length == 80,
        (Mode::Normal, Select::Punch) => length <= 80,
        (Mode::Normal, Select::Unset | Select::Printer) => true,
    };
    if fits {
        None
    } else {
        Some(PackFault::CardLength(length))
    }
}

/// Carriage control in a job of cards.
fn action_here(action: Action, of_cards: bool) -> Option<PackFault>
    ensures { result ≡ action_fault of_cards action }
{
    if of_cards && action != Action::Plain {
        Some(PackFault::ActionHere)
    } else {
        None
    }
}

fn is_of_cards(select: Select, mode: Mode) -> bool
    ensures { result ≡ of_cards select mode }
{
    match (mode, select) {
        (Mode::Transparent, _) | (Mode::Normal, Select::Punch) => true,
        (Mode::Normal, Select::Unset | Select::Printer) => false,
    }
}
