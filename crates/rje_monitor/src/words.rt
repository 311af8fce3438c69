//! Numbers, bytes and names, as they are shown.
ghost use Rattle.std.specs.Prelude.{◌≡◌, ◌<◌, ◌++◌, decimal, OnOk};
ghost use Rattle.rje_monitor.specs.Words.{shown, ascii, hex, hex_digit, closing_name, form_name, select_name, fault_text};

use bsc_codes::{Closing, to_ascii};
use itoa::Buffer;
use rje_text::{Select, TextFault};
use std::alloc::AllocError;

/// What is shown of a byte that has no ASCII character.
const NO_CHARACTER: u8 = b'?';

/// Puts a number in decimal after a text.
pub(crate) fn push_number(text: &mut Vec<u8>, number: usize) -> Result<(), AllocError>
    ensures digits { OnOk result (text.new.items ≡ text.old.items ++ decimal number) }
{
    let mut buffer = Buffer::new();
    text.extend_from_slice(buffer.format(number).as_bytes())
}

/// Puts data in ASCII after a text.
pub(crate) fn push_ascii(text: &mut Vec<u8>, bytes: &[u8]) -> Result<(), AllocError>
    ensures shown { OnOk result (text.new.items ≡ text.old.items ++ ascii bytes.now) }
{
    for byte in bytes {
        text.push(character(*byte))?;
    }
    Ok(())
}

/// The ASCII character of a byte; a question mark where it has none.
pub(crate) fn character(byte: u8) -> u8
    ensures { result ≡ shown byte }
{
    to_ascii(byte).unwrap_or(NO_CHARACTER)
}

/// Puts bytes in hexadecimal after a text.
pub(crate) fn push_hex(text: &mut Vec<u8>, bytes: &[u8]) -> Result<(), AllocError>
    ensures hex { OnOk result (text.new.items ≡ text.old.items ++ hex bytes.now) }
{
    for byte in bytes {
        text.push(digit(byte / 16))?;
        text.push(digit(byte % 16))?;
    }
    Ok(())
}

fn digit(value: u8) -> u8
    requires { value < 16 }
    ensures { result ≡ hex_digit value }
{
    if value < 10 {
        b'0' + value
    } else {
        b'A' - 10 + value
    }
}

pub(crate) fn closing_text(closing: Closing) -> &'static [u8]
    ensures { result.now ≡ closing_name closing }
{
    match closing {
        Closing::Etb => b"ETB",
        Closing::Etx => b"ETX",
    }
}

pub(crate) fn form_text(transparent: bool) -> &'static [u8]
    ensures { result.now ≡ form_name transparent }
{
    if transparent {
        b"transparent"
    } else {
        b"normal"
    }
}

pub(crate) fn select_text(select: Select) -> &'static [u8]
    ensures { result.now ≡ select_name select }
{
    match select {
        Select::Unset => b"unset",
        Select::Printer => b"printer",
        Select::Punch => b"punch",
    }
}

/// Puts the text of a fault after a text.
pub(crate) fn push_fault(text: &mut Vec<u8>, fault: TextFault) -> Result<(), AllocError>
    ensures fault { OnOk result (text.new.items ≡ text.old.items ++ fault_text fault) }
{
    match fault {
        TextFault::OutOfMemory => text.extend_from_slice(b"out of memory"),
        TextFault::BadCount(place) => push_placed(text, b"no count of blanks at ", place),
        TextFault::RecordTooLong(place) => push_placed(
            text,
            b"a record passes 144 bytes at ",
            place,
        ),
        TextFault::CardsNot80 => {
            text.extend_from_slice(b"transparent text that is no cards of 80 bytes")
        }
        TextFault::MixedModes => {
            text.extend_from_slice(b"another mode than the job's earlier blocks")
        }
    }
}

/// Puts words and a place after a text.
fn push_placed(text: &mut Vec<u8>, words: &[u8], place: usize) -> Result<(), AllocError>
    ensures placed { OnOk result (text.new.items ≡ text.old.items ++ (words.now ++ decimal place)) }
{
    text.extend_from_slice(words)?;
    push_number(text, place)
}
