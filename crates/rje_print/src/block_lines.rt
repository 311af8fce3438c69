//! The lines of blocks.
ghost use Rattle.std.specs.Prelude.{◌≡◌, ◌+◌, ◌*◌, ◌<◌, ◌≤◌, ◌++◌, [], length};
ghost use Rattle.rje_print.specs.BlockLines.{hex_digit, hex, hex_or_hyphen, closing_name, block_line, back_line};
ghost use Rattle.rje_print.specs.declared.printed_line.TheConstants.{MAX_LINE};

use crate::printed_line::{PrintedLine, push, push_number};
use bsc_codes::{Block, Closing, MAX_TEXT};

/// Puts the line of a block into an empty line.
#[tactic(auto, unfolding(crate::specs::BlockLines::block_line))]
pub(crate) fn push_block(line: &mut PrintedLine, number: usize, block: &Block)
    requires { line.old.items ≡ [] }
    ensures { line.new.items ≡ block_line number block.now }
{
    let text = block.text.as_slice();
    push_number(line, number);
    push(line, b" ");
    push(line, closing_text(block.closing));
    push(line, b" ");
    push_number(line, text.len());
    push(line, b" ");
    push_hex(line, text);
    push(line, b"\n");
}

/// Puts the line that says how many records come back into an empty line.
pub(crate) fn push_back(line: &mut PrintedLine, count: usize)
    requires { line.old.items ≡ [] }
    ensures { line.new.items ≡ back_line count }
{
    push(line, b"back ");
    push_number(line, count);
    push(line, b"\n");
}

fn closing_text(closing: Closing) -> &'static [u8]
    ensures { result.now ≡ closing_name closing }
{
    match closing {
        Closing::Etb => b"ETB",
        Closing::Etx => b"ETX",
    }
}

/// The bytes in hexadecimal, or a hyphen for no bytes.
fn push_hex(line: &mut PrintedLine, bytes: &[u8])
    requires room { length line.old.items + 2 * length bytes.now + 1 ≤ MAX_LINE }
    requires few { length bytes.now ≤ MAX_TEXT }
    ensures hex { line.new.items ≡ line.old.items ++ hex_or_hyphen bytes.now }
    ensures digits { length line.new.items ≤ length line.old.items + 2 * length bytes.now + 1 }
{
    if bytes.is_empty() {
        push(line, b"-");
    } else {
        push_digits(line, bytes);
    }
}

fn push_digits(line: &mut PrintedLine, bytes: &[u8])
    requires room { length line.old.items + 2 * length bytes.now ≤ MAX_LINE }
    requires few { length bytes.now ≤ MAX_TEXT }
    ensures hex { line.new.items ≡ line.old.items ++ hex bytes.now }
    ensures digits { length line.new.items ≡ length line.old.items + 2 * length bytes.now }
{
    // Made in a local, many at a time, and put into the line at once.
    let mut digits = [0; 2 * MAX_TEXT];
    for (place, byte) in bytes.iter().enumerate() {
        digits[2 * place] = digit(byte / 16);
        digits[2 * place + 1] = digit(byte % 16);
    }
    push(line, &digits[..2 * bytes.len()]);
}

fn digit(value: u8) -> u8
    requires { value < 16 }
    ensures { result ≡ hex_digit value }
{
    if value < 10 {
        b'0' + value
    } else {
        b'A' - 10 + value
    }
}
