//! Why a text that was started is no transmission.
ghost use Rattle.std.specs.Prelude.{◌≡◌, ◌≤◌, ℕ, List, [], length, slice_index};
ghost use Rattle.std.specs.List.{prefix_len};
ghost use Rattle.bsc_check.specs.Check.{check_of};
ghost use Rattle.bsc_frame.specs.Body.{covered, closing_byte as byte_of};
ghost use Rattle.bsc_frame.specs.Heard.{IsHeard};
ghost use Rattle.bsc_frame.specs.Transmission.{HasNoFrame};
ghost use Rattle.bsc_frame.specs.Inside.Listening.HeardSoFar.{Text, AwaitsCheck};
ghost use Rattle.bsc_frame.specs.declared.heard.Heard.TheVariants as heard;
ghost use Rattle.rje_monitor.specs.Reasons.{IsReason};
ghost use Rattle.rje_monitor.specs.Inside.Items.{IsAt, HasBody, is_lead};

use crate::item::{Item, first_item};
use crate::pads::is_pad;
use arrayvec::ArrayVec;
use bsc_check::Check;
use bsc_codes::{Block, Closing, ETB, ETX, MAX_TEXT, STX, SYN};

/// Why a text that was started is no transmission.
#[derive(Clone, Copy, Debug, PartialEq, Eq)]
pub enum Reason {
    /// Some bytes more would make it one.
    Cut,
    /// With two other bytes for its check a prefix would be one of a block.
    Check,
    /// It would be a text if it held no more than 512 data bytes.
    TooLong,
    /// None of these.
    Spoiled,
}

impl Reason {
    /// Why bytes that are heard as bad are no transmission.
    pub(crate) fn of(bytes: &[u8]) -> Self
        requires { IsHeard bytes.now heard.Bad }
        ensures { IsReason bytes.now result }
    {
        let (transparent, line) = line_of(bytes);
        reason_in(transparent, line)
    }
}

/// Whether the text that was started is transparent, and its line.
fn line_of(bytes: &[u8]) -> (bool, &[u8])
    requires { IsHeard bytes.now heard.Bad }
    ensures { IsAt bytes.now (Text result.0 []) result.1.now }
{
    let body = body_of(bytes);
    if let Some(line) = body.strip_prefix([STX].as_slice()) {
        return (false, line);
    }
    let (_, line) = body.split_at(2);
    (true, line)
}

/// What is behind the synchronization pattern.
fn body_of(bytes: &[u8]) -> &[u8]
    requires { IsHeard bytes.now heard.Bad }
    ensures { HasBody bytes.now result.now }
{
    let (_, body) = bytes.split_at(leads_before(bytes));
    body
}

/// How many bytes in front are pads or SYN.
fn leads_before(bytes: &[u8]) -> usize
    ensures leads { result ≡ prefix_len is_lead bytes.now }
    ensures within { result ≤ length bytes.now }
{
    bytes
        .iter()
        .take_while(|byte| is_pad(**byte) || **byte == SYN)
        .count()
}

/// Why a text with this line is no transmission.
fn reason_in(transparent: bool, line: &[u8]) -> Reason
    ensures { (bytes : List ℕ) → HasNoFrame bytes
        → IsAt bytes (Text transparent []) line.now → IsReason bytes result }
{
    let mut text: ArrayVec<u8, MAX_TEXT> = ArrayVec::new();
    let mut rest = line;
    while let Some((item, more)) = first_item(transparent, rest) {
        match item {
            Item::Fill => {}
            Item::Data(byte) => {
                if text.is_full() {
                    return Reason::TooLong;
                }
                text.push(byte);
            }
            Item::End(closing) => {
                let block = Block {
                    text,
                    closing,
                    transparent,
                };
                return reason_at_check(&block, more);
            }
            Item::Other => return Reason::Spoiled,
        }
        rest = more;
    }
    Reason::Cut
}

/// Why a block is no transmission that has these bytes in the place of its check and after it.
fn reason_at_check(block: &Block, rest: &[u8]) -> Reason
    ensures { (bytes : List ℕ) → IsAt bytes (AwaitsCheck block.now) rest.now
        → IsReason bytes result }
{
    if rest.is_empty() {
        return Reason::Cut;
    }
    if rest.len() != 1 {
        return Reason::Check;
    }
    if rest[0] == first_of_check(block) {
        Reason::Cut
    } else {
        Reason::Spoiled
    }
}

/// The first byte of a block's check.
fn first_of_check(block: &Block) -> u8
    ensures { result ≡ slice_index (check_of (covered block.now.text.items block.now.closing)) 0 }
{
    let mut check = Check::new();
    check.add_all(block.text.as_slice());
    check.add(closing_byte(block.closing));
    check.bytes()[0]
}

fn closing_byte(closing: Closing) -> u8
    ensures { result ≡ byte_of closing }
{
    match closing {
        Closing::Etb => ETB,
        Closing::Etx => ETX,
    }
}
