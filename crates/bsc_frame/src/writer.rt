//! The writer of frames.
ghost use Rattle.std.specs.Prelude.{◌≡◌, ◌≤◌, ◌+◌, ◌*◌, ◌∷◌, [], ◌++◌, length, IfErr, OnOk, OnErr, MatchOption, true};
ghost use Rattle.std.specs.Bool.{OnFalse};
ghost use Rattle.std.specs.List.{AllByRecursion};
ghost use Rattle.std.specs.Option.{option_to_list};
ghost use Rattle.arrayvec.specs.ArrayVec.{array_vec_len};
ghost use Rattle.bsc_frame.specs.Body.{IsNormalText, start_of_text, block_end};
ghost use Rattle.bsc_frame.specs.declared.frame.Frame.TheVariants as frame;
ghost use Rattle.bsc_frame.specs.FrameFault.{IsTextRefused, Refused};
ghost use Rattle.bsc_frame.specs.Written.{Written, text_without_fill, body_without_fill};

use crate::closing::closing_byte;
use crate::frame::{ACK0, ACK1, RVI, WACK};
use crate::listener::in_front_of_dle;
use crate::normal_text::first_bad;
use crate::{Frame, FrameFault};
use arrayvec::ArrayVec;
use bsc_check::Check;
use bsc_codes::{Block, Closing, DLE, ENQ, EOT, NAK, PAD, STX, SYN};

/// The most bytes of a transmission without fill: of a transparent block of 512 bytes that are all DLE.
pub const MAX_TRANSMISSION: usize = 1033;

/// Writes one transmission of the frame, without pads in front and without fill, and one pad FF; on Ok the buffer holds just that, whatever
/// it held before. A block of normal text is refused for its first byte that normal text can't have, an Abort always; nothing else is.
pub fn write_frame(
    frame: &Frame,
    out: &mut ArrayVec<u8, MAX_TRANSMISSION>,
) -> Result<(), FrameFault>
    ensures ok { OnOk result (Written frame.now out.new.items) }
    ensures err { OnErr result (out.new.items ≡ out.old.items) }
    // A refusal is reported only where its cause holds, and always where one does.
    ensures fault { IfErr result (λ fault. Refused frame.now fault) }
    ensures refused { (fault : FrameFault) → Refused frame.now fault → result ≡ Err fault }
{
    match frame {
        Frame::Enq => write_control(out, ENQ, None),
        Frame::Ack0 => write_control(out, DLE, Some(ACK0)),
        Frame::Ack1 => write_control(out, DLE, Some(ACK1)),
        Frame::Nak => write_control(out, NAK, None),
        Frame::Wack => write_control(out, DLE, Some(WACK)),
        Frame::Rvi => write_control(out, DLE, Some(RVI)),
        Frame::Ttd => write_control(out, STX, Some(ENQ)),
        Frame::Eot => write_control(out, EOT, None),
        Frame::Abort => return Err(FrameFault::NotSent),
        Frame::Block(block) => return write_block(out, block),
    }
    Ok(())
}

/// Writes a control sequence of one or two bytes.
fn write_control(out: &mut ArrayVec<u8, MAX_TRANSMISSION>, first: u8, second: Option<u8>)
    ensures { out.new.items ≡ SYN ∷ SYN ∷ first ∷ (option_to_list second ++ PAD ∷ []) }
{
    begin(out);
    out.push(first);
    if let Some(byte) = second {
        out.push(byte);
    }
    out.push(PAD);
}

/// Writes a block, or says why not.
fn write_block(out: &mut ArrayVec<u8, MAX_TRANSMISSION>, block: &Block) -> Result<(), FrameFault>
    ensures ok { OnOk result (Written (frame.Block block.now) out.new.items) }
    ensures err { OnErr result (out.new.items ≡ out.old.items) }
    ensures fault { IfErr result (λ fault. Refused (frame.Block block.now) fault) }
    ensures refused { (fault : FrameFault) → Refused (frame.Block block.now) fault
        → result ≡ Err fault }
{
    match bad_place(block) {
        Some(place) => Err(FrameFault::TextByte(place)),
        None => {
            put_block(out, block);
            Ok(())
        }
    }
}

/// The place of the byte for which a block is refused.
fn bad_place(block: &Block) -> Option<usize>
    ensures { MatchOption result (OnFalse block.now.transparent
        (AllByRecursion IsNormalText block.now.text.items))
        (λ place. IsTextRefused block.now.transparent block.now.text.items
        (FrameFault.TextByte place)) }
{
    if block.transparent {
        None
    } else {
        first_bad(block.text.as_slice())
    }
}

/// Writes a block that isn't refused.
fn put_block(out: &mut ArrayVec<u8, MAX_TRANSMISSION>, block: &Block)
    ensures items { out.new.items ≡ SYN ∷ SYN ∷
        (body_without_fill (frame.Block block.now) ++ PAD ∷ []) }
    ensures room { array_vec_len block.now.text ≤ 512 }
{
    begin(out);
    put_start(out, block.transparent);
    put_text(out, block.transparent, block.text.as_slice());
    put_end(out, block.transparent, block.text.as_slice(), block.closing);
    out.push(PAD);
}

/// Begins a transmission.
fn begin(out: &mut ArrayVec<u8, MAX_TRANSMISSION>)
    ensures items { out.new.items ≡ SYN ∷ SYN ∷ [] }
    ensures len { array_vec_len out.new ≡ 2 }
{
    out.clear();
    out.push(SYN);
    out.push(SYN);
}

/// Appends the start of a text.
fn put_start(out: &mut ArrayVec<u8, MAX_TRANSMISSION>, transparent: bool)
    requires { array_vec_len out.old + 2 ≤ MAX_TRANSMISSION }
    ensures items { out.new.items ≡ out.old.items ++ start_of_text transparent }
    ensures len { array_vec_len out.new ≤ array_vec_len out.old + 2 }
{
    if transparent {
        out.push(DLE);
    }
    out.push(STX);
}

/// Appends a text without fill.
fn put_text(out: &mut ArrayVec<u8, MAX_TRANSMISSION>, transparent: bool, text: &[u8])
    requires { array_vec_len out.old + 2 * length text.now ≤ MAX_TRANSMISSION }
    ensures items { out.new.items ≡ out.old.items ++ text_without_fill transparent text.now }
    ensures len { array_vec_len out.new ≤ array_vec_len out.old + 2 * length text.now }
{
    if transparent {
        put_transparent(out, text);
    } else {
        append(out, text);
    }
}

/// Appends a transparent text without fill: the bytes in front of a DLE at once, and each DLE twice.
fn put_transparent(out: &mut ArrayVec<u8, MAX_TRANSMISSION>, text: &[u8])
    requires { array_vec_len out.old + 2 * length text.now ≤ MAX_TRANSMISSION }
    ensures items { out.new.items ≡ out.old.items ++ text_without_fill true text.now }
    ensures len { array_vec_len out.new ≤ array_vec_len out.old + 2 * length text.now }
{
    let mut place = 0;
    while place < text.len() {
        let (_, rest) = text.split_at(place);
        let run = in_front_of_dle(rest);
        let (data, _) = rest.split_at(run);
        append(out, data);
        place += run;
        if place < text.len() {
            append(out, &[DLE, DLE]);
            place += 1;
        }
    }
}

/// Appends bytes for which there is room.
fn append(out: &mut ArrayVec<u8, MAX_TRANSMISSION>, bytes: &[u8])
    requires { array_vec_len out.old + length bytes.now ≤ MAX_TRANSMISSION }
    ensures items { out.new.items ≡ out.old.items ++ bytes.now }
    ensures len { array_vec_len out.new ≡ array_vec_len out.old + length bytes.now }
{
    let Ok(()) = out.try_extend_from_slice(bytes) else {
        unreachable!()
    };
}

/// Appends what ends a block of this text.
fn put_end(
    out: &mut ArrayVec<u8, MAX_TRANSMISSION>,
    transparent: bool,
    text: &[u8],
    closing: Closing,
)
    requires { array_vec_len out.old + 4 ≤ MAX_TRANSMISSION }
    ensures items { out.new.items ≡ out.old.items ++ block_end transparent text.now closing }
    ensures len { array_vec_len out.new ≤ array_vec_len out.old + 4 }
{
    let mut check = Check::new();
    check.add_all(text);
    check.add(closing_byte(closing));
    let bytes = check.bytes();
    if transparent {
        out.push(DLE);
    }
    out.push(closing_byte(closing));
    out.push(bytes[0]);
    out.push(bytes[1]);
}
