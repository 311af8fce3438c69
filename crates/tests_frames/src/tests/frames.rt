//! Worked transmissions, cuttings, refusals and damage.
use arrayvec::{ArrayString, ArrayVec};
use bsc_check::Check;
use bsc_codes::{Block, Closing, MAX_TEXT};
use bsc_frame::{
    Fed, FedKind, Frame, FrameFault, FrameKind, Heard, Listener, every_hearing, one_hearing,
    one_transmission, write_frame, written_is_transmission,
};
use std::fmt::Write;

/// A block of this text.
fn block(text: &[u8], closing: Closing, transparent: bool) -> Frame {
    let mut kept = ArrayVec::new();
    let _ = kept.try_extend_from_slice(text);
    Frame::Block(Block {
        text: kept,
        closing,
        transparent,
    })
}

fn normal(text: &[u8]) -> Frame {
    block(text, Closing::Etx, false)
}

fn transparent(text: &[u8]) -> Frame {
    block(text, Closing::Etx, true)
}

/// Frames, and how each is written.
fn written() -> [(Frame, &'static [u8]); 15] {
    [
        (Frame::Enq, &[0x32, 0x32, 0x2D, 0xFF]),
        (Frame::Ack0, &[0x32, 0x32, 0x10, 0x70, 0xFF]),
        (Frame::Ack1, &[0x32, 0x32, 0x10, 0x61, 0xFF]),
        (Frame::Nak, &[0x32, 0x32, 0x3D, 0xFF]),
        (Frame::Wack, &[0x32, 0x32, 0x10, 0x6B, 0xFF]),
        (Frame::Rvi, &[0x32, 0x32, 0x10, 0x7C, 0xFF]),
        (Frame::Ttd, &[0x32, 0x32, 0x02, 0x2D, 0xFF]),
        (Frame::Eot, &[0x32, 0x32, 0x37, 0xFF]),
        (normal(&[]), &[0x32, 0x32, 0x02, 0x03, 0x40, 0x01, 0xFF]),
        (
            block(&[], Closing::Etb, false),
            &[0x32, 0x32, 0x02, 0x26, 0x81, 0xDA, 0xFF],
        ),
        (
            transparent(&[]),
            &[0x32, 0x32, 0x10, 0x02, 0x10, 0x03, 0x40, 0x01, 0xFF],
        ),
        (
            normal(&[0xC1, 0x1E]),
            &[0x32, 0x32, 0x02, 0xC1, 0x1E, 0x03, 0x18, 0x5D, 0xFF],
        ),
        (
            transparent(&[0x10]),
            &[
                0x32, 0x32, 0x10, 0x02, 0x10, 0x10, 0x10, 0x03, 0x4D, 0xC1, 0xFF,
            ],
        ),
        (
            normal(&[0xF8]),
            &[0x32, 0x32, 0x02, 0xF8, 0x03, 0x03, 0xC1, 0xFF],
        ),
        (
            normal(&[0xB8]),
            &[0x32, 0x32, 0x02, 0xB8, 0x03, 0x32, 0x01, 0xFF],
        ),
    ]
}

/// Transmissions that are heard, and never written so.
fn only_heard() -> [(Frame, &'static [u8]); 10] {
    [
        (Frame::Ttd, &[0x32, 0x32, 0x02, 0x32, 0x32, 0x2D]),
        (Frame::Abort, &[0x32, 0x32, 0x02, 0xC1, 0x2D]),
        (
            Frame::Abort,
            &[0x32, 0x32, 0x02, 0x32, 0xC1, 0x32, 0xC2, 0x2D],
        ),
        (Frame::Abort, &[0x32, 0x32, 0x10, 0x02, 0x10, 0x2D]),
        (
            Frame::Abort,
            &[0x32, 0x32, 0x10, 0x02, 0x2D, 0x10, 0x32, 0x10, 0x2D],
        ),
        (Frame::Eot, &[0x32, 0x32, 0x10, 0x37]),
        (Frame::Nak, &[0xFF, 0x55, 0x55, 0x32, 0x32, 0x32, 0x3D]),
        (
            normal(&[0xC1, 0x1E]),
            &[
                0x32, 0x32, 0x32, 0x32, 0x32, 0x02, 0xC1, 0x32, 0x1E, 0x03, 0x18, 0x5D,
            ],
        ),
        (
            transparent(&[]),
            &[0x32, 0x32, 0x10, 0x02, 0x10, 0x32, 0x10, 0x03, 0x40, 0x01],
        ),
        (
            transparent(&[0x10]),
            &[
                0x32, 0x32, 0x10, 0x02, 0x10, 0x32, 0x10, 0x10, 0x10, 0x32, 0x10, 0x03, 0x4D, 0xC1,
            ],
        ),
    ]
}

/// Whether the frame is heard at the last of these bytes, in each cutting into two pieces.
fn is_heard_at_last(frame: &Frame, bytes: &[u8]) -> bool {
    for cut in 0..bytes.len() {
        let mut listener = Listener::new();
        let Fed { used, frame: none } = listener.feed(&bytes[..cut]);
        let Fed {
            used: more,
            frame: heard,
        } = listener.feed(&bytes[cut..]);
        let whole = none.is_none() && used == cut && more == bytes.len() - cut;
        if !whole || heard.as_ref() != Some(frame) || listener.quiet() != Heard::Quiet {
            return false;
        }
    }
    true
}

/// Whether none of these bytes is a frame's last, fed one at a time.
fn makes_no_frame(listener: &mut Listener, bytes: &[u8]) -> bool {
    for byte in bytes {
        let Fed { used, frame } = listener.feed(&[*byte]);
        if used != 1 || frame.is_some() {
            return false;
        }
    }
    true
}

/// The same of these pieces, one after another.
fn make_no_frame(listener: &mut Listener, pieces: &[&[u8]]) -> bool {
    for bytes in pieces {
        if !makes_no_frame(listener, bytes) {
            return false;
        }
    }
    true
}

/// Whether the frame is heard at the last of these bytes.
fn is_heard(listener: &mut Listener, bytes: &[u8], frame: &Frame) -> bool {
    let Fed { used, frame: heard } = listener.feed(bytes);
    used == bytes.len() && heard.as_ref() == Some(frame)
}

#[test]
fn frames_are_written(rt: HostRuntime) {
    for (frame, bytes) in &written() {
        let mut out = ArrayVec::new();
        out.push(0x07);
        assert!(rt; write_frame(frame, &mut out) == Ok(()));
        assert!(rt; out.as_slice() == *bytes);
    }
    written_is_transmission();
}

#[test]
fn refused_frames_leave_the_buffer(rt: HostRuntime) {
    let mut out = ArrayVec::new();
    out.push(0x07);
    let refused = write_frame(&normal(&[0xC1, 0x2D]), &mut out);
    assert!(rt; refused == Err(FrameFault::TextByte(1)));
    assert!(rt; out.as_slice() == [0x07].as_slice());
    assert!(rt; write_frame(&Frame::Abort, &mut out) == Err(FrameFault::NotSent));
    assert!(rt; out.as_slice() == [0x07].as_slice());
    for control in [0x01, 0x02, 0x03, 0x10, 0x1F, 0x26, 0x2D, 0x32, 0x37, 0x3D] {
        let refused = write_frame(&normal(&[control]), &mut out);
        assert!(rt; refused == Err(FrameFault::TextByte(0)));
        assert!(rt; write_frame(&transparent(&[control]), &mut out) == Ok(()));
    }
}

#[test]
fn faults_are_printed(rt: HostRuntime) {
    let mut text: ArrayString<32> = ArrayString::new();
    let _ = write!(text, "{}", FrameFault::TextByte(1));
    assert!(rt; text.as_str() == "no text byte at 1");
    let mut text: ArrayString<32> = ArrayString::new();
    let _ = write!(text, "{}", FrameFault::NotSent);
    assert!(rt; text.as_str() == "an abort is never sent");
}

#[test]
fn written_frames_are_heard_in_every_cutting(rt: HostRuntime) {
    for (frame, bytes) in &written() {
        if let [all @ .., 0xFF] = bytes {
            assert!(rt; is_heard_at_last(frame, all));
        }
        // The pad after a transmission isn't used.
        let mut listener = Listener::new();
        let Fed { used, frame: heard } = listener.feed(bytes);
        assert!(rt; used < bytes.len() && used + 1 == bytes.len());
        assert!(rt; heard.as_ref() == Some(frame));
    }
}

#[test]
fn fill_aborts_and_long_eot_are_heard_in_every_cutting(rt: HostRuntime) {
    for (frame, bytes) in &only_heard() {
        assert!(rt; is_heard_at_last(frame, bytes));
    }
    one_transmission();
}

#[test]
fn a_blocks_text_takes_the_place_of_what_its_room_held(rt: HostRuntime) {
    let mut listener = Listener::new();
    let mut room: ArrayVec<u8, MAX_TEXT> = ArrayVec::new();
    room.push(0x07);
    let FedKind { used, kind } = listener.feed_into(&[0x32, 0x32, 0x10, 0x70, 0xFF], &mut room);
    assert!(rt; used == 4 && kind == Some(FrameKind::Ack0));
    let front = [0x32, 0x32, 0x02, 0xC1, 0x32, 0x1E, 0x03, 0x18];
    let FedKind { used, kind } = listener.feed_into(&front, &mut room);
    assert!(rt; used == 8 && kind.is_none());
    assert!(rt; room.as_slice() == [0x07].as_slice());
    let FedKind { used, kind } = listener.feed_into(&[0x5D, 0xFF], &mut room);
    assert!(rt; used == 1 && kind == Some(FrameKind::Block(false, Closing::Etx)));
    assert!(rt; room.as_slice() == [0xC1, 0x1E].as_slice());
}

#[test]
fn no_frame_comes_before_the_last_byte(rt: HostRuntime) {
    for (_, bytes) in &written() {
        if let [front @ .., _, 0xFF] = bytes {
            assert!(rt; makes_no_frame(&mut Listener::new(), front));
        }
    }
    for (_, bytes) in &only_heard() {
        if let [front @ .., _] = bytes {
            assert!(rt; makes_no_frame(&mut Listener::new(), front));
        }
    }
}

#[test]
fn a_block_comes_one_byte_at_a_time(rt: HostRuntime) {
    let front = [
        0x32, 0x32, 0x32, 0x32, 0x32, 0x02, 0xC1, 0x32, 0x1E, 0x03, 0x18,
    ];
    let mut listener = Listener::new();
    assert!(rt; makes_no_frame(&mut listener, &front));
    assert!(rt; is_heard(&mut listener, &[0x5D], &normal(&[0xC1, 0x1E])));
    // With another last byte there is no frame.
    assert!(rt; make_no_frame(&mut listener, &[&front, &[0x5C]]));
    assert!(rt; listener.quiet() == Heard::Bad);
}

/// Bytes that are no frame, and what is heard of them.
fn no_frames() -> [(&'static [u8], Heard); 16] {
    [
        (&[], Heard::Quiet),
        (&[0xFF, 0x55, 0x32], Heard::Quiet),
        (&[0x32, 0x32, 0x55], Heard::Quiet),
        (&[0x32, 0x2D], Heard::Noise),
        (&[0x2D], Heard::Noise),
        (&[0x32, 0xFF, 0x32, 0x32, 0x2D], Heard::Noise),
        (&[0x32, 0x32, 0xFF, 0x2D], Heard::Noise),
        (&[0x32, 0x32, 0x10], Heard::Noise),
        (&[0x32, 0x32, 0x10, 0x32], Heard::Noise),
        (&[0x32, 0x32, 0x02], Heard::Bad),
        (&[0x32, 0x32, 0x10, 0x02], Heard::Bad),
        (&[0x32, 0x32, 0x10, 0x02, 0x10, 0xC1], Heard::Bad),
        (&[0x32, 0x32, 0x02, 0x01], Heard::Bad),
        (
            &[0x32, 0x32, 0x02, 0xC1, 0x1E, 0x03, 0x18, 0x5C],
            Heard::Bad,
        ),
        // The check doesn't cover fill, and its own bytes are never fill.
        (
            &[0x32, 0x32, 0x02, 0xC1, 0x1E, 0x03, 0x32, 0x18, 0x5D],
            Heard::Bad,
        ),
        (&[0x32, 0x32, 0x02, 0x01, 0x32, 0x32, 0x2D], Heard::Bad),
    ]
}

#[test]
fn damage_and_silence_are_told_apart(rt: HostRuntime) {
    let mut listener = Listener::new();
    for (bytes, heard) in &no_frames() {
        assert!(rt; makes_no_frame(&mut listener, bytes));
        assert!(rt; listener.quiet() == *heard);
        assert!(rt; listener.quiet() == Heard::Quiet);
    }
    one_hearing();
    every_hearing();
}

#[test]
fn syns_alone_are_silence(rt: HostRuntime) {
    let mut listener = Listener::new();
    let Fed { used, frame } = listener.feed(&[0x32; 8192]);
    assert!(rt; used == 8192 && frame.is_none());
    assert!(rt; listener.quiet() == Heard::Quiet);
}

#[test]
fn a_listener_is_as_new_after_reset(rt: HostRuntime) {
    let mut listener = Listener::new();
    assert!(rt; makes_no_frame(&mut listener, &[0x32, 0x32, 0x02, 0xC1]));
    listener.reset();
    let Fed { used, frame } = listener.feed(&[0x32, 0x32, 0x02, 0x03, 0x40, 0x01, 0x32, 0x32]);
    assert!(rt; used == 6 && frame == Some(normal(&[])));
    assert!(rt; is_heard(&mut listener, &[0x32, 0x32, 0x37], &Frame::Eot));
}

/// The check of a text and ETX.
fn check_of(text: &[u8]) -> [u8; 2] {
    let mut check = Check::new();
    check.add_all(text);
    check.add(0x03);
    check.bytes()
}

#[test]
fn a_text_holds_512_bytes(rt: HostRuntime) {
    let mut listener = Listener::new();
    let [first, second] = check_of(&[0xC1; 512]);
    let front: [&[u8]; 3] = [&[0x32, 0x32, 0x02], &[0xC1; 512], &[0x03, first]];
    assert!(rt; make_no_frame(&mut listener, &front));
    assert!(rt; is_heard(&mut listener, &[second], &normal(&[0xC1; 512])));

    let [first, second] = check_of(&[0xC1; 513]);
    for end in [[first, second], [0x00, 0x00], [0x03, 0x03], [0x32, 0x32]] {
        let pieces: [&[u8]; 4] = [&[0x32, 0x32, 0x02], &[0xC1; 513], &[0x03], &end];
        assert!(rt; make_no_frame(&mut listener, &pieces));
        assert!(rt; listener.quiet() == Heard::Bad);
    }
}

/// Whether this block of 512 DLE is heard of a transmission with a fill after each pair.
fn is_heard_with_fill(block: &Frame) -> bool {
    let [first, second] = check_of(&[0x10; 512]);
    let mut listener = Listener::new();
    let mut is_open = makes_no_frame(&mut listener, &[0x32, 0x32, 0x10, 0x02]);
    for _ in 0..512u16 {
        is_open = is_open && makes_no_frame(&mut listener, &[0x10, 0x10, 0x10, 0x32]);
    }
    is_open
        && makes_no_frame(&mut listener, &[0x10, 0x03, first])
        && is_heard(&mut listener, &[second], block)
}

#[test]
fn doubled_dles_fill_the_buffer(rt: HostRuntime) {
    let largest = transparent(&[0x10; 512]);
    let mut out = ArrayVec::new();
    assert!(rt; write_frame(&largest, &mut out) == Ok(()));
    assert!(rt; out.len() == 1033);
    let Fed { used, frame } = Listener::new().feed(out.as_slice());
    assert!(rt; used == 1032 && frame.as_ref() == Some(&largest));
    assert!(rt; is_heard_with_fill(&largest));
}
