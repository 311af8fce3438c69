//! Worked forms of an adapter, in every cutting.
use arrayvec::ArrayVec;
use bsc_adapter::{
    FromAdapter, every_hearing, for_adapter, form_is_made, nothing_is_idle, one_hearing,
    one_making, said_comes_back, said_is_form, same_is_heard,
};
use bsc_codes::{Block, Closing};
use bsc_frame::{Frame, write_frame};

/// A block of this text.
fn block(text: &[u8], closing: Closing, transparent: bool) -> Frame {
    let mut kept = ArrayVec::new();
    let _ = kept.try_extend_from_slice(text);
    Frame::Block(Block {
        text: kept,
        closing,
        transparent,
    })
}

/// Frames, and what is said of each.
fn said() -> [(Frame, &'static [u8]); 14] {
    [
        (Frame::Enq, &[0x2D]),
        (Frame::Ack0, &[0x10, 0x70]),
        (Frame::Ack1, &[0x10, 0x61]),
        (Frame::Nak, &[0x3D]),
        (Frame::Wack, &[0x10, 0x6B]),
        (Frame::Rvi, &[0x10, 0x7C]),
        (Frame::Ttd, &[0x02, 0x2D]),
        (Frame::Eot, &[0x37]),
        (block(&[], Closing::Etx, false), &[0x02, 0x03]),
        (block(&[], Closing::Etb, false), &[0x02, 0x26]),
        (block(&[0xC1], Closing::Etx, false), &[0x02, 0xC1, 0x03]),
        (block(&[], Closing::Etx, true), &[0x10, 0x02, 0x10, 0x03]),
        (
            block(&[0x2D], Closing::Etb, true),
            &[0x10, 0x02, 0x2D, 0x10, 0x26],
        ),
        (
            block(&[0x10], Closing::Etx, true),
            &[0x10, 0x02, 0x10, 0x10, 0x10, 0x03],
        ),
    ]
}

/// What comes from an adapter, and what is made of it.
fn made() -> [(&'static [u8], &'static [u8]); 16] {
    [
        (&[0x2D], &[0x32, 0x32, 0x2D]),
        (&[0x10, 0x70], &[0x32, 0x32, 0x10, 0x70]),
        (&[0x37], &[0x32, 0x32, 0x37]),
        (&[0x10, 0x37], &[0x32, 0x32, 0x10, 0x37]),
        // Pads and SYN in front are dropped, also behind what came.
        (&[0xFF, 0x55, 0x32], &[]),
        (&[0x32, 0xFF, 0x32, 0x3D, 0xFF], &[0x32, 0x32, 0x3D]),
        // TTD and aborts have no check.
        (&[0x02, 0x2D], &[0x32, 0x32, 0x02, 0x2D]),
        (&[0x02, 0x32, 0x2D], &[0x32, 0x32, 0x02, 0x32, 0x2D]),
        (&[0x02, 0xC1, 0x2D], &[0x32, 0x32, 0x02, 0xC1, 0x2D]),
        (
            &[0x10, 0x02, 0x03, 0x10, 0x2D],
            &[0x32, 0x32, 0x10, 0x02, 0x03, 0x10, 0x2D],
        ),
        // Blocks; the check doesn't cover fill.
        (
            &[0x02, 0x26, 0x10, 0x61],
            &[0x32, 0x32, 0x02, 0x26, 0x81, 0xDA, 0x32, 0x32, 0x10, 0x61],
        ),
        (
            &[0x02, 0xC1, 0x1E, 0x03],
            &[0x32, 0x32, 0x02, 0xC1, 0x1E, 0x03, 0x18, 0x5D],
        ),
        (
            &[0x02, 0x32, 0xC1, 0x32, 0x1E, 0x32, 0x03],
            &[
                0x32, 0x32, 0x02, 0x32, 0xC1, 0x32, 0x1E, 0x32, 0x03, 0x18, 0x5D,
            ],
        ),
        // In transparent text DLE and SYN are fill, SYN alone is data, and of two DLE the check covers one.
        (
            &[0x10, 0x02, 0x10, 0x32, 0x10, 0x03],
            &[0x32, 0x32, 0x10, 0x02, 0x10, 0x32, 0x10, 0x03, 0x40, 0x01],
        ),
        (
            &[0x10, 0x02, 0x32, 0x10, 0x03],
            &[0x32, 0x32, 0x10, 0x02, 0x32, 0x10, 0x03, 0x55, 0x61],
        ),
        (
            &[0x10, 0x02, 0x10, 0x10, 0x10, 0x03],
            &[0x32, 0x32, 0x10, 0x02, 0x10, 0x10, 0x10, 0x03, 0x4D, 0xC1],
        ),
    ]
}

#[test]
fn frames_are_said(rt: HostRuntime) {
    for (frame, bytes) in &said() {
        let mut written = ArrayVec::new();
        assert!(rt; write_frame(frame, &mut written) == Ok(()));
        assert!(rt; for_adapter(&written) == *bytes);
    }
    said_is_form();
}

#[test]
fn what_comes_is_made_into_transmissions_in_every_cutting(rt: HostRuntime) {
    for (bytes, transmissions) in &made() {
        for cut in 0..bytes.len() {
            let mut out: ArrayVec<u8, 16> = ArrayVec::new();
            let mut adapter = FromAdapter::new();
            assert!(rt; adapter.take_piece(&bytes[..cut], &mut out) == cut);
            assert!(rt; adapter.take_piece(&bytes[cut..], &mut out) == bytes.len() - cut);
            assert!(rt; out.as_slice() == *transmissions);
        }
    }
    form_is_made();
    same_is_heard();
    one_making();
    nothing_is_idle();
}

#[test]
fn bytes_are_left_without_room(rt: HostRuntime) {
    let mut out: ArrayVec<u8, 8> = ArrayVec::new();
    let mut adapter = FromAdapter::new();
    assert!(rt; adapter.take_piece(&[0x2D, 0xFF, 0x3D, 0x37], &mut out) == 3);
    assert!(rt; out.as_slice() == [0x32, 0x32, 0x2D, 0x32, 0x32, 0x3D].as_slice());
    assert!(rt; adapter.take_piece(&[0x37], &mut out) == 0);
    assert!(rt; adapter.take(0x37).as_slice() == [0x32, 0x32, 0x37].as_slice());
}

#[test]
fn a_text_is_forgotten_after_reset(rt: HostRuntime) {
    let mut out: ArrayVec<u8, 16> = ArrayVec::new();
    let mut adapter = FromAdapter::new();
    assert!(rt; adapter.take_piece(&[0x02, 0xC1], &mut out) == 2);
    adapter.reset();
    out.clear();
    assert!(rt; adapter.take_piece(&[0x02, 0x03], &mut out) == 2);
    assert!(rt; out.as_slice() == [0x32, 0x32, 0x02, 0x03, 0x40, 0x01].as_slice());
    one_hearing();
    every_hearing();
}
