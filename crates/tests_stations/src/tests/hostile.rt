//! Transmissions that are cut or changed: what the line's quiet says of them, and that nothing is delivered but what was sent.
use super::failing_lines::{BLOCK, are_the_job};
use super::stations::{open_receiver, piece_of};
use bsc_frame::{Heard, Listener};
use bsc_link::{Reply, Wish};
use std::process::Abort;

/// Transmissions, without the pad after them; how many bytes of each are quiet, and from how many on it is a text that is spoiled.
const TRANSMISSIONS: [(&[u8], usize, usize); 6] = [
    (&[0x32, 0x32, 0x2D], 2, 3),
    (&[0x32, 0x32, 0x10, 0x70], 2, 4),
    (&[0x32, 0x32, 0x37], 2, 3),
    (&[0x32, 0x32, 0x02, 0x2D], 2, 3),
    (&[0x32, 0x32, 0x02, 0xC1, 0x1E, 0x03, 0x18, 0x5D], 2, 3),
    (
        &[
            0x55, 0x32, 0x32, 0x10, 0x02, 0x10, 0x10, 0x10, 0x03, 0x4D, 0xC1,
        ],
        3,
        5,
    ),
];

#[test]
fn each_cut_of_a_transmission_is_told_by_quiet(rt: HostRuntime) {
    let mut listener = Listener::new();
    for (bytes, silent, spoiled) in TRANSMISSIONS {
        for (count, _) in bytes.iter().enumerate() {
            assert!(rt; listener.feed(&bytes[..count]).frame.is_none());
            let heard = if count <= silent {
                Heard::Quiet
            } else if count < spoiled {
                Heard::Noise
            } else {
                Heard::Bad
            };
            assert!(rt; listener.quiet() == heard);
        }
        assert!(rt; listener.feed(bytes).frame.is_some());
    }
}

/// A receiver that was bid for hears these bytes: what it replies, and how many jobs it delivers. Each is the job of the record C1.
fn heard_of(rt: &(impl Abort + AllocGlobal), bytes: &[u8]) -> (Option<Reply>, usize) {
    let (mut receiver, mut line) = open_receiver(rt);
    line.put(piece_of(rt, bytes));
    let reply = receiver
        .hear(&mut line, Wish::Go)
        .expect(rt, "a line that works");
    assert!(rt; are_the_job(receiver.jobs()));
    (reply, receiver.jobs().len())
}

/// What is due for the block where its byte at this place is spoiled, or the first that didn't come: a text is begun by its third byte, and
/// whole with its eighth.
fn due(place: usize) -> (Option<Reply>, usize) {
    match place {
        0..=2 => (None, 0),
        3..=7 => (Some(Reply::Nak), 0),
        _ => (Some(Reply::Ack1), 1),
    }
}

#[test]
fn of_a_changed_or_cut_block_nothing_else_is_handed_out(rt: HostRuntime) {
    for (place, _) in BLOCK.iter().enumerate() {
        for byte in [0x00, 0xFF] {
            let mut changed = BLOCK;
            changed[place] = byte;
            assert!(rt; heard_of(&rt, &changed) == due(place));
        }
        assert!(rt; heard_of(&rt, &BLOCK[..place]) == due(place));
    }
}
