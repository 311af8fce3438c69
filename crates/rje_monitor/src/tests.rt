//! What no clause says: whole texts, worked by hand from the rules, and the texts of the faults.
use crate::words::push_fault;
use crate::{HexFault, one_reason, stream_text, turns_text};
use rje_text::TextFault;
use std::alloc::{AllocError, Global};

/// A bid and blocks with their answers, an EOT, and bytes that are left after it.
const CAPTURE: [u8; 56] = [
    0xFF, 0x55, 0x32, 0x32, 0x2D, 0xFF, 0x32, 0x32, 0x10, 0x70, 0xFF, 0x32, 0x32, 0x02, 0xC1, 0x1E,
    0x03, 0x18, 0x5D, 0xFF, 0x32, 0x32, 0x10, 0x61, 0xFF, 0x32, 0x32, 0x10, 0x02, 0x10, 0x10, 0x10,
    0x03, 0x4D, 0xC1, 0xFF, 0x32, 0x32, 0x3D, 0xFF, 0x32, 0x32, 0x02, 0x03, 0x40, 0x01, 0xFF, 0x32,
    0x32, 0x37, 0xFF, 0x55, 0xFF, 0x32, 0x2D, 0xA0,
];

const CAPTURED: &[u8] = b"2 enq
6 ack0
11 block ETX normal 2 unset 1 records |A|
20 ack1
25 block ETX transparent 1 unread transparent text that is no cards of 80 bytes
36 nak
40 block ETX normal 0 unset 0 records
47 eot
53 noise 322DA0
";

#[test]
fn a_stream_has_its_text(rt: HostRuntime) {
    let text = stream_text(rt.alloc(), &CAPTURE);
    assert!(rt; matches!(&text, Ok(text) if text.as_slice() == CAPTURED));
}

#[test]
fn a_stream_without_frames_has_one_line_or_none(rt: HostRuntime) {
    let nothing = stream_text(rt.alloc(), &[]);
    assert!(rt; matches!(&nothing, Ok(text) if text.is_empty()));
    let pads = stream_text(rt.alloc(), &[0xFF, 0x55, 0x32]);
    assert!(rt; matches!(&pads, Ok(text) if text.is_empty()));
    let noise = stream_text(rt.alloc(), &[0xFF, 0x00, 0xFF]);
    assert!(rt; matches!(&noise, Ok(text) if text.as_slice() == b"1 noise 00FF\n".as_slice()));
}

/// A job of two blocks with an action and blanks, a text that doesn't read, a turn in which nothing came, a text that is cut, and noise.
const LINES: &[u8] = b"32 32 02 11 27 61 C1 1D 43 00 1E 26 92 45
3232 02111E03  19A4 ff FF 01
32 32 02 1E 1D 03 29 57\r

32 32 02 c1
ff55A0";

const TURNED: &[u8] = b"1 block ETB normal 8 printer 1 records /|A   ?|
2 block ETX normal 2 1 records |?| +2
3 block ETX normal 2 unread no count of blanks at 2
4 quiet
5 bad cut
6 noise A0
";

#[test]
fn turns_have_their_text(rt: HostRuntime) {
    let text = turns_text(rt.alloc(), LINES);
    assert!(rt; matches!(&text, Ok(text) if text.as_slice() == TURNED));
    let nothing = turns_text(rt.alloc(), b"");
    assert!(rt; matches!(&nothing, Ok(text) if text.is_empty()));
}

/// A job of each mode, with a block of the other one among its own, which a receiver refuses.
const MIXED_LINES: &[u8] = b"32 32 10 02 10 26 81 DA FF
32 32 02 C1 1E 03 18 5D FF
32 32 10 02 10 03 40 01 FF
32 32 02 C1 1E 26 D9 86 FF
32 32 10 02 10 26 81 DA FF
32 32 02 1E 03 49 A1 FF";

const MIXED: &[u8] = b"1 block ETB transparent 0 punch 0 records
2 block ETX normal 2 unread another mode than the job's earlier blocks
3 block ETX transparent 0 0 records
4 block ETB normal 2 unset 1 records |A|
5 block ETB transparent 0 unread another mode than the job's earlier blocks
6 block ETX normal 1 1 records ||
";

#[test]
fn a_block_that_is_not_read_is_none_of_its_job(rt: HostRuntime) {
    let text = turns_text(rt.alloc(), MIXED_LINES);
    assert!(rt; matches!(&text, Ok(text) if text.as_slice() == MIXED));
}

/// Texts that are no transmission: cut off in the data, behind a DLE, in the check; a wrong check, also where bytes follow it; spoiled ones,
/// one by the first byte of a check; and a block that is whole.
const BAD_LINES: &[u8] = b"32 32 02
32 32 10 02 C1 10
32 32 02 C1 1E 03
32 32 02 C1 1E 03 18
32 32 02 C1 1E 03 18 5C
32 32 02 C1 1E 03 5D 18 FF
32 32 02 C1 1E 03 19
FF 32 32 02 C1 01 2D
32 32 10 02 10 C1 10 2D
32 32 02 C1 1E 03 18 5D FF";

const BAD: &[u8] = b"1 bad cut
2 bad cut
3 bad cut
4 bad cut
5 bad check
6 bad check
7 bad spoiled
8 bad spoiled
9 bad spoiled
10 block ETX normal 2 unset 1 records |A|
";

#[test]
fn bad_texts_have_their_reason(rt: HostRuntime) {
    let text = turns_text(rt.alloc(), BAD_LINES);
    assert!(rt; matches!(&text, Ok(text) if text.as_slice() == BAD));
}

/// A text of this many data bytes, cut off.
fn long_text(alloc: Global, count: usize) -> Result<Vec<u8>, AllocError> {
    let mut bytes = Vec::new(alloc);
    bytes.extend_from_slice(&[0x32, 0x32, 0x02])?;
    for _ in 0..count {
        bytes.push(0xC1)?;
    }
    stream_text(alloc, bytes.as_slice())
}

#[test]
fn a_text_of_513_bytes_is_too_long(rt: HostRuntime) {
    let full = long_text(rt.alloc(), 512);
    assert!(rt; matches!(&full, Ok(text) if text.as_slice() == b"0 bad cut\n".as_slice()));
    let over = long_text(rt.alloc(), 513);
    assert!(rt; matches!(&over, Ok(text) if text.as_slice() == b"0 bad too long\n".as_slice()));
}

#[test]
fn laws_can_be_called() {
    one_reason();
}

/// Lines, and the number of the first that is not bytes in hexadecimal.
const REFUSED: [(&[u8], usize); 8] = [
    (b"32\n3 2\n", 2),
    (b"32 \n", 1),
    (b" 32", 1),
    (b"\n\n323", 3),
    (b"32\r", 1),
    (b"32\r\r\n", 1),
    (b"FF\nFG\nFH\n", 2),
    (b"32\t32", 1),
];

#[test]
fn other_lines_are_refused(rt: HostRuntime) {
    for (lines, number) in REFUSED {
        let text = turns_text(rt.alloc(), lines);
        assert!(rt; matches!(&text, Err(HexFault::NotHex(found)) if *found == number));
    }
}

#[test]
fn faults_are_printed(rt: HostRuntime) {
    let not_hex = format!(in rt.alloc(); "{}", HexFault::NotHex(3));
    assert!(rt;
        matches!(&not_hex, Ok(text) if text.as_str() == "line 3 is not bytes in hexadecimal")
    );
    let memory = format!(in rt.alloc(); "{}", HexFault::OutOfMemory);
    assert!(rt; matches!(&memory, Ok(text) if text.as_str() == "out of memory"));
}

/// What is shown of a fault of a text is what it prints.
#[test]
fn faults_of_texts_are_shown_as_they_print(rt: HostRuntime) {
    let faults = [
        TextFault::OutOfMemory,
        TextFault::BadCount(7),
        TextFault::RecordTooLong(512),
        TextFault::CardsNot80,
        TextFault::MixedModes,
    ];
    for fault in faults {
        let mut shown = Vec::new(rt.alloc());
        let pushed = push_fault(&mut shown, fault);
        let printed = format!(in rt.alloc(); "{fault}");
        assert!(rt; pushed.is_ok());
        assert!(rt; matches!(&printed, Ok(text) if text.as_bytes() == shown.as_slice()));
    }
}
