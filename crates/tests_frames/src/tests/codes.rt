//! The code page and the control bytes, against lists of their own.
use bsc_codes::{is_normal_text, to_ascii, to_ebcdic};
use std::process::Abort;

/// Letters and digits: the first and the last of a row of characters, and the code of the first.
const ROWS: [(u8, u8, u8); 7] = [
    (b'A', b'I', 0xC1),
    (b'J', b'R', 0xD1),
    (b'S', b'Z', 0xE2),
    (b'a', b'i', 0x81),
    (b'j', b'r', 0x91),
    (b's', b'z', 0xA2),
    (b'0', b'9', 0xF0),
];

/// The blank and the 32 others, and their codes.
const OTHERS: [(u8, u8); 33] = [
    (b' ', 0x40),
    (b'!', 0x5A),
    (b'"', 0x7F),
    (b'#', 0x7B),
    (b'$', 0x5B),
    (b'%', 0x6C),
    (b'&', 0x50),
    (b'\'', 0x7D),
    (b'(', 0x4D),
    (b')', 0x5D),
    (b'*', 0x5C),
    (b'+', 0x4E),
    (b',', 0x6B),
    (b'-', 0x60),
    (b'.', 0x4B),
    (b'/', 0x61),
    (b':', 0x7A),
    (b';', 0x5E),
    (b'<', 0x4C),
    (b'=', 0x7E),
    (b'>', 0x6E),
    (b'?', 0x6F),
    (b'@', 0x7C),
    (b'[', 0xBA),
    (b'\\', 0xE0),
    (b']', 0xBB),
    (b'^', 0xB0),
    (b'_', 0x6D),
    (b'`', 0x79),
    (b'{', 0xC0),
    (b'|', 0x4F),
    (b'}', 0xD0),
    (b'~', 0xA1),
];

/// The code of a character by the lists.
fn code(character: u8) -> Option<u8> {
    for (first, last, code) in ROWS {
        if first <= character && character <= last {
            return code.checked_add(character - first);
        }
    }
    for (other, code) in OTHERS {
        if other == character {
            return Some(code);
        }
    }
    None
}

/// The character of a code by the lists.
fn character(ebcdic: u8) -> Option<u8> {
    for (first, last, code) in ROWS {
        if code <= ebcdic && ebcdic - code <= last.saturating_sub(first) {
            return first.checked_add(ebcdic - code);
        }
    }
    for (other, code) in OTHERS {
        if code == ebcdic {
            return Some(other);
        }
    }
    None
}

#[test]
fn each_byte_has_its_code_or_none(rt: HostRuntime) {
    let mut printable: usize = 0;
    for byte in 0..=u8::MAX {
        assert!(rt; to_ebcdic(byte) == code(byte));
        if code(byte).is_some() {
            printable = printable.saturating_add(1);
        }
    }
    assert!(rt; printable == 95);
}

#[test]
fn each_code_has_its_character_or_none(rt: HostRuntime) {
    let mut codes: usize = 0;
    for byte in 0..=u8::MAX {
        assert!(rt; to_ascii(byte) == character(byte));
        if character(byte).is_some() {
            codes = codes.saturating_add(1);
        }
    }
    assert!(rt; codes == 95);
}

#[test]
fn ten_bytes_control_the_line(rt: HostRuntime) {
    let control = [0x01, 0x02, 0x03, 0x10, 0x1F, 0x26, 0x2D, 0x32, 0x37, 0x3D];
    for byte in 0..=u8::MAX {
        assert!(rt; is_normal_text(byte) == !control.contains(&byte));
    }
}

#[test]
fn characters_have_their_codes(rt: HostRuntime) {
    assert!(rt; to_ebcdic(b'A') == Some(0xC1));
    assert!(rt; to_ebcdic(b'~') == Some(0xA1));
    assert!(rt; to_ebcdic(b'\t').is_none());
    assert!(rt; to_ascii(0x4F) == Some(b'|'));
    assert!(rt; to_ascii(0x00).is_none());
    assert!(rt; is_normal_text(0x11));
    assert!(rt; !is_normal_text(0x1F));
}
