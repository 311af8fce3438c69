//! Known checks, and the table worked out once more.
use bsc_check::{Check, one_remainder};

/// The register after eight shifts.
fn eight_shifts(register: u16) -> u16 {
    let mut register = register;
    for _ in 0..8u8 {
        let low = register & 1;
        register >>= 1;
        if low == 1 {
            register ^= 0xA001;
        }
    }
    register
}

#[test]
fn known_bytes_have_known_checks(rt: HostRuntime) {
    let cases: [(&[u8], [u8; 2]); 6] = [
        (b"123456789", [0x3D, 0xBB]),
        (&[], [0x00, 0x00]),
        (&[0x03], [0x40, 0x01]),
        (&[0x26], [0x81, 0xDA]),
        (&[0xC1, 0x1E, 0x03], [0x18, 0x5D]),
        (&[0x10, 0x03], [0x4D, 0xC1]),
    ];
    for (bytes, want) in &cases {
        let mut whole = Check::new();
        whole.add_all(bytes);
        assert!(rt; whole.bytes() == *want);
        let mut each = Check::new();
        for byte in *bytes {
            each.add(*byte);
        }
        assert!(rt; each.bytes() == *want);
    }
    one_remainder();
}

#[test]
fn many_bytes_have_the_check_of_one_after_another(rt: HostRuntime) {
    let mut bytes = [0u8; 40];
    for (place, byte) in bytes.iter_mut().enumerate() {
        *byte = (place * 37 % 256) as u8 ^ 0xA5;
    }
    for length in 0..=40usize {
        let mut register = 0u16;
        for byte in &bytes[..length] {
            register = eight_shifts(register ^ u16::from(*byte));
        }
        let mut check = Check::new();
        check.add_all(&bytes[..length]);
        assert!(rt; check.bytes() == register.to_le_bytes());
    }
}

#[test]
fn the_table_is_eight_shifts(rt: HostRuntime) {
    let mut check = Check::new();
    let mut register = 0u16;
    for high in 0..=255u8 {
        for low in 0..=255u8 {
            check.add(low ^ high);
            register = eight_shifts(register ^ u16::from(low ^ high));
            assert!(rt; check.bytes() == register.to_le_bytes());
        }
        let mut one = Check::new();
        one.add(high);
        assert!(rt; one.bytes() == eight_shifts(u16::from(high)).to_le_bytes());
    }
}
