//! What came first over a connection.
use bsc_codes::{PAD, SYN};
use std::fmt::{self, Display, Formatter, Write};

/// So many bytes are kept.
const MOST: usize = 8;

/// The byte of alternating bits that may come before a transmission, beside the pad (GA27-3004, *Synchronization*).
const LEADING_PAD: u8 = 0x55;

/// The first bytes that came over a connection, eight at most. They are shown in hexadecimal digits.
#[derive(Clone, Copy, Debug, PartialEq, Eq)]
pub struct FirstBytes {
    bytes: [u8; MOST],
    len: usize,
}

impl FirstBytes {
    /// Nothing has come.
    pub fn new() -> FirstBytes {
        FirstBytes {
            bytes: [0; MOST],
            len: 0,
        }
    }

    /// This came then.
    pub fn note(&mut self, piece: &[u8]) {
        for byte in piece {
            match self.bytes.get_mut(self.len) {
                Some(place) => *place = *byte,
                None => return,
            }
            self.len += 1;
        }
    }

    /// Whether they begin no transmission: after any pads comes another byte than SYN.
    pub fn begin_otherwise(&self) -> bool {
        for byte in self.bytes.iter().take(self.len) {
            if !is_pad(*byte) {
                return *byte != SYN;
            }
        }
        false
    }
}

/// Whether this byte is a pad that may come before a transmission.
pub(crate) fn is_pad(byte: u8) -> bool {
    byte == PAD || byte == LEADING_PAD
}

impl Display for FirstBytes {
    fn fmt<W: Write>(&self, f: &mut Formatter<W>) -> fmt::Result {
        for (at, byte) in self.bytes.iter().take(self.len).enumerate() {
            if at > 0 {
                f.write_str(" ")?;
            }
            write!(f, "{byte:02X}")?;
        }
        Ok(())
    }
}
