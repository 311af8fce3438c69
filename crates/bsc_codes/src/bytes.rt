//! The bytes of the line that have a name (GA27-3004, EBCDIC).
ghost use Rattle.std.specs.Prelude.{◌↔◌, IsTrue, Contains};
ghost use Rattle.bsc_codes.specs.Bytes.{control_bytes};

/// Start of heading.
pub const SOH: u8 = 0x01;
/// Start of text.
pub const STX: u8 = 0x02;
/// End of text: the last block of a job.
pub const ETX: u8 = 0x03;
/// Data link escape.
pub const DLE: u8 = 0x10;
/// Device control 1: selects the printer.
pub const DC1: u8 = 0x11;
/// Device control 2: selects the punch.
pub const DC2: u8 = 0x12;
/// Device control 3: selects the punch too.
pub const DC3: u8 = 0x13;
/// Interchange group separator: a count of blanks follows.
pub const IGS: u8 = 0x1D;
/// Interchange record separator: ends a record.
pub const IRS: u8 = 0x1E;
/// End of an intermediate block.
pub const ITB: u8 = 0x1F;
/// End of transmission block: more blocks of the job follow.
pub const ETB: u8 = 0x26;
/// Escape: a carriage control follows.
pub const ESC: u8 = 0x27;
/// Enquiry.
pub const ENQ: u8 = 0x2D;
/// Synchronous idle.
pub const SYN: u8 = 0x32;
/// End of transmission.
pub const EOT: u8 = 0x37;
/// Negative acknowledgement.
pub const NAK: u8 = 0x3D;
/// The blank of EBCDIC.
pub const BLANK: u8 = 0x40;
/// The pad that is written after a transmission.
pub const PAD: u8 = 0xFF;

/// The bytes that control the line, which normal text can't have.
const CONTROL: [u8; 10] = [SOH, STX, ETX, DLE, ITB, ETB, ENQ, SYN, EOT, NAK];

/// Whether normal text may have a byte: any but the ten that control the line.
pub fn is_normal_text(byte: u8) -> bool
    ensures { IsTrue result ↔ (Contains control_bytes byte → ⊥) }
{
    !is_among(&CONTROL, byte)
}

fn is_among(bytes: &[u8], byte: u8) -> bool
    ensures { IsTrue result ↔ Contains bytes.now byte }
{
    bytes.contains(&byte)
}
