//! The pads in front of a transmission.
ghost use Rattle.std.specs.Prelude.{◌≡◌, ◌≤◌, length};
ghost use Rattle.rje_monitor.specs.Hearing.{is_pad as is_pad_of, pads_before as pads_of};

use bsc_codes::PAD;

/// The pad that may come before a transmission, as FF may.
const LEADING_PAD: u8 = 0x55;

pub(crate) fn is_pad(byte: u8) -> bool
    ensures { result ≡ is_pad_of byte }
{
    byte == PAD || byte == LEADING_PAD
}

/// How many pads come before these bytes.
pub(crate) fn pads_before(bytes: &[u8]) -> usize
    ensures pads { result ≡ pads_of bytes.now }
    ensures within { result ≤ length bytes.now }
{
    bytes.iter().take_while(|byte| is_pad(**byte)).count()
}
