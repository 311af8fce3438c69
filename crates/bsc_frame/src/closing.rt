//! The byte that ends a block.
ghost use Rattle.std.specs.Prelude.{◌≡◌};
ghost use Rattle.bsc_frame.specs.Body.{closing_byte as byte_of};

use bsc_codes::{Closing, ETB, ETX};

/// The byte that ends a block.
pub(crate) fn closing_byte(closing: Closing) -> u8
    ensures { result ≡ byte_of closing }
{
    match closing {
        Closing::Etb => ETB,
        Closing::Etx => ETX,
    }
}
