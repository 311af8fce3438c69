//! Why a listing isn't printed.
ghost use Rattle.std.specs.Prelude.{◌≡◌};
ghost use Rattle.rje_print.specs.declared.listing_fault.ListingFault.TheVariants.{Deck, Output};

use rje_jobs::DeckFault;
use std::io;

/// Why a listing isn't printed.
#[derive(Drop)]
pub enum ListingFault {
    /// The deck has a fault, and nothing was printed.
    Deck(DeckFault),
    /// The output failed. Some of the listing may have been printed.
    Output(io::Error),
}

impl From<DeckFault> for ListingFault {
    ghost from_gives = { λ fault told. told ≡ Deck fault };

    fn from(fault: DeckFault) -> Self {
        ListingFault::Deck(fault)
    }
}

impl From<io::Error> for ListingFault {
    ghost from_gives = { λ error told. told ≡ Output error };

    fn from(error: io::Error) -> Self {
        ListingFault::Output(error)
    }
}
