//! Why a connection is left.
ghost use Rattle.std.specs.Prelude.{◌≡◌};
ghost use Rattle.rje_session.specs.declared.leaving.Leaving.TheVariants.{Line};

use rje_station::StationFault;

/// Why a connection is left while a transmission is in hand.
#[derive(Debug, Drop)]
pub(crate) enum Leaving<F> {
    /// The line failed or babbled, or the transmission was over before.
    Line(StationFault),
    /// The spool failed. Nothing was said after that.
    Spool(F),
    /// What came can't be held. Nothing was said after that.
    TooMuch,
}

impl<F> From<StationFault> for Leaving<F> {
    ghost from_gives = { λ fault leaving. leaving ≡ Line fault };

    fn from(fault: StationFault) -> Leaving<F> {
        Leaving::Line(fault)
    }
}
