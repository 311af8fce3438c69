//! Why a receiving station broke a transmission off.
ghost use Rattle.std.specs.Prelude.{◌≡◌};
ghost use Rattle.rje_sockets.specs.Inside.BreakingOff.{of_broken_off};
ghost use Rattle.rje_sockets.specs.declared.transfer_error.TransferError.TheVariants.{Line};

use rje_commands::CommandFault;
use rje_station::StationFault;

/// Why a receiving station broke a transmission off.
#[derive(Clone, Copy, Debug)]
pub enum TransferError<'a> {
    /// The line failed.
    Line(StationFault),
    /// A job can't be kept.
    File(CommandFault<'a>),
}

impl From<StationFault> for TransferError<'_> {
    ghost from_gives = { λ fault broken. broken ≡ Line fault };

    fn from(fault: StationFault) -> Self {
        TransferError::Line(fault)
    }
}

impl<'a> From<TransferError<'a>> for CommandFault<'a> {
    ghost from_gives = { λ broken told. told ≡ of_broken_off broken };

    fn from(broken: TransferError<'a>) -> Self {
        match broken {
            TransferError::Line(fault) => CommandFault::from(fault),
            TransferError::File(fault) => fault,
        }
    }
}
