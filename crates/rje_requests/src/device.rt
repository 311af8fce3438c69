//! The devices that a deck's job may be for.
ghost use Rattle.std.specs.Prelude.{◌≡◌};
ghost use Rattle.rje_requests.specs.Device.{select_of, writing, chosen};

use rje_text::{Mode, Select};

/// The device that a deck's job is for.
#[derive(Clone, Copy, Debug, PartialEq, Eq)]
pub enum Device {
    /// The receiving station's own choice.
    Default,
    /// The printer.
    Printer,
    /// The punch.
    Punch,
    /// The punch, with cards of 80 bytes that are sent as they are.
    Transparent,
}

impl Device {
    /// The device that these options choose: none where there is more than one.
    pub fn chosen(printer: bool, punch: bool, transparent: bool) -> Option<Device>
        ensures device { result ≡ chosen printer punch transparent }
    {
        match (printer, punch, transparent) {
            (false, false, false) => Some(Device::Default),
            (true, false, false) => Some(Device::Printer),
            (false, true, false) => Some(Device::Punch),
            (false, false, true) => Some(Device::Transparent),
            _ => None,
        }
    }

    /// The selection of the job.
    pub fn select(self) -> Select
        ensures selection { result ≡ select_of self }
    {
        match self {
            Device::Default => Select::Unset,
            Device::Printer => Select::Printer,
            Device::Punch | Device::Transparent => Select::Punch,
        }
    }

    /// How the texts of the job are written.
    pub fn mode(self) -> Mode
        ensures writing { result ≡ writing self }
    {
        match self {
            Device::Default | Device::Printer | Device::Punch => Mode::Normal,
            Device::Transparent => Mode::Transparent,
        }
    }
}
