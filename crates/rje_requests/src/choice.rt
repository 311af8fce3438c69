//! Which jobs of a job file a command is for.
ghost use Rattle.std.specs.Prelude.{◌≡◌};
ghost use Rattle.rje_requests.specs.Choice.{devices_chosen, is_of, takes};

use rje_text::Select;

/// The devices whose jobs a command is for.
#[derive(Clone, Copy, Debug, PartialEq, Eq)]
pub enum Devices {
    /// Every device.
    All,
    /// The printer, which is the station's default device too.
    Printer,
    /// The punch.
    Punch,
}

impl Devices {
    /// The devices that these options choose: all of them where both are given, or neither.
    pub fn chosen(printer: bool, punch: bool) -> Devices
        ensures devices { result ≡ devices_chosen printer punch }
    {
        match (printer, punch) {
            (true, false) => Devices::Printer,
            (false, true) => Devices::Punch,
            _ => Devices::All,
        }
    }

    /// Whether a job of this selection is for one of them.
    fn are_of(self, select: Select) -> bool
        ensures { result ≡ is_of self select }
    {
        match self {
            Devices::All => true,
            Devices::Printer => !matches!(select, Select::Punch),
            Devices::Punch => matches!(select, Select::Punch),
        }
    }
}

/// Which jobs of a job file a command is for.
#[derive(Clone, Copy, Debug, PartialEq, Eq)]
pub struct Choice {
    /// The number of the one job, from 1. `None` for all of them.
    pub job: Option<u64>,
    /// The devices that the jobs are for.
    pub devices: Devices,
}

impl Choice {
    /// Whether the command is for the job of this number, from 1, and this selection.
    pub fn takes(&self, number: usize, select: Select) -> bool
        ensures taken { result ≡ takes self.now number select }
    {
        let is_it = match self.job {
            Some(job) => job == number as u64,
            None => true,
        };
        is_it && self.devices.are_of(select)
    }
}
