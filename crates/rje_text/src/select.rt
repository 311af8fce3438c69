//! The device that a job is for.

/// The device that a job is for.
#[derive(Clone, Copy, Debug, PartialEq, Eq)]
pub enum Select {
    /// The station's default device.
    Unset,
    Printer,
    Punch,
}
