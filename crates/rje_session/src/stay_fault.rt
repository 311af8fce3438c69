//! Why a connection is left that isn't over.

use rje_station::StationFault;

/// Why a connection is left that isn't over.
#[derive(Debug, Drop)]
pub enum StayFault<F> {
    /// There are no stations for the jobs of the spool: one of them can't be sent, or there is no memory.
    Station(StationFault),
    /// The spool failed. Nothing was said after that.
    Spool(F),
}
