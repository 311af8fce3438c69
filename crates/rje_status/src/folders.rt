//! What lies in the folders of a station.
use crate::queued_file::QueuedFile;
use serde::Serialize;

/// What lies in the folders of a station, in each the oldest file first.
#[derive(Debug, Drop, Serialize)]
pub struct Folders {
    /// What is to be sent.
    pub out: Vec<QueuedFile>,
    /// What may have arrived.
    pub doubt: Vec<QueuedFile>,
    /// What can't be sent.
    pub refused: Vec<QueuedFile>,
    /// What came, and was cut.
    pub cut: Vec<QueuedFile>,
    /// What came, as jobs.
    #[serde(rename = "in")]
    pub came: Vec<QueuedFile>,
    /// What came, as listings.
    pub print: Vec<QueuedFile>,
    /// What came, as cards.
    pub punch: Vec<QueuedFile>,
}
