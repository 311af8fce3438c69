//! What driving two stations over a schedule was.
use crate::Spoken;
use rje_station::{ReceivingStation, SendingStation};

/// What driving two stations over a schedule was, and the stations as the turns left them.
#[derive(Drop)]
pub struct Driven<'a> {
    /// The turns, the oldest first.
    pub turns: Vec<Spoken>,
    pub sender: SendingStation<'a>,
    pub receiver: ReceivingStation,
}
