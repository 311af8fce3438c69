//! What the program can be asked for: one order for each of its commands.
#![tactic(auto)]

mod callers;
mod choice;
mod connection;
mod device;
mod job_numbers;
mod mark;
mod order;
mod station;
mod status;

pub use callers::Callers;
pub use choice::{Choice, Devices};
pub use connection::{Connection, Meeting};
pub use device::Device;
pub use job_numbers::JobNumbers;
pub use mark::Mark;
pub use order::{
    CardsOrder, Destination, ExchangeOrder, Existing, FileOrder, LoopOrder, MarkOrder,
    MonitorOrder, Order, PrintOrder, ReceiveOrder, STANDARD_INPUT, SendOrder, ShowOrder,
    SocketOrder, TakeOrder, TryOrder,
};
pub use station::{Partner, StationOrder};
pub use status::StatusOrder;
