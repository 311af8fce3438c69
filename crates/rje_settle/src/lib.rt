//! How two stations of ours settle doubt by receipts: the digests, the receipt on its card, the
//! names in settle/, the accounts of what was sent and of what was kept, and the rules of one
//! connection. It touches no disk and no clock.
#![tactic(auto)]

mod came;
mod connection;
mod counted;
mod digest;
mod hashing;
mod job_digest;
mod job_place;
mod laws;
mod name_reading;
mod number;
mod promise;
mod promise_fault;
mod receipt;
mod receiving_account;
mod sending_account;
mod settle_name;
mod splitting;
mod verdict;

pub use came::Came;
pub use connection::Connection;
pub use digest::Digest;
pub use job_digest::JobDigest;
pub use job_place::JobPlace;
pub use laws::{cards_tell_receipts, receipts_count_what_is_kept, receipts_tell_what_came};
pub use promise::Promise;
pub use promise_fault::PromiseFault;
pub use receipt::Receipt;
pub use receiving_account::ReceivingAccount;
pub use sending_account::SendingAccount;
pub use settle_name::{MAX_NAME, SettleName};
pub use verdict::Verdict;
