//! What no clause says of the accounts of a station: what stands whichever call fails, done or not, and wherever a station is ended.
mod receiving;
mod sending;

use rje_settle::{JobDigest, Receipt, SettleName};
use std::alloc::Global;
use std::process::Abort;

/// What is kept once so many jobs of these bytes came.
fn receipt(rt: &impl Abort, count: u64, bytes: &[u8]) -> Receipt {
    let mut receipt = Receipt::of_none();
    for _ in 0..count {
        receipt = receipt.with(JobDigest::of(bytes)).expect(rt, "a count");
    }
    receipt
}

/// The path of a name in settle/.
fn path(rt: &impl Abort, alloc: Global, name: SettleName) -> String {
    let mut path = String::from_str(alloc, "s/settle/").expect(rt, "memory");
    for byte in name.text().as_slice() {
        path.push(*byte as char).expect(rt, "memory");
    }
    path
}
