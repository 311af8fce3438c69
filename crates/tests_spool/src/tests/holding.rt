//! What a spool holds of what comes.
use super::{Ground, TestSpool};
use bsc_link::{Rank, Wish};
use line_world::MemoryLine;
use rje_session::Spool;
use rje_station::Station;
use std::process::Abort;

/// The bid of the other end.
pub(super) const BID: &[u8] = &[0x32, 0x32, 0x2D, 0xFF];

/// A block of 510 empty records, after which its job goes on.
pub(super) fn block(rt: &(impl Abort + AllocGlobal)) -> Vec<u8> {
    let mut block = Vec::new(rt.alloc());
    assert!(rt; block.extend_from_slice(&[0x32, 0x32, 0x02]).is_ok());
    assert!(rt; block.resize(513, 0x1E).is_ok());
    assert!(rt; block.extend_from_slice(&[0x26, 0x80, 0x9A, 0xFF]).is_ok());
    block
}

/// A station that has nothing to send.
pub(super) fn new_station(rt: &(impl Abort + AllocGlobal)) -> Station<'static> {
    Station::new(rt.alloc(), Rank::Secondary, &[]).expect(rt, "memory")
}

/// A line on which this is heard.
fn line_of(rt: &(impl Abort + AllocGlobal), bytes: &[u8]) -> MemoryLine {
    let alloc = rt.alloc();
    let mut pieces = Vec::new(alloc);
    let piece = Vec::from_slice(alloc, bytes).expect(rt, "memory");
    assert!(rt; pieces.push(piece).is_ok());
    let mut line = MemoryLine::new(alloc);
    line.put(pieces);
    line
}

/// The station hears this, and replies.
pub(super) fn bring(rt: &(impl Abort + AllocGlobal), station: &mut Station<'_>, bytes: &[u8]) {
    let mut line = line_of(rt, bytes);
    assert!(rt; station.hear_other(&mut line, Wish::Go).is_ok());
    assert!(rt; station.reply(&mut line).is_ok());
}

/// The station hears this, and replies nothing.
pub(super) fn hear(rt: &(impl Abort + AllocGlobal), station: &mut Station<'_>, bytes: &[u8]) {
    let mut line = line_of(rt, bytes);
    assert!(rt; station.hear_other(&mut line, Wish::Go).is_ok());
}

/// Whether a transmission of one job of so many such blocks, which is new to the spool, is held.
fn is_held(rt: &(impl Abort + AllocGlobal), spool: &mut TestSpool<'_>, blocks: usize) -> bool {
    let mut station = new_station(rt);
    let block = block(rt);
    assert!(rt; spool.look_on(&station));
    bring(rt, &mut station, BID);
    bring(rt, &mut station, block.as_slice());
    assert!(rt; spool.look_on(&station));
    for _ in 1..blocks {
        bring(rt, &mut station, block.as_slice());
    }
    spool.look_on(&station)
}

/// 750,000 records are held of each transmission, and not of all together: 740 blocks have 377,400. That more aren't held of one is a test of the
/// built program (tests/test_line_endless.py).
#[test]
fn each_transmission_is_held_for_itself(rt: HostRuntime) {
    let ground = Ground::new(rt.alloc());
    let mut spool = ground.spool(&rt);
    assert!(rt; is_held(&rt, &mut spool, 740));
    assert!(rt; is_held(&rt, &mut spool, 740));
}
