//! Both stations over a line in memory: the deck on standard input goes from one to the other, with a line for each turn.
#![tactic(auto)]

ghost use Rattle.std.specs.Prelude.{◌≡◌, ◌∷◌, [], OnOk};
ghost use Rattle.line_world.specs.MemoryLine.{after_put};

use anyhow::Result;
use bsc_link::{Reply, Say, Wish};
use line_world::MemoryLine;
use rje_jobs::{Job, job_of_deck};
use rje_station::{ReceivingStation, SendingStation, StationFault};
use rje_text::{Mode, Select};
use std::alloc::{AllocError, Global};
use std::io::Read;
use std::slice;

fn main(rt: HostRuntime) -> Result<()> {
    let alloc = rt.alloc();
    let mut deck = Vec::new(alloc);
    rt.stdin().read_to_end(&mut deck)?;
    let job = job_of_deck(alloc, &deck, Select::Printer, Mode::Normal)?;
    send(&rt, slice::from_ref(&job))
}

/// The jobs go from one station to the other.
fn send(rt: &(impl Print + AllocGlobal), jobs: &[Job]) -> Result<()> {
    let mut sender = SendingStation::new(rt.alloc(), jobs)?;
    let mut receiver = ReceivingStation::new(rt.alloc())?;
    converse(rt, &mut sender, &mut receiver)?;
    println!(rt;
        "counted {}, handed out {}",
        sender.counted(),
        receiver.jobs().len()
    )?;
    Ok(())
}

/// The stations take turns, each at its end of the line, until the sender says its end.
fn converse(
    rt: &(impl Print + AllocGlobal),
    sender: &mut SendingStation<'_>,
    receiver: &mut ReceivingStation,
) -> Result<()> {
    let alloc = rt.alloc();
    let (mut near, mut far) = (MemoryLine::new(alloc), MemoryLine::new(alloc));
    for turn in 1..10_000u32 {
        let (said, reply) = say(alloc, sender, &mut near, receiver, &mut far)?;
        println!(rt; "{turn} {said:?}, answered by {reply:?}")?;
        if said == Say::End {
            break;
        }
        answer(alloc, receiver, &mut far, sender, &mut near)?;
    }
    Ok(())
}

/// What the sender says comes to the receiver, which replies to it or not.
fn say(
    alloc: Global,
    sender: &mut SendingStation<'_>,
    near: &mut MemoryLine,
    receiver: &mut ReceivingStation,
    far: &mut MemoryLine,
) -> Result<(Say, Option<Reply>), StationFault> {
    let said = sender.speak(near)?;
    carry(alloc, near, far)?;
    let reply = receiver.hear(far, Wish::Go)?;
    Ok((said, reply))
}

/// The receiver's reply, where there is one, comes to the sender.
fn answer(
    alloc: Global,
    receiver: &mut ReceivingStation,
    far: &mut MemoryLine,
    sender: &mut SendingStation<'_>,
    near: &mut MemoryLine,
) -> Result<(), StationFault> {
    if receiver.speak(far)?.is_some() {
        carry(alloc, far, near)?;
    }
    sender.hear(near, false)?;
    Ok(())
}

/// What was sent last at one end comes at the other.
fn carry(alloc: Global, from: &MemoryLine, to: &mut MemoryLine) -> Result<(), AllocError>
    ensures { OnOk result (to.new ≡ after_put (from.now.sent ∷ []) to.old) }
{
    let mut bytes = Vec::new(alloc);
    bytes.extend_from_slice(from.sent())?;
    to.put(vec![in alloc; bytes]?);
    Ok(())
}
