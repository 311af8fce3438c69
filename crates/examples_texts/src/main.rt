//! The texts of the deck on standard input, and back: for each block its text in hexadecimal, and the cards that are read from it.
#![tactic(auto)]

use anyhow::Result;
use bsc_codes::Block;
use rje_jobs::{Form, job_of_deck, push_card};
use rje_text::{Mode, Packer, Pushed, Select, unpack};
use std::alloc::Global;
use std::io::{Read, Write};

fn main(rt: HostRuntime) -> Result<()> {
    let alloc = rt.alloc();
    let mut deck = Vec::new(alloc);
    rt.stdin().read_to_end(&mut deck)?;
    let job = job_of_deck(alloc, &deck, Select::Punch, Mode::Normal)?;
    let mut out = rt.stdout();
    let mut packer = Packer::new(Select::Punch, Mode::Normal);
    let mut so_far = None;
    for record in job.records.iter() {
        if let Pushed::Full(record) = packer.push(record)? {
            show(alloc, &packer.close(false), so_far, &mut out)?;
            so_far = Some(Mode::Normal);
            packer.push(record)?;
        }
    }
    show(alloc, &packer.close(true), so_far, &mut out)
}

/// Prints a block's text, and the cards that are read from it after blocks of this mode.
fn show<O: Write>(alloc: Global, block: &Block, so_far: Option<Mode>, out: &mut O) -> Result<()> {
    for byte in block.text.as_slice() {
        write!(out, "{byte:02X}")?;
    }
    let mut cards = vec![in alloc; b'\n']?;
    for record in unpack(alloc, block, so_far)?.records.iter() {
        push_card(&record, Form::Ascii, &mut cards)?;
    }
    out.write_all(&cards)?;
    Ok(())
}
