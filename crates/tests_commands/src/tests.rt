//! What no clause says of the program, and its scripts can't show: over stores, lines, clocks, readers and writers of the tests' own.
mod commands;
mod connections;
mod exchanging;
mod receiving;
mod recorded_disk;
mod scripted_stream;
mod sending;
mod shown;
mod stores;
mod told_line;
mod traced;

use arrayvec::ArrayVec;
use line_world::MemoryLine;
use rje_store::{MemoryStore, Store};
use std::alloc::{AllocError, Global};
use std::process::Abort;

/// What a command writes, in memory of its own.
type Written = ArrayVec<u8, 4096>;

/// The version 1 file of one job (default device, normal, whole, one record `A`).
const FILE: &[u8] =
    b"RJ37\x00\x01\x00\x00\x00\x00\x00\x00\x00\x01\x00\x00\x01\x00\x00\x00\x00\x00\x00\x00\x01\x00\x01\xC1";

/// The version 2 file of no jobs.
const NO_JOBS: &[u8] = b"RJ37\x00\x02\x00\x00\x00\x00\x00\x00\x00\x00";

/// These, one after another.
fn joined(rt: &impl Abort, pieces: &[&[u8]]) -> Written {
    let mut all = Written::new();
    for piece in pieces {
        assert!(rt; all.try_extend_from_slice(piece).is_ok());
    }
    all
}

/// These pieces, in memory of their own.
fn pieces_of(alloc: Global, pieces: &[&[u8]]) -> Result<Vec<Vec<u8>>, AllocError> {
    let mut put = Vec::new(alloc);
    for piece in pieces {
        put.push(Vec::from_slice(alloc, piece)?)?;
    }
    Ok(put)
}

/// A line in memory on which these come, one in each hearing.
fn line_of(rt: &(impl Abort + AllocGlobal), pieces: &[&[u8]]) -> MemoryLine {
    let mut line = MemoryLine::new(rt.alloc());
    line.put(pieces_of(rt.alloc(), pieces).expect(rt, "no memory"));
    line
}

/// A store of one file, of this name.
fn store_of(rt: &(impl Abort + AllocGlobal), name: &str, file: &[u8]) -> MemoryStore {
    let mut store = MemoryStore::new(rt.alloc());
    assert!(rt; store.write(name, file).is_ok());
    store
}

/// The file of this name is this.
fn assert_file(rt: &(impl Abort + AllocGlobal), store: &mut impl Store, name: &str, file: &[u8]) {
    let held = store.read(rt.alloc(), name).expect(rt, "a file");
    assert!(rt; held.as_slice() == file);
}
