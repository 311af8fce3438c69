//! Lines that are written many at a time.
ghost use Rattle.std.specs.Prelude.{◌≡◌, ◌≤◌, [], length, OnOk};
ghost use Rattle.std.specs.Io.KnownBytes.{Appends};
ghost use Rattle.rje_print.specs.Inside.Piece.{PutsOn};
ghost use Rattle.rje_print.specs.declared.piece.TheConstants.{PIECE};

use arrayvec::ArrayVec;
use std::io::{Result, Write};

/// The most bytes that are written at once.
const PIECE: usize = 65_536;

/// Bytes on their way to an output: those that weren't written yet.
#[derive(Drop)]
pub(crate) struct Piece {
    bytes: ArrayVec<u8, PIECE>,
}

impl Piece {
    /// Nothing yet.
    pub(crate) fn new() -> Self
        ensures { result.bytes.items ≡ [] }
    {
        Piece {
            bytes: ArrayVec::new(),
        }
    }

    /// Takes a line; where there is no room for it, what was there is written first.
    pub(crate) fn put<O: Write>(&mut self, line: &[u8], out: &mut O) -> Result<()>
        requires { length line.now ≤ PIECE }
        ensures { OnOk result (PutsOn (O.contents out.old) (O.contents out.new)
            self.old.bytes.items self.new.bytes.items line.now) }
    {
        if self.bytes.remaining_capacity() < line.len() {
            self.write(out)?;
        }
        let Ok(()) = self.bytes.try_extend_from_slice(line) else {
            unreachable!()
        };
        Ok(())
    }

    /// Writes what wasn't written yet.
    pub(crate) fn write<O: Write>(&mut self, out: &mut O) -> Result<()>
        ensures written { OnOk result (Appends (O.contents out.old) (O.contents out.new)
            self.old.bytes.items) }
        ensures none { OnOk result (self.new.bytes.items ≡ []) }
    {
        out.write_all(self.bytes.as_slice())?;
        self.bytes.clear();
        Ok(())
    }
}
