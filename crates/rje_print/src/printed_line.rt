//! The lines that the program prints.
ghost use Rattle.std.specs.Prelude.{◌≡◌, ◌+◌, ◌≤◌, ◌++◌, length, decimal};

use arrayvec::ArrayVec;
use itoa::Buffer;

/// The most bytes of a printed line. A block's has two numbers of at most 20 digits,
/// and at most 512 bytes in hexadecimal.
pub const MAX_LINE: usize = 1088;

/// A line as it is printed, its LF included.
pub type PrintedLine = ArrayVec<u8, MAX_LINE>;

/// Puts bytes after those of a line.
pub(crate) fn push(line: &mut PrintedLine, bytes: &[u8])
    requires { length line.old.items + length bytes.now ≤ MAX_LINE }
    ensures { line.new.items ≡ line.old.items ++ bytes.now }
{
    line.try_extend_from_slice(bytes).unwrap();
}

/// Puts a number in decimal after the bytes of a line.
pub(crate) fn push_number(line: &mut PrintedLine, number: usize)
    requires { length line.old.items + 20 ≤ MAX_LINE }
    ensures digits { line.new.items ≡ line.old.items ++ decimal number }
    ensures few { length line.new.items ≤ length line.old.items + 20 }
{
    let mut buffer = Buffer::new();
    push(line, buffer.format(number).as_bytes());
}
