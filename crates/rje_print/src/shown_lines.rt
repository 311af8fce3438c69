//! The line on a terminal that says how far a transmission is: each takes the place of the one before.
ghost use Rattle.std.specs.Prelude.{◌≡◌, ◌<◌, ◌≤◌, ◌+◌, ◌++◌, Option, length, IfOk};
ghost use Rattle.rje_print.specs.ProgressTexts.{two_digits, doing_name, jobs_text, amount_text, left_text, shown, shown_listening, shown_peer, shown_progress};

use crate::job_lines::push_name;
use crate::printed_line::{MAX_LINE, PrintedLine, push, push_number};
use crate::progress::Progress;
use std::io::{self, Write};
use std::net::SocketAddr;

/// What takes the line away.
pub const ERASED: &[u8] = b"\r\x1b[K";

/// The line that says at which address calls are awaited. Fails where the line has no room, which it has for every address.
pub fn shown_listening(address: SocketAddr) -> io::Result<PrintedLine>
    ensures { IfOk result (λ line. line.items ≡ shown_listening address) }
{
    let mut line = PrintedLine::new();
    write!(line, "\r\x1b[?7llistening on {address}\x1b[K\x1b[?7h")?;
    Ok(line)
}

/// The line that says who is connected. Fails where the line has no room, which it has for every address.
pub fn shown_peer(peer: SocketAddr) -> io::Result<PrintedLine>
    ensures { IfOk result (λ line. line.items ≡ shown_peer peer) }
{
    let mut line = PrintedLine::new();
    write!(line, "\r\x1b[?7lconnected {peer}\x1b[K\x1b[?7h")?;
    Ok(line)
}

/// The line that says how far it is.
pub fn shown_progress(progress: &Progress) -> PrintedLine
    ensures { result.items ≡ shown_progress progress.now }
{
    let mut line = PrintedLine::new();
    push(&mut line, b"\r\x1b[?7l");
    push(&mut line, doing(progress.jobs));
    push_number(&mut line, progress.job);
    push_jobs(&mut line, progress.jobs);
    push_name(&mut line, &progress.name);
    push_amount(&mut line, progress.records, progress.blocks, progress.rate);
    push_left(&mut line, progress.left);
    push(&mut line, b"\x1b[K\x1b[?7h");
    line
}

/// What is done with jobs of which this is known.
fn doing(jobs: Option<usize>) -> &'static [u8]
    ensures name { result.now ≡ doing_name jobs }
    ensures short { length result.now ≤ 14 }
{
    match jobs {
        Some(_) => b"sending job ",
        None => b"receiving job ",
    }
}

/// Puts behind the bytes of a line how many jobs there are, where that is known.
fn push_jobs(line: &mut PrintedLine, jobs: Option<usize>)
    requires { length line.old.items + 100 ≤ MAX_LINE }
    ensures text { line.new.items ≡ line.old.items ++ jobs_text jobs }
    ensures few { length line.new.items ≤ length line.old.items + 24 }
{
    if let Some(jobs) = jobs {
        push(line, b" of ");
        push_number(line, jobs);
    }
}

/// Puts behind the bytes of a line how much it is.
fn push_amount(line: &mut PrintedLine, records: usize, blocks: usize, rate: usize)
    requires { length line.old.items + 100 ≤ MAX_LINE }
    ensures text { line.new.items ≡ line.old.items ++ amount_text records blocks rate }
    ensures few { length line.new.items ≤ length line.old.items + 90 }
{
    push(line, b": ");
    push_number(line, records);
    push(line, b" records, ");
    push_number(line, blocks);
    push(line, b" blocks, ");
    push_number(line, rate);
    push(line, b" bytes/s");
}

/// Puts behind the bytes of a line how much time is left, in minutes and seconds, where that is known.
fn push_left(line: &mut PrintedLine, left: Option<usize>)
    requires { length line.old.items + 100 ≤ MAX_LINE }
    ensures text { line.new.items ≡ line.old.items ++ left_text left }
    ensures few { length line.new.items ≤ length line.old.items + 30 }
{
    if let Some(seconds) = left {
        push(line, b", ");
        push_number(line, seconds / 60);
        push(line, b":");
        push(line, &digits(seconds % 60));
        push(line, b" left");
    }
}

/// A number below 100 in two digits.
fn digits(number: usize) -> [u8; 2]
    requires { number < 100 }
    ensures { result ≡ two_digits number }
{
    [b'0' + (number / 10) as u8, b'0' + (number % 10) as u8]
}
