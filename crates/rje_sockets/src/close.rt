//! What an end does where its transmission is over.
ghost use Rattle.std.specs.Prelude.{◌≡◌};

use rje_net::SocketLine;
use rje_station::Line;
use std::io::{Read, Write};
use std::net::OpenStream;

/// What an end does with its line where its transmission is over.
pub trait Close<L: Line> {
    /// Whether no answer came after EOT was said, as far as this end finds out.
    fn ends_in_step(&self, line: &mut L) -> bool
        ensures talk { L.talk line.new ≡ L.talk line.old }
        ensures none { L.transmissions line.new ≡ L.transmissions line.old };
}

/// Leaves a line of any kind as it is.
#[derive(Drop)]
pub struct Leave;

impl<L: Line> Close<L> for Leave {
    fn ends_in_step(&self, _line: &mut L) -> bool {
        true
    }
}

/// Hears the other end of a connection out until it hangs up.
#[derive(Drop)]
pub struct Drain;

impl<S: OpenStream + Read + Write> Close<SocketLine<S>> for Drain {
    fn ends_in_step(&self, line: &mut SocketLine<S>) -> bool {
        line.ends_in_step()
    }
}

/// Whether no answer came after EOT was said, where the transmission came to its end.
pub(crate) fn parts_in_step<L: Line, P: Close<L>>(
    has_ended: bool,
    line: &mut L,
    parting: &P,
) -> bool
    ensures talk { L.talk line.new ≡ L.talk line.old }
    ensures none { L.transmissions line.new ≡ L.transmissions line.old }
{
    !has_ended || parting.ends_in_step(line)
}
