//! Whether the answers on a connection are in step.
ghost use Rattle.std.specs.Prelude.{◌≡◌, not};

use crate::socket_line::SocketLine;
use rje_session::InStep;
use std::io::{Read, Write};

impl<S: Read + Write> InStep for SocketLine<S> {
    fn is_in_step(&mut self) -> bool
        ensures step { result ≡ not self.old.answers.kept.strayed }
        ensures same { self.new ≡ self.old }
    {
        !self.has_strayed()
    }
}
