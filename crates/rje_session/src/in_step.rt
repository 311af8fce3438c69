//! Whether answers are in step.
ghost use Rattle.std.specs.Prelude.{◌≡◌};

use rje_station::Line;

/// A line that finds out where answers came out of step.
pub trait InStep: Line {
    /// Whether no answer came after this end said EOT, as far as it was found out.
    fn is_in_step(&mut self) -> bool
        ensures talk { Self.talk self.new ≡ Self.talk self.old }
        ensures none { Self.transmissions self.new ≡ Self.transmissions self.old };
}
