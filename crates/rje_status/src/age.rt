//! How a time that passed is printed.
use std::fmt::{self, Display, Formatter, Write};

/// A time in seconds, in whole ones of the largest unit of which it has one.
#[derive(Clone, Copy)]
pub(crate) struct Age(pub(crate) u64);

impl Display for Age {
    fn fmt<W: Write>(&self, f: &mut Formatter<W>) -> fmt::Result {
        let (count, unit) = match self.0 {
            0..=59 => (self.0, "s"),
            60..=3_599 => (self.0 / 60, "min"),
            3_600..=86_399 => (self.0 / 3_600, "h"),
            _ => (self.0 / 86_400, "d"),
        };
        write!(f, "{count} {unit}")
    }
}
