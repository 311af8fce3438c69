//! What clap says of words that it doesn't take, as a message prints it.

use clap::Error;
use rje_names::printed;
use std::fmt::{self, Display, Formatter, Write};

/// What clap says of words that it doesn't take: its lines as they are, and for each other character that a message doesn't print a question mark.
#[derive(Drop)]
pub(crate) struct PrintedError<'a>(pub(crate) &'a Error);

impl Display for PrintedError<'_> {
    fn fmt<W: Write>(&self, f: &mut Formatter<W>) -> fmt::Result {
        let mut lines = PrintedLines(f);
        write!(&mut lines, "{}", self.0)
    }
}

/// Takes the lines of a message, and prints them into this.
#[derive(Drop)]
struct PrintedLines<'a, W: Write>(&'a mut Formatter<W>);

impl<W: Write> Write for PrintedLines<'_, W> {
    fn write_str(&mut self, text: &str) -> fmt::Result {
        for character in text.chars() {
            let shown = if character == '\n' {
                character
            } else {
                printed(character)
            };
            self.0.write_char(shown)?;
        }
        Ok(())
    }
}
