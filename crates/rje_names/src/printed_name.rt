//! A name, as a message prints it.
ghost use Rattle.std.specs.Prelude.{◌≡◌, false};
ghost use Rattle.rje_names.specs.Printed.{is_masked, printed as printed_of};

use std::fmt::{self, Display, Formatter, Write};

/// The character that a message prints for this one of a name: a question mark for one that would end the line, begin a terminal's command or turn the
/// direction of the text, and else itself.
pub fn printed(character: char) -> char
    ensures printed { result ≡ printed_of character }
    ensures never { is_masked result ≡ false }
{
    match character {
        '\u{0}'..='\u{1F}' | '\u{7F}'..='\u{9F}' => '?',
        '\u{2028}'..='\u{2029}' => '?',
        '\u{61C}' | '\u{200E}'..='\u{200F}' => '?',
        '\u{202A}'..='\u{202E}' | '\u{2066}'..='\u{2069}' => '?',
        _ => character,
    }
}

/// A name as a message prints it: in the line that it is in, with a question mark for each character that a message doesn't print.
#[derive(Clone, Copy, Debug)]
pub struct PrintedName<'a>(pub &'a str);

impl Display for PrintedName<'_> {
    fn fmt<W: Write>(&self, f: &mut Formatter<W>) -> fmt::Result {
        for character in self.0.chars() {
            f.write_char(printed(character))?;
        }
        Ok(())
    }
}
