//! What the named bytes and the code page promise beyond the calls.
ghost use Rattle.bsc_codes.specs.Laws.{CodePageIsInverse, PrintableHaveCodes, NamedBytesHaveTheirCodes};

/// A character's code is of that character and of no other, and the characters that have one are the 95 from the blank to the tilde.
pub fn code_page_is_inverse()
    ensures inverse { CodePageIsInverse }
    ensures printable { PrintableHaveCodes }
{}

/// The bytes that have a name have the codes of the line.
pub fn named_bytes_have_their_codes()
    ensures codes { NamedBytesHaveTheirCodes }
{}
