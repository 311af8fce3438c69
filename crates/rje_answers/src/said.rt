//! What an end of a connection said last.
ghost use Rattle.std.specs.Prelude.{◌≡◌};
ghost use Rattle.bsc_frame.specs.declared.frame.Frame.{Frame};
ghost use Rattle.bsc_frame.specs.Written.{Written};
ghost use Rattle.rje_answers.specs.Awaiting.{has_answer, said_in};

use bsc_codes::{DLE, ENQ, EOT, STX};

/// What an end of a connection said last.
#[derive(Clone, Copy, PartialEq, Eq)]
pub enum Said {
    /// Nothing, or a reply.
    Reply,
    /// ENQ: a bid, or a question for the last answer.
    Enquiry,
    /// A text, or a delay of one.
    Text,
    /// EOT.
    End,
}

impl Said {
    /// What a transmission of these bytes says.
    pub fn of(bytes: &[u8]) -> Said
        ensures written { (f : Frame) → Written f bytes.now → result ≡ said_in f }
    {
        match bytes {
            [_, _, ENQ, ..] => Said::Enquiry,
            [_, _, STX, ..] | [_, _, DLE, STX, ..] => Said::Text,
            [_, _, EOT, ..] => Said::End,
            _ => Said::Reply,
        }
    }

    /// Whether the other end answers it.
    pub fn has_answer(self) -> bool
        ensures { result ≡ has_answer self }
    {
        matches!(self, Said::Enquiry | Said::Text)
    }
}
