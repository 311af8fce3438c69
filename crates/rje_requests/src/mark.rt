//! The mark that jobs of a job file are given.
ghost use Rattle.std.specs.Prelude.{◌≡◌};
ghost use Rattle.rje_requests.specs.Mark.{mark_chosen};

/// The mark that jobs of a job file are given.
#[derive(Clone, Copy, Debug, PartialEq, Eq)]
pub enum Mark {
    /// They are sent, and `send` passes over them.
    Sent,
    /// They wait to be sent.
    Waiting,
}

impl Mark {
    /// What the options for the one mark and for the other choose: none where both are given, or neither.
    pub fn chosen(sent: bool, waiting: bool) -> Option<Mark>
        ensures mark { result ≡ mark_chosen sent waiting }
    {
        match (sent, waiting) {
            (true, false) => Some(Mark::Sent),
            (false, true) => Some(Mark::Waiting),
            (true, true) | (false, false) => None,
        }
    }
}
