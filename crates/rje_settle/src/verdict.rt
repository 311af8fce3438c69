//! What a receipt comes to.
ghost use Rattle.std.specs.Prelude.{◌≡◌};

/// What a receipt of the other end comes to.
#[derive(Clone, Copy, Debug, PartialEq, Eq)]
pub enum Verdict {
    /// Nothing was known yet: from now on it is counted as the receipt says.
    BeginsToCount,
    /// So many of the promised jobs came, the first of them; the others haven't come.
    Agrees {
        /// How many.
        came: usize,
    },
    /// It says what can't be: nothing may be sent.
    DoesNotAgree,
}

impl Verdict {
    ghost use Rattle.rje_settle.specs.Connection.{is_good};

    /// Whether jobs may be sent after it.
    pub fn is_good(self) -> bool
        ensures { result ≡ is_good self }
    {
        self != Verdict::DoesNotAgree
    }
}
