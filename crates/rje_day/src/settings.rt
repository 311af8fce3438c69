//! How a station spends its day.

/// How a station spends its day.
#[derive(Clone, Copy, Debug, PartialEq, Eq)]
pub struct Settings {
    /// Whether it calls; else it listens, and is called.
    pub calls: bool,
    /// Whether it ends after one connection on which the other end said something.
    pub once: bool,
    /// After how many hearings in a row without a word it hangs up, where no transmission is in hand; with 0 at once.
    pub patience: u32,
}
