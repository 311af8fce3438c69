//! What a look at a station's folder is asked for.

/// What `status` is asked for.
#[derive(Clone, Copy, Debug, PartialEq, Eq)]
pub struct StatusOrder<'a> {
    /// The station's folder.
    pub folder: &'a str,
    /// Whether it is told as JSON.
    pub json: bool,
}
