//! Where the bytes from an adapter stand.

/// Where the bytes from an adapter stand.
#[derive(Clone, Copy, Debug, PartialEq, Eq)]
pub(crate) enum Place {
    /// In front of a body.
    Front,
    /// Behind a DLE in a body's first place.
    Dle,
    /// In a text; whether it is transparent.
    Text(bool),
    /// Behind a DLE in transparent text.
    TextDle,
}
