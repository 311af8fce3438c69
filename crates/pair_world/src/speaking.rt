//! Who speaks.
ghost use Rattle.std.specs.Prelude.{◌≡◌};
ghost use Rattle.bsc_history.specs.Pair.{speaks};

use bsc_link::Say;

/// Whether a station speaks: where something is due at it and, if something is due at the other too, it is let.
pub(crate) fn speaks(own: Say, other: Say, let_it: bool) -> bool
    ensures { result ≡ speaks own other let_it }
{
    own != Say::Nothing && (other == Say::Nothing || let_it)
}
