//! What the line does to a sound.
ghost use Rattle.std.specs.Prelude.{◌≡◌};
ghost use Rattle.bsc_history.specs.Fate.{is_damage_of};

use bsc_link::Sound;

/// What the line does to what is said, as the sound that is heard of it.
#[derive(Clone, Copy, Debug, PartialEq, Eq)]
pub enum SoundFate {
    /// What was said is heard.
    Arrives,
    /// Nothing is heard.
    Lost,
    /// This is heard in place of what was said.
    Damaged(Sound),
}

/// Whether damage of what was said may be heard so (own): of a block or a TTD no damage is heard as a block or an EOT, of any other
/// control sequence each is heard as noise or as nothing.
pub fn is_damage_of(said: Sound, heard: Sound) -> bool
    ensures { result ≡ is_damage_of said heard }
{
    match said {
        Sound::Block | Sound::Ttd => !matches!(heard, Sound::Block | Sound::Eot),
        _ => matches!(heard, Sound::Noise | Sound::Quiet),
    }
}
