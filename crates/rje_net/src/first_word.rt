//! Whether a caller speaks.
ghost use Rattle.std.specs.Prelude.{◌≡◌, ◌↔◌, IsTrue};
ghost use Rattle.bsc_frame.specs.Heard.{IsHeard};
ghost use Rattle.rje_net.specs.Words.{HasWord, is_word as is_word_of};

use bsc_frame::{Fed, Heard, Listener, one_hearing};

/// Whether these bytes, which came in one hearing, have a word: a frame, or a text that was begun. Pads, SYN and noise have none.
#[tactic(auto, using(crate::proofs::Words::has_word, crate::proofs::Words::lacks_word))]
pub fn has_word(bytes: &[u8]) -> bool
    ensures { IsTrue result ↔ HasWord bytes.now }
{
    one_hearing();
    is_word(&heard_of(bytes))
}

/// Whether this is a word.
fn is_word(heard: &Heard) -> bool
    ensures { result ≡ is_word_of heard.now }
{
    match heard {
        Heard::Frame(_) | Heard::Bad => true,
        Heard::Noise | Heard::Quiet => false,
    }
}

/// What is heard of these bytes.
#[tactic(auto, using(crate::proofs::Words::frame_heard))]
fn heard_of(bytes: &[u8]) -> Heard
    ensures { IsHeard bytes.now result }
{
    let mut listener = Listener::new();
    let Fed { used: _, frame } = listener.feed(bytes);
    match frame {
        Some(frame) => Heard::Frame(frame),
        None => listener.quiet(),
    }
}
