//! The rules of a whole conversation of one sender and one receiver, the law that both ends agree, and the bridge to the link cores.
#![tactic(auto)]

mod bids;
mod laws;
mod sound_fate;
mod sound_turn;
mod sounds;
mod spoken_turn;

pub use bids::Bids;
pub use laws::{
    cores_keep_rules, ends_agree, one_conversation, one_pair_conversation, pair_ends_agree,
};
pub use sound_fate::{SoundFate, is_damage_of};
pub use sound_turn::SoundTurn;
pub use sounds::{sound_of, sound_of_reply};
pub use spoken_turn::SpokenTurn;
