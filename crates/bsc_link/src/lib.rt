//! The link cores: the sender and the receiver of one transmission, each step one line of its table.
#![tactic(auto)]

mod contender;
mod contender_place;
mod laws;
mod next;
mod outcome;
mod rank;
mod receiver;
mod receiver_news;
mod receiver_place;
mod reply;
mod say;
mod sender;
mod sender_news;
mod sender_place;
mod sound;
mod table_line;
mod wish;

pub use contender::Contender;
pub use contender_place::ContenderPlace;
pub use laws::at_most_one_rvi;
pub use next::Next;
pub use outcome::Outcome;
pub use rank::Rank;
pub use receiver::Receiver;
pub use receiver_news::ReceiverNews;
pub use receiver_place::ReceiverPlace;
pub use reply::Reply;
pub use say::Say;
pub use sender::Sender;
pub use sender_news::SenderNews;
pub use sender_place::SenderPlace;
pub use sound::Sound;
pub use table_line::TableLine;
pub use wish::Wish;
