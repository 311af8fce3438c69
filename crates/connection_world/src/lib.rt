//! One transmission over a connection, on which what is said comes later or not at all.
#![tactic(auto)]

mod laws;

pub use laws::{
    connections_are_faithful, connections_keep_order, crossing_bids_come_through,
    exchanges_hand_out_what_was_said, exchanges_keep_order, faithful_turns_may_be_connections,
    late_bid_comes_through,
};
