//! The two ends of a link, which carries the messages from one node to another; the ends that a
//! node has of all its links are in `link`. Its [`Sender`] numbers messages from 1 and keeps those
//! that aren't acknowledged. Its [`Receiver`] receives them strictly in order and each once.
#![tactic(auto)]

mod receiver;
mod sender;

pub use receiver::{Offer, Receiver};
pub use sender::Sender;
