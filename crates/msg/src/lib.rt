//! What nodes say to each other: acknowledgements and messages as values; their bytes are in
//! `frames`, and what a message does is in `node`.
//!
//! A frame is an acknowledgement or a message. An acknowledgement has the node that acknowledges,
//! the other node, and a number. A message has the sender and the receiver, its number, its stamp,
//! and a body:
//!
//! | Body | What it says |
//! |---|---|
//! | Begin | |
//! | Token | a colour, and q |
//! | Mark | a reference |
//! | Give | a label, and an optional reference |
//! | Put | a reference, a place, and an optional reference |
//! | Get | a reference, a place, and a label |
//! | Post | a label, optional references, and bytes |
//! | Fetch | a reference, a label, an offset, and a number of bytes |
//! | Ended | |
//! | Swept | |
//!
//! The crate `frames` says how they are spelled as bytes.
#![tactic(auto)]

mod body;
mod frame;
mod frozen;

pub use body::{Body, Colour, Message, Token};
pub use frame::{
    Ack, Data, DataRef, Frame, FrameRef, body_fits, data_fits, fetch_fits, is_plain_body,
    optional_fits, plain_data_fits,
};
pub use frozen::Frozen;
