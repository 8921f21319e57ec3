//! Frames and messages as bytes; what they are is in the crate `msg`, and which of them a node
//! sends in `node`.
//!
//! A frame is all of its bytes, and its numbers are big-endian. An acknowledgement is the byte 42
//! hex, the node that acknowledges and the other node in a byte each, and a number in eight bytes.
//! A message is the byte 45 hex, or 46 if plain spaces have no room for it; the sender and the
//! receiver in a byte each; the message's number in eight bytes; and its stamp in eight bytes. Then
//! comes a body: a tag, and what the body says.
//!
//! | Tag | Body | What it says |
//! |---|---|---|
//! | 1 | Begin | |
//! | 2 | Token | a colour (0 white, 1 black), and q in eight bytes, in two's complement |
//! | 3 | Mark | a reference |
//! | 4 | Give | a label in four bytes, and an optional reference |
//! | 5 | Put | a reference, a place in one byte, and an optional reference |
//! | 6 | Get | a reference, a place in one byte, and a label in four bytes |
//! | 7 | Ended | |
//! | 8 | Swept | |
//! | 9 | Post | a label in four bytes, two lists, and their items |
//! | 10 | Fetch | a reference, and a label, an offset and a count in four bytes each |
//!
//! A Post has after its label how many references follow, in one byte, each of them optional; then
//! how many bytes follow, in four bytes, and these.
//!
//! A reference is its node in one byte, its slot in four and its generation in eight. An optional
//! reference is the byte 0, or the byte 1 and a reference. In the first [`Version`], which only
//! images may still have, a generation had four bytes.
#![tactic(auto)]

mod law;
pub mod reading;
mod tags;
mod version;
pub mod writing;

pub use law::grammar;
pub use reading::decode;
pub use version::Version;
pub use writing::encode;
