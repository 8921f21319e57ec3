//! Values as bytes: each kind of value has a format, which says how it is spelled; those of
//! messages, images and events are in the crates above. No spelling of a format is a prefix of
//! another one.
//!
//! `specs/Formats.antt` defines the formats of numbers, and of values that are composed of others:
//! a sequence, an optional value, one of several kinds after a tag, a list. A [`Reader`] takes
//! values from the front of bytes. A [`Writer`] appends values, up to a limit. Records of a few
//! bytes are put together in a [`Piece`] first and then written at once. So a record is described
//! by one line, and read and written by one function each.
#![tactic(auto)]

mod piece;
mod reader;
mod writer;

pub use piece::{GREATEST_PIECE, Piece};
pub use reader::Reader;
pub use writer::Writer;
