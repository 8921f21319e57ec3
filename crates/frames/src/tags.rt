//! Tag bytes. A value that may be one of several kinds begins with a byte that says which.

/// Before a message for which plain spaces have room.
pub const DATA: u8 = 0x45;

/// Before any other message.
pub const WIDE_DATA: u8 = 0x46;

/// Before an acknowledgement.
pub const ACK: u8 = 0x42;

/// Says that a collection cycle begins.
pub const BEGIN: u8 = 1;

/// Before the token.
pub const TOKEN: u8 = 2;

/// Before an object to be marked.
pub const MARK: u8 = 3;

/// Before a letter to the receiver's program.
pub const GIVE: u8 = 4;

/// Before a place to be written.
pub const PUT: u8 = 5;

/// Before a place to be read.
pub const GET: u8 = 6;

/// Says that marking has ended.
pub const ENDED: u8 = 7;

/// Says that the sender has swept.
pub const SWEPT: u8 = 8;

/// Before a letter with references and bytes, of a wide space.
pub const POST: u8 = 9;

/// Before a request for a word and bytes, of a wide space.
pub const FETCH: u8 = 10;

/// In place of a reference that is absent.
pub const ABSENT: u8 = 0;

/// Before a reference that may be absent.
pub const PRESENT: u8 = 1;

/// White, of a node or the token.
pub const WHITE: u8 = 0;

/// Black, of a node or the token.
pub const BLACK: u8 = 1;
