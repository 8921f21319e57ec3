//! Tag bytes. A value that may be one of several kinds begins with a byte that says which.

/// What an image begins with.
pub const START: [u8; 2] = [0x4D, 0x52];

/// The first version of the format, after the start. It is only read.
pub const FIRST: u8 = 1;

/// The second version of the format, after the start. It is read and written.
pub const SECOND: u8 = 2;

/// The version of the format for wide spaces, after the start.
pub const WIDE: u8 = 4;

/// In the place of the second version: a log of events follows the image.
pub const LOGGED: u8 = SECOND + 1;

/// In the place of the version for wide spaces: a log of events follows the image.
pub const WIDE_LOGGED: u8 = WIDE + 1;

/// In place of a token, or of a register's reference, that is absent.
pub const ABSENT: u8 = 0;

/// Before a token that may be absent.
pub const PRESENT: u8 = 1;

/// Before a free slot.
pub const FREE: u8 = 0;

/// Before a slot with an object that is shared and old, as all objects of plain spaces are.
pub const OCCUPIED: u8 = 1;

/// In place of a slot that has run out of generations.
pub const RETIRED: u8 = 2;

/// Before a slot with an object that is private and old.
pub const PRIVATE: u8 = 3;

/// Before a slot with an object that is private and young.
pub const YOUNG: u8 = 4;

/// Before a slot with an object that is private and remembered.
pub const REMEMBERED: u8 = 5;

/// Before a slot with an object that is shared and young.
pub const SHARED_YOUNG: u8 = 6;

/// Before a slot with an object that is shared and remembered.
pub const SHARED_REMEMBERED: u8 = 7;
