//! The limits of a space, one constant each. The greatest numbers of messages sent and counted
//! follow from the others, so no count of messages wraps.
/// The least number of nodes in a space.
pub const LEAST_NODES: u8 = 2;

/// The greatest number of nodes in a space; a node's number is below it.
pub const GREATEST_NODES: u8 = 64;

/// The greatest number of nodes in a space whose nodes were saved in the first version of images.
pub const FIRST_VERSION_NODES: u8 = 16;

/// The greatest number of registers of a node in a plain space; the least is 1.
pub const PLAIN_REGISTERS: u16 = 256;

/// The greatest number of registers of a node in any space; the least is 1.
pub const GREATEST_REGISTERS: u16 = 65_535;

/// The greatest number of slots of a node in a plain space; the least is 1.
pub const PLAIN_SLOTS: u32 = 1_048_576;

/// The greatest number of slots of a node in any space; the least is 1.
pub const GREATEST_SLOTS: u32 = 16_777_216;

/// The greatest number of places of an object in a plain space; they are numbered from 0.
pub const PLAIN_PLACES: u8 = 8;

/// The greatest number of places of an object in any space; they are numbered from 0.
pub const GREATEST_PLACES: u8 = 255;

/// The greatest number of bytes of an object in any space; in a plain space, objects have none.
pub const GREATEST_BYTES: u32 = 16_777_216;

/// The greatest number of bytes of a letter in any space; in a plain space, letters have none.
pub const GREATEST_LETTER: u32 = 65_535;

/// How many bytes an object's word takes in the letter that answers a Fetch.
pub const WORD_BYTES: u32 = 8;

/// Counts the objects of a slot: 1 for its first object.
pub type Generation = u64;

/// The greatest generation. Once its object of this generation is freed, a slot is never used
/// again.
pub const GREATEST_GENERATION: Generation = 18_446_744_073_709_551_615;

/// The greatest number of a message on a link, 2^48; the first is 1.
pub const GREATEST_NUMBER: u64 = 281_474_976_710_656;

/// How many messages a node sends at most, 2^54: one of each number on each of its links.
pub const GREATEST_SENT: u64 = 18_014_398_509_481_984;

/// How many messages a node counts at most, 2^55: those that it sends and those that it receives.
pub const GREATEST_COUNTED: u64 = 36_028_797_018_963_968;

/// How many messages all nodes count at most, 2^61: the sum that the token carries stays within it.
pub const GREATEST_SUM: u64 = 2_305_843_009_213_693_952;

/// The greatest number of a collection cycle, 2^48; 0 means "none yet".
pub const GREATEST_CYCLE: u64 = 281_474_976_710_656;

/// How many messages of a link its window shows: the first released ones after the last
/// acknowledged one.
pub const WINDOW: u8 = 32;

/// The greatest size of a saved node of a plain space, in bytes. Wide spaces have no such limit.
pub const GREATEST_IMAGE: u64 = 67_108_864;

/// How many events a trace keeps.
pub const TRACE_EVENTS: usize = 64;
