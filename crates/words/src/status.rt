//! The exit statuses of the program.

/// Everything succeeded.
pub const DONE: u8 = 0;

/// Some line was refused, allocation failed, or the output failed.
pub const REFUSED: u8 = 1;

/// The arguments, a file or a line of a script can't be read.
pub const UNREADABLE: u8 = 2;
