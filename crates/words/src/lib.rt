//! What the program's arguments ask for, and its exit statuses; the commands are in the crates
//! `commands` and `markring`.
#![tactic(auto)]

mod command;
mod fault;
mod status;

pub use command::Command;
pub use fault::{WordsError, print_refused_words};
pub use status::{DONE, REFUSED, UNREADABLE};
