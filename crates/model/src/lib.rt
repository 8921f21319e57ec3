//! The definitions of the object space, which the contracts of all other crates cite; theorems
//! about them are in `laws`, and the code that follows them is in the crates above.
//!
//! The code here is a few enums that both the program and the definitions use: events and answers
//! of a node, a node in numbers, the balances in which it counts messages, and steps and outcomes
//! of a space. The definitions are in `specs/`. `State` says what a node is, and `Steps` what an
//! event does to it; `Heaps`, `Counting`, `Shading` and `Collecting` define the parts of that.
//! `View` says which state a node shows that keeps only the unacknowledged part of what it sent.
//! `World` says what a space of nodes does, and `Cuts` what is reachable in it. `docs/RULES.md`
//! says the same in words.
#![tactic(auto)]

mod age;
mod balance;
mod event;
mod step;
mod summary;

pub use age::{Age, Scope};
pub use balance::Balance;
pub use event::{Accepted, Answer, Event, Letter};
pub use step::{Outcome, Step};
pub use summary::Summary;
