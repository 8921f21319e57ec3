//! A node's heap: its objects in numbered slots, its registers, its letters, and its grey objects,
//! but nothing that concerns other nodes. Each call does what its definition in `model` says, and
//! one that is refused leaves everything as it was.
#![tactic(auto)]

mod blocks;
mod heap;
mod object;
mod payload;
mod search;

pub use arena::{FreeSlots, Slot, Slots};
pub use heap::{Heap, HeapParts};
pub use object::Object;
