//! The names and limits that every crate of the object space shares: node numbers, references,
//! cycle numbers, the shape of a space, the limits, and the reasons for a refusal, and nothing that
//! has a state. A value of one of these types is within the limits by construction, except a
//! reference.
#![tactic(auto)]

mod limits;
mod names;
mod refusal;
mod saves;
mod shape;

pub use limits::{
    FIRST_VERSION_NODES, GREATEST_BYTES, GREATEST_COUNTED, GREATEST_CYCLE, GREATEST_GENERATION,
    GREATEST_IMAGE, GREATEST_LETTER, GREATEST_NODES, GREATEST_NUMBER, GREATEST_PLACES,
    GREATEST_REGISTERS, GREATEST_SENT, GREATEST_SLOTS, GREATEST_SUM, Generation, LEAST_NODES,
    PLAIN_PLACES, PLAIN_REGISTERS, PLAIN_SLOTS, TRACE_EVENTS, WINDOW, WORD_BYTES,
};
pub use names::{Cycle, NodeId, Ref, RefOrDash};
pub use refusal::Refusal;
pub use saves::Saves;
pub use shape::Shape;
