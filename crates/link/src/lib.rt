//! The ends that a node holds of the links between it and each node of its space, without what
//! their messages do: [`Links`], with a [`Sender`](link_ends::Sender) and a
//! [`Receiver`](link_ends::Receiver) for each. Those of a saved node are made from [`LinkParts`].
//! [`EarlyFrames`] keeps early messages.
#![tactic(auto)]

mod early;
mod links;
mod parts;

pub use early::EarlyFrames;
pub use links::Links;
pub use parts::LinkParts;
