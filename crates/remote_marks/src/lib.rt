//! What a node asks of others when it sees references; it marks its own objects in `heap`. It sees
//! to many of them, all or nothing, as far as other nodes are concerned: they are asked to mark
//! their objects, by a Mark, once in a cycle, or the references are vouched for.
//!
//! [`see`] can fail, and so can [`include`] and [`append_marks`], by which a node asks for what its
//! program holds when it joins a cycle. They then leave everything as it was. If a step after them
//! fails, [`unsee`] and [`unask`] undo them. Marking the node's own objects can't fail, and comes
//! last.
//!
//! The references that were asked for are a [`RefSet`], the oldest first. So the number of
//! references at an earlier moment says which Marks were sent since, and undoing needs neither
//! memory nor a list of its own.
//!
//! Each reference costs one look-up in the set. Nothing else is read.
//!
//! Why references are asked for once: a node can't see another node's marks. So without the set it
//! would ask again each time that it meets the reference. Also, a Load after marking has ended
//! would send a Mark, which is work after the end.
//!
//! Why a reference of the node's own cycle is only vouched for: its sender had joined before it
//! sent it, so the object is marked, or a Mark of it was sent in this cycle. Another Mark would
//! find nothing new. Also, such a message may arrive when marking has ended everywhere, and the
//! Mark would then be work after the end. The reference counts as asked for all the same, because
//! its receiver can now send it on, and then vouches for it in turn.
//!
//! Why a late reference is shaded: it was sent before its sender joined, by a node that had shaded
//! nothing yet, and may be the only path to its object. It is counted, so marking doesn't end
//! before it arrives.
#![tactic(auto)]

mod asking;
mod marks;
mod ref_set;

pub use asking::{include, see, unask, unsee};
pub use marks::append_marks;
pub use ref_set::RefSet;
