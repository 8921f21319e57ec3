//! Names of nodes, objects and cycles. A reference includes a generation, so it never names another
//! object when its slot is reused.
ghost use Rattle.std.specs.Prelude.{◌≡◌, ◌≤◌, ◌<◌, nat_lt, nat_le, Some, IsTrue, IsSome, IfSome, ◌↔◌};
ghost use Rattle.ids.specs.Texts.{optional_text, reference_text};
ghost use Rattle.ids.specs.declared.limits.TheConstants.{GREATEST_CYCLE, GREATEST_NODES};

use crate::limits::{GREATEST_CYCLE, GREATEST_NODES, GREATEST_SLOTS, Generation};
use std::fmt;

/// The number of a node of a space, below [`GREATEST_NODES`].
#[derive(Clone, Copy, Debug, PartialEq, Eq, PartialOrd, Ord)]
pub struct NodeId {
    pub number: u8,
    pub ghost fits: { IsTrue (nat_lt number GREATEST_NODES) },
}

impl NodeId {
    /// The node with this number, if the number is below [`GREATEST_NODES`].
    pub fn new(number: u8) -> Option<NodeId>
        ensures within { IsSome result ↔ (number < GREATEST_NODES) }
        ensures value { IfSome result (λ n. n.number ≡ number) }
    {
        if number < GREATEST_NODES {
            Some(NodeId { number })
        } else {
            None
        }
    }
}

/// A reference to an object: the node that owns it, its slot there, and which of the slot's objects
/// it is. A freed slot is reused under the next generation, so a reference never names another
/// object later.
///
/// The numbers may be any: [`Ref::fits`] says whether they are within the limits.
#[derive(Clone, Copy, Debug, PartialEq, Eq, Hash, PartialOrd, Ord)]
pub struct Ref {
    pub node: u8,
    pub slot: u32,
    pub generation: Generation,
}

impl Ref {
    ghost use Rattle.ids.specs.Limits.{reference_fits};

    /// The reference with these parts, if they are within the limits, as [`Ref::fits`] says.
    pub fn new(node: u8, slot: u32, generation: Generation) -> Option<Ref>
        ensures within { IsSome result ↔ IsTrue (reference_fits
            (record { node = node; slot = slot; generation = generation })) }
        ensures value { IfSome result
            (λ r. r ≡ record { node = node; slot = slot; generation = generation }) }
    {
        let reference = Ref {
            node,
            slot,
            generation,
        };
        reference.fits().then_some(reference)
    }

    /// Whether the parts are within the limits: the node below [`GREATEST_NODES`], the slot below
    /// [`GREATEST_SLOTS`] and the generation at least 1.
    pub fn fits(self) -> bool
        ensures { result ≡ reference_fits self }
    {
        self.node < GREATEST_NODES && self.slot < GREATEST_SLOTS && self.generation >= 1
    }
}

/// Writes its node, slot and generation, separated by dots.
impl fmt::Display for Ref {
    ghost output = { λ r. Some (reference_text r) };

    fn fmt<W: fmt::Write>(&self, f: &mut fmt::Formatter<W>) -> fmt::Result {
        let Ref {
            node,
            slot,
            generation,
        } = *self;
        write!(f, "{node}.{slot}.{generation}")
    }
}

/// Writes a reference, or a dash if there is no reference.
#[derive(Clone, Copy, Debug, PartialEq, Eq)]
pub struct RefOrDash(pub Option<Ref>);

impl fmt::Display for RefOrDash {
    ghost output = { λ r. Some (optional_text r.0) };

    fn fmt<W: fmt::Write>(&self, f: &mut fmt::Formatter<W>) -> fmt::Result {
        match self.0 {
            Some(reference) => write!(f, "{reference}"),
            None => write!(f, "-"),
        }
    }
}

/// The number of a collection cycle, at most [`GREATEST_CYCLE`]: 0 before the first.
#[derive(Clone, Copy, Debug, PartialEq, Eq, PartialOrd, Ord)]
pub struct Cycle {
    pub number: u64,
    pub ghost fits: { IsTrue (nat_le number GREATEST_CYCLE) },
}

impl Cycle {
    /// The cycle with this number, if the number is at most [`GREATEST_CYCLE`].
    pub fn new(number: u64) -> Option<Cycle>
        ensures within { IsSome result ↔ (number ≤ GREATEST_CYCLE) }
        ensures value { IfSome result (λ c. c.number ≡ number) }
    {
        if number <= GREATEST_CYCLE {
            Some(Cycle { number })
        } else {
            None
        }
    }
}
