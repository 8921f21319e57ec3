//! Makes a node from the parts of a saved one. The parts are refused only if no saved node has
//! them. All messages of the new node count as released.
ghost use Rattle.std.specs.Prelude.{◌≡◌, ◌≢◌, IfOk, IfErr, OnOk};
ghost use Rattle.ids.specs.declared.refusal.Refusal.TheVariants.{BadImage, Memory};
ghost use Rattle.node.specs.Invariant.{IsStanding};
ghost use Rattle.node.specs.Parts.{node_given, AreParts};

mod home;
mod links;
mod lists;

use super::Core;
use cycles::{Phases, Ring};
use heap::{Heap, HeapParts};
use home::is_at_home;
use ids::{Ref, Refusal, Shape};
use link::{LinkParts, Links};
pub(super) use links::{is_letter_size, is_placed};
use links::{are_at_ends, is_bounded, number_sum};
use lists::{are_grey, asked_once};
use remote_marks::RefSet;
use std::alloc::Global;

/// The parts of a saved node.
#[derive(Drop)]
pub struct NodeParts {
    pub shape: Shape,
    /// The node's number.
    pub own: u8,
    pub heap: HeapParts,
    /// References of other nodes that were asked or vouched for in its cycle, in order.
    pub asked: Vec<Ref>,
    pub phases: Phases,
    pub ring: Ring,
    /// For each node of the space, including itself, in order of their numbers.
    pub links: Vec<LinkParts>,
}

/// Tests everything that can be tested of the parts on their own, and returns the set of references
/// that were asked or vouched for.
fn tested(alloc: Global, parts: &NodeParts) -> Result<RefSet, Refusal>
    ensures asked { IfOk result (λ s. s.keys ≡ parts.now.asked.items) }
    ensures right { OnOk result (AreParts (node_given parts.now)) }
    ensures refused { IfErr result (λ e.
        e ≢ Memory → (e ≡ BadImage) × (AreParts (node_given parts.now) → ⊥)) }
{
    if !is_at_home(parts) {
        return Err(Refusal::BadImage);
    }
    let cycle = parts.phases.cycle();
    if !are_grey(alloc, cycle, &parts.heap.slots, &parts.heap.grey)? {
        return Err(Refusal::BadImage);
    }
    if !are_at_ends(parts.shape, parts.own, cycle, &parts.links) {
        return Err(Refusal::BadImage);
    }
    asked_once(alloc, parts.shape, parts.own, &parts.asked)
}

impl Core {
    /// Makes the node of these parts. All its messages count as held by a saved state, and so does
    /// all that it has received. Its running time grows with the size of the parts.
    ///
    /// It fails with [`Refusal::BadImage`] if no saved node has these parts ("Saved nodes" in
    /// docs/RULES.md), and with [`Refusal::Memory`] if an allocation fails, whatever the parts are.
    /// Parts that are refused are dropped.
    pub fn from_parts(alloc: Global, parts: NodeParts) -> Result<Core, Refusal>
        ensures made { IfOk result (λ n. n ≡ node_given parts) }
        ensures right { OnOk result (IsStanding (node_given parts)) }
        ensures refused { IfErr result (λ e.
            e ≢ Memory → (e ≡ BadImage) × (IsStanding (node_given parts) → ⊥)) }
    {
        let asked = tested(alloc, &parts)?;
        let NodeParts {
            shape,
            own,
            heap,
            asked: _asked,
            phases,
            ring,
            links,
        } = parts;
        let links = Links::from_parts(alloc, links)?;
        if !is_bounded(ring, number_sum(&links)) {
            return Err(Refusal::BadImage);
        }
        let heap = Heap::from_parts(shape, heap)?;
        Ok(Core {
            shape,
            own,
            heap,
            asked,
            phases,
            ring,
            links,
        })
    }
}
