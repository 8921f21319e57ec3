//! Makes a node of what its image says. Everything that it sent and received counts as saved, since
//! images are written only of nodes that are being saved.
ghost use Rattle.std.specs.Prelude.{◌≡◌, ◌≢◌, ◌≤◌, ◌↔◌, length, map, IfOk, IfErr, IfSome, IsSome};
ghost use Rattle.std.specs.Prelude.{IsTrue, OnOk};
ghost use Rattle.std.specs.List.{insert};
ghost use Rattle.ids.specs.declared.refusal.Refusal.TheVariants.{BadImage, Memory};
ghost use Rattle.ids.specs.Limits.{IsShape};
ghost use Rattle.image_parts.specs.Layouts.{IsTooLong, says_wide, shape_of};
ghost use Rattle.model.specs.View.{NodeView, no_link};
ghost use Rattle.link.specs.Parts.{link_given, taken_given};
ghost use Rattle.node.specs.Invariant.{IsStanding};
ghost use Rattle.node.specs.Keeping.{alone};
ghost use Rattle.image_parts.specs.Grammar.{Fits};
ghost use Rattle.image.specs.Nodes.{link_of, received_of, reports_of, node_of};
ghost use Rattle.image.specs.Nodes.{IsImageOf};
ghost use Rattle.image_parts.specs.Logs.{begins_logged};
ghost use Rattle.image_parts.specs.Parts.{stored_of};
ghost use Rattle.image.specs.Logged.{IsAnyImageOf, IsLoggedOf};

use cycles::Phases;
use ids::{Refusal, Shape};
use image_parts::{
    Head, Layout, StoredLink, StoredNode, begins_logged, is_too_long, whole, whole_logged,
};
use link::LinkParts;
use node::{Core, Node, NodeParts};
use std::alloc::Global;
use std::collections::VecDeque;

/// The node whose image the bytes are, all of them, in any layout. All that it sent and
/// received counts as held by a saved state, and it keeps no early messages. Memory and time are
/// proportional to the number of bytes.
///
/// # Errors
///
/// [`Refusal::BadImage`] if the bytes are no image: they spell no node, or one that contradicts
/// itself, or there are more than [`GREATEST_IMAGE`](ids::GREATEST_IMAGE) of them and the node's
/// space is plain. The number of bytes is tested first. [`Refusal::Memory`] if an allocation fails.
pub fn from_bytes(alloc: Global, bytes: &[u8]) -> Result<Node, Refusal>
    ensures read { IfOk result (λ n. IsImageOf bytes.now n.core) }
    ensures alone { IfOk result (λ n. n ≡ alone n.core) }
    ensures refused { IfErr result (λ e. e ≢ Memory
        → (e ≡ BadImage) × ((n : NodeView) → IsImageOf bytes.now n → ⊥)) }
    ensures last { IfErr result (λ e. e ≡ Memory
        → IsTooLong (says_wide bytes.now) (length bytes.now) → ⊥) }
{
    let core = core_from_bytes(alloc, bytes)?;
    Node::of(alloc, core)
}

/// The core of the node whose image the bytes are, for callers that only read what was saved. It
/// fails as [`from_bytes`] does.
pub fn core_from_bytes(alloc: Global, bytes: &[u8]) -> Result<Core, Refusal>
    ensures read { IfOk result (λ n. IsImageOf bytes.now n) }
    ensures refused { IfErr result (λ e. e ≢ Memory
        → (e ≡ BadImage) × ((n : NodeView) → IsImageOf bytes.now n → ⊥)) }
    ensures last { IfErr result (λ e. e ≡ Memory
        → IsTooLong (says_wide bytes.now) (length bytes.now) → ⊥) }
{
    if is_too_long(bytes) {
        return Err(Refusal::BadImage);
    }
    let (layout, image) = whole(alloc, bytes)?;
    restored(alloc, layout, image)
}

/// The node whose image the bytes are, if a log of events may follow the image. It reads versions 3
/// and 5 and, as [`from_bytes`] does, the others. It fails as that does.
pub fn from_any_bytes(alloc: Global, bytes: &[u8]) -> Result<Node, Refusal>
    ensures read { IfOk result (λ n. IsAnyImageOf bytes.now n.core) }
    ensures alone { IfOk result (λ n. n ≡ alone n.core) }
    ensures refused { IfErr result (λ e. e ≢ Memory
        → (e ≡ BadImage) × ((n : NodeView) → IsAnyImageOf bytes.now n → ⊥)) }
    ensures last { IfErr result (λ e. e ≡ Memory
        → IsTooLong (says_wide bytes.now) (length bytes.now) → ⊥) }
{
    let core = core_from_any_bytes(alloc, bytes)?;
    Node::of(alloc, core)
}

fn core_from_any_bytes(alloc: Global, bytes: &[u8]) -> Result<Core, Refusal>
    ensures read { IfOk result (λ n. IsAnyImageOf bytes.now n) }
    ensures refused { IfErr result (λ e. e ≢ Memory
        → (e ≡ BadImage) × ((n : NodeView) → IsAnyImageOf bytes.now n → ⊥)) }
    ensures last { IfErr result (λ e. e ≡ Memory
        → IsTooLong (says_wide bytes.now) (length bytes.now) → ⊥) }
{
    if begins_logged(bytes) {
        core_from_logged(alloc, bytes)
    } else {
        core_from_bytes(alloc, bytes)
    }
}

fn core_from_logged(alloc: Global, bytes: &[u8]) -> Result<Core, Refusal>
    requires { IsTrue (begins_logged bytes.now) }
    ensures read { IfOk result (λ n. IsLoggedOf bytes.now n) }
    ensures refused { IfErr result (λ e. e ≢ Memory
        → (e ≡ BadImage) × ((n : NodeView) → IsLoggedOf bytes.now n → ⊥)) }
    ensures last { IfErr result (λ e. e ≡ Memory
        → IsTooLong (says_wide bytes.now) (length bytes.now) → ⊥) }
{
    if is_too_long(bytes) {
        return Err(Refusal::BadImage);
    }
    let (layout, image) = whole_logged(alloc, bytes)?;
    restored(alloc, layout, image)
}

// The sizes of the space that an image of this layout says, if they are within the limits.
fn shape_in(layout: Layout, head: Head) -> Option<Shape>
    ensures within { IsSome result ↔ IsShape (shape_of layout head) }
    ensures value { IfSome result (λ s. s ≡ shape_of layout head) }
{
    let Head {
        nodes,
        registers,
        slots,
        ..
    } = head;
    match layout {
        Layout::First | Layout::Second => Shape::new(nodes, registers, slots),
        Layout::Wide { places, bytes } => Shape::wide(nodes, registers, slots, places, bytes),
    }
}

// The node that the image says.
fn restored(alloc: Global, layout: Layout, image: StoredNode) -> Result<Core, Refusal>
    requires { Fits layout (stored_of image) }
    ensures made { IfOk result (λ n. n ≡ node_of layout (stored_of image)) }
    ensures stands { OnOk result (IsStanding (node_of layout (stored_of image))) }
    ensures refused { IfErr result (λ e. e ≢ Memory
        → (e ≡ BadImage) × (IsStanding (node_of layout (stored_of image)) → ⊥)) }
{
    let StoredNode {
        head,
        phases,
        ring,
        reports,
        heap,
        asked,
        links,
    } = image;
    let Some(shape) = shape_in(layout, head) else {
        return Err(Refusal::BadImage);
    };
    let reports = every_report(alloc, head, reports)?;
    let (cycle, ended, swept) = (phases.cycle, phases.ended, phases.swept);
    let Some(phases) = Phases::from_parts(cycle, ended, swept, phases.cursor, reports) else {
        return Err(Refusal::BadImage);
    };
    let links = every_link(alloc, head.own, links)?;
    let parts = NodeParts {
        shape,
        own: head.own,
        heap,
        asked,
        phases,
        ring,
        links,
    };
    Core::from_parts(alloc, parts)
}

// For each node of the space its report, or 0 if the image has none.
fn every_report(alloc: Global, head: Head, told: Vec<u64>) -> Result<Vec<u64>, Refusal>
    ensures made { IfOk result (λ v. v.items ≡ reports_of head told.items) }
    ensures refused { IfErr result (λ e. e ≡ Memory) }
{
    if head.own != 0 {
        return Ok(vec![in alloc; 0; usize::from(head.nodes)]?);
    }
    let mut reports = told;
    reports.insert(0, 0)?;
    Ok(reports)
}

// The links to all nodes of the space, including the node itself.
fn every_link(alloc: Global, own: u8, stored: Vec<StoredLink>) -> Result<Vec<LinkParts>, Refusal>
    requires { own ≤ length stored.items }
    ensures sent { IfOk result
        (λ v. map link_given v.items ≡ insert (map link_of stored.items) own no_link) }
    ensures taken { IfOk result
        (λ v. map taken_given v.items ≡ insert (map received_of stored.items) own 0) }
    ensures refused { IfErr result (λ e. e ≡ Memory) }
{
    let mut links = Vec::with_capacity(alloc, stored.len())?;
    for link in stored {
        links.push(given_link(link))?;
    }
    let none = LinkParts {
        base: 0,
        messages: VecDeque::new(alloc),
        taken: 0,
    };
    links.insert(usize::from(own), none)?;
    Ok(links)
}

fn given_link(stored: StoredLink) -> LinkParts
    ensures sent { link_given result ≡ link_of stored }
    ensures taken { taken_given result ≡ received_of stored }
{
    let StoredLink {
        base,
        unacknowledged,
        received,
    } = stored;
    LinkParts {
        base,
        messages: VecDeque::from_vec(unacknowledged),
        taken: received,
    }
}
