//! Tests of the links of a saved node's parts, and the number of messages that the links count. A
//! balance is no larger than that number, whatever its sign.
ghost use Rattle.std.specs.Prelude.{◌≡◌, ◌↔◌, ◌&&◌, map, nat_le, IsTrue};
ghost use Rattle.std.specs.List.{list_all};
ghost use Rattle.cycles.specs.Balances.{IsBounded};
ghost use Rattle.ids.specs.declared.limits.TheConstants.{GREATEST_LETTER};
ghost use Rattle.model.specs.Shading.{filled};
ghost use Rattle.model.specs.Steps.{mentioned};
ghost use Rattle.node.specs.Invariant.{number_sum};
ghost use Rattle.node.specs.Parts.{is_named, is_placed, is_message, are_messages, AreAtEnds};
ghost use Rattle.model.specs.View.{used};
ghost use Rattle.link.specs.Links.{link_at, got_at};
ghost use Rattle.link.specs.Parts.{link_given, links_given};

use super::home::{are_any_named, is_any_named, is_named};
use cycles::Ring;
use ids::{GREATEST_LETTER, Ref, Shape};
use link::{LinkParts, Links};
use msg::{Body, Message, fetch_fits};
use std::collections::VecDeque;

/// Whether these are the ends of the links to the nodes of the shape. Their messages have to be
/// ones that a node in this cycle may have sent, and the link to the node itself has to be empty.
pub(super) fn are_at_ends(shape: Shape, own: u8, cycle: u64, links: &[LinkParts]) -> bool
    ensures { IsTrue result ↔ AreAtEnds shape own cycle (links_given links.now) }
{
    if links.len() != usize::from(shape.nodes()) {
        return false;
    }
    if !are_sent(shape, cycle, links) {
        return false;
    }
    is_unused(own, links)
}

// Whether a node in this cycle may have sent the messages on every link.
#[tactic(auto, using(crate::proofs::Listed::tested))]
fn are_sent(shape: Shape, cycle: u64, links: &[LinkParts]) -> bool
    ensures { result ≡ list_all (are_messages shape cycle) (map link_given links.now) }
{
    is_each_sent(shape, cycle, links)
}

fn is_each_sent(shape: Shape, cycle: u64, links: &[LinkParts]) -> bool
    ensures { result ≡ list_all (λ p. are_messages shape cycle (link_given p)) links.now }
{
    links
        .iter()
        .all(|link| are_messages(shape, cycle, &link.messages))
}

// Whether nothing was sent or received on the link of this node.
fn is_unused(own: u8, links: &[LinkParts]) -> bool
    ensures unused { IsTrue result
        ↔ (used (link_at (links_given links.now) own) ≡ 0)
        × (got_at (links_given links.now) own ≡ 0) }
{
    match links.get(usize::from(own)) {
        Some(link) => link.base == 0 && link.messages.is_empty() && link.taken == 0,
        None => true,
    }
}

fn are_messages(shape: Shape, cycle: u64, messages: &VecDeque<Message>) -> bool
    ensures { result ≡ list_all (is_message shape cycle) messages.now.items }
{
    messages
        .iter()
        .all(|message| is_message(shape, cycle, message))
}

fn is_message(shape: Shape, cycle: u64, message: &Message) -> bool
    ensures { result ≡ is_message shape cycle message.now }
{
    message.stamp <= cycle && are_named(shape, &message.body) && is_placed(shape, &message.body)
}

// Whether every reference in the body is within the shape.
fn are_named(shape: Shape, body: &Body) -> bool
    ensures { result ≡ list_all (is_named shape) (mentioned body.now) }
{
    match *body {
        Body::Begin | Body::Token(_) | Body::Ended | Body::Swept => true,
        Body::Mark { target } | Body::Get { target, .. } | Body::Fetch { target, .. } => {
            is_named(shape, target)
        }
        Body::Give { reference, .. } => is_any_named(shape, reference),
        Body::Put {
            target,
            reference,
            ..
        } => is_named(shape, target) && is_any_named(shape, reference),
        Body::Post { ref references, .. } => are_all_named(shape, references.as_slice()),
    }
}

// Whether these references are within the shape.
fn are_all_named(shape: Shape, references: &[Option<Ref>]) -> bool
    ensures { result ≡ list_all (is_named shape) (filled references.now) }
{
    are_any_named(shape, references)
}

/// Whether an object of the space may have the place that the body names, and whether the space has
/// letters as large as the body is or asks for.
pub(in super::super) fn is_placed(shape: Shape, body: &Body) -> bool
    ensures { result ≡ is_placed shape body.now }
{
    match *body {
        Body::Put { place, .. } | Body::Get { place, .. } => place < shape.places(),
        Body::Post {
            ref references,
            ref bytes,
            ..
        } => shape.is_wide() && is_letter_size(shape, references.len(), bytes.len()),
        Body::Fetch { count, .. } => shape.is_wide() && fetch_fits(count),
        _ => true,
    }
}

/// Whether the space has letters with as many references and bytes.
pub(in super::super) fn is_letter_size(shape: Shape, references: usize, bytes: usize) -> bool
    ensures { result
        ≡ (nat_le references shape.places && nat_le bytes GREATEST_LETTER) }
{
    references <= usize::from(shape.places()) && bytes <= GREATEST_LETTER as usize
}

/// The number of messages appended and of messages received, together, on all links.
pub(super) fn number_sum(links: &Links) -> u64
    ensures { result ≡ number_sum links.now.links links.now.got }
{
    let mut sum = 0;
    for node in 0..links.width() {
        sum += links.used(node) + links.taken(node);
    }
    sum
}

/// Whether the two balances together are no larger than this number, whatever their signs.
pub(super) fn is_bounded(ring: Ring, most: u64) -> bool
    ensures { IsTrue result ↔ IsBounded most ring }
{
    let (earlier, recent) = (ring.earlier().unsigned_abs(), ring.recent().unsigned_abs());
    earlier <= most && recent <= most - earlier
}
