//! Tests of a saved node's parts that need no memory: all parts except the grey list, what was
//! asked for, and the links. Each test is one part of what holds of every node.
ghost use Rattle.std.specs.Prelude.{◌≡◌, ◌↔◌, ◌+◌, ◌-◌, ◌<◌, length, map, nat_le, slice_index_or};
ghost use Rattle.std.specs.Prelude.{is_some, true, false, IsTrue};
ghost use Rattle.std.specs.List.{list_all};
ghost use Rattle.ids.specs.Limits.{IsShape};
ghost use Rattle.model.specs.Heaps.{no_letter};
ghost use Rattle.model.specs.Shading.{is_calm};
ghost use Rattle.arena_slot.specs.Slot.{slot_read};
ghost use Rattle.heap.specs.Heap.{slot_of};
ghost use Rattle.node.specs.Parts.{
  local_given,
  is_named,
  is_any_named,
  is_letter,
  is_modest,
  are_whole,
  is_object,
  is_slot,
  is_report,
  AreHeard,
  HoldsNamed,
  IsAtHome,
};

use super::NodeParts;
use heap::{Object, Slot, Slots};
use ids::{Ref, Shape};
use model::{Age, Letter};
use std::collections::VecDeque;

/// Whether all of this may be a saved node's.
pub(super) fn is_at_home(parts: &NodeParts) -> bool
    ensures home { IsTrue result ↔ IsAtHome (local_given parts.now) }
    ensures shape { IsShape parts.now.shape }
{
    let (shape, own, cycle) = (parts.shape, parts.own, parts.phases.cycle());
    if own >= shape.nodes() || parts.phases.cursor() as usize > parts.heap.slots.len() {
        return false;
    }
    if cycle <= parts.phases.ended() && !is_at_rest(parts) {
        return false;
    }
    are_heard(own, shape.nodes(), parts.phases.reports()) && holds_named(parts)
}

// Whether nothing is grey and no token is held.
fn is_at_rest(parts: &NodeParts) -> bool
    ensures { IsTrue result
        ↔ (is_calm (local_given parts.now).heap ≡ true)
        × (is_some (local_given parts.now).ring.token ≡ false) }
{
    parts.heap.grey.is_empty() && parts.ring.token().is_none()
}

// Whether what the slots, the registers and the letters hold may be a node's.
fn holds_named(parts: &NodeParts) -> bool
    ensures { IsTrue result ↔ HoldsNamed (local_given parts.now) }
{
    let (shape, own, cycle) = (parts.shape, parts.own, parts.phases.cycle());
    are_slots(shape, cycle, &parts.heap.slots)
        && are_any_named(shape, &parts.heap.registers)
        && are_letters(shape, own, &parts.heap.letters)
        && are_whole(&parts.heap.letters)
}

/// Whether a reference is within the shape.
pub(super) fn is_named(shape: Shape, reference: Ref) -> bool
    ensures { result ≡ is_named shape reference }
{
    reference.node < shape.nodes() && reference.slot < shape.slots() && reference.generation >= 1
}

pub(super) fn is_any_named(shape: Shape, reference: Option<Ref>) -> bool
    ensures { result ≡ is_any_named shape reference }
{
    match reference {
        Some(reference) => is_named(shape, reference),
        None => true,
    }
}

pub(super) fn are_any_named(shape: Shape, references: &[Option<Ref>]) -> bool
    ensures { result ≡ list_all (is_any_named shape) references.now }
{
    references
        .iter()
        .all(|reference| is_any_named(shape, *reference))
}

// Whether the letter has at most one reference and no bytes, if the space is plain.
fn is_modest(shape: Shape, letter: &Letter) -> bool
    ensures { result ≡ is_modest shape letter.now }
{
    shape.is_wide() || (letter.more == 0 && letter.bytes.len() == 0)
}

fn is_letter(shape: Shape, own: u8, letter: &Letter) -> bool
    ensures { result ≡ is_letter shape own letter.now }
{
    letter.from < shape.nodes()
        && letter.from != own
        && (is_modest(shape, letter) && is_any_named(shape, letter.reference))
}

fn are_letters(shape: Shape, own: u8, letters: &VecDeque<Letter>) -> bool
    ensures { result ≡ list_all (is_letter shape own) letters.now.items }
{
    letters.iter().all(|letter| is_letter(shape, own, letter))
}

// Whether after each letter as many follow as it says.
fn are_whole(letters: &VecDeque<Letter>) -> bool
    ensures { result ≡ are_whole letters.now.items }
{
    for number in 0..letters.len() {
        if !is_whole(letters, number) {
            return false;
        }
    }
    true
}

// Whether after this letter as many follow as it says.
fn is_whole(letters: &VecDeque<Letter>, number: usize) -> bool
    requires { number < length letters.now.items }
    ensures { result ≡ nat_le (slice_index_or letters.now.items number no_letter).more
        (length letters.now.items - (number + 1)) }
{
    match letters.get(number) {
        Some(letter) => usize::from(letter.more) <= letters.len() - (number + 1),
        None => true,
    }
}

#[inline(always)]
fn is_slot(shape: Shape, cycle: u64, slot: Slot<&Object>) -> bool
    ensures { result ≡ is_slot shape cycle (slot_of (slot_read slot.entry)) }
{
    match slot {
        Slot::Free(generation) => generation >= 2,
        Slot::Occupied(_, object) => is_object(shape, cycle, object),
        Slot::Retired => true,
    }
}

fn is_object(shape: Shape, cycle: u64, object: &Object) -> bool
    ensures { result ≡ is_object shape cycle object.now }
{
    let places = object.contents();
    object.marked_by() <= cycle
        && (shape.is_wide() || (object.is_shared() && object.age() == Age::Old))
        && places.len() <= usize::from(shape.places())
        && object.bytes().len() <= shape.bytes() as usize
        && are_any_named(shape, places)
}

#[tactic(auto, using(crate::proofs::Listed::tested))]
fn are_slots(shape: Shape, cycle: u64, slots: &Slots<Object>) -> bool
    ensures { result ≡ list_all (is_slot shape cycle) (map slot_of slots.now.items) }
{
    for number in 0..slots.len() {
        if !is_slot(shape, cycle, slots.slot(number)) {
            return false;
        }
    }
    true
}

fn is_report(own: u8, node: usize, report: u64) -> bool
    ensures { result ≡ is_report own node report }
{
    report == 0 || (own == 0 && node > 0)
}

/// Whether these are the reports of the nodes of the space. A node has no report of itself, and a
/// node other than 0 has none at all.
fn are_heard(own: u8, nodes: u8, reports: &[u64]) -> bool
    ensures { IsTrue result ↔ AreHeard own nodes reports.now }
{
    if reports.len() != usize::from(nodes) {
        return false;
    }
    for (node, report) in reports.iter().enumerate() {
        if !is_report(own, node, *report) {
            return false;
        }
    }
    true
}
