//! The lists of a saved node that name each thing once. Each entry is read once; entries
//! aren't compared with all the others.
ghost use Rattle.std.specs.Prelude.{◌≡◌, ◌≢◌, ◌↔◌, ℕ, ◌<◌, length, map, true, IsTrue, IfOk, IfErr, OnOk};
ghost use Rattle.ids.specs.declared.refusal.Refusal.TheVariants.{BadImage, Memory};
ghost use Rattle.heap.specs.Heap.{slot_of};
ghost use Rattle.node.specs.Parts.{is_foreign, is_marked_in, AreAsked, AreGreyIn};

use super::home::is_named;
use heap::{Object, Slot, Slots};
use ids::{Ref, Refusal, Shape};
use remote_marks::RefSet;
use std::alloc::{AllocError, Global};

fn is_foreign(shape: Shape, own: u8, reference: Ref) -> bool
    ensures { result ≡ is_foreign shape own reference }
{
    is_named(shape, reference) && reference.node != own
}

/// Makes the set of these references, in their order. It fails with [`Refusal::BadImage`] if one of
/// them isn't another node's or occurs twice, and with [`Refusal::Memory`] if an allocation fails.
#[tactic(auto, using(crate::proofs::Lists::refusing))]
pub(super) fn asked_once(
    alloc: Global,
    shape: Shape,
    own: u8,
    references: &[Ref],
) -> Result<RefSet, Refusal>
    ensures made { IfOk result (λ s. s.keys ≡ references.now) }
    ensures right { OnOk result (AreAsked shape own references.now) }
    ensures refused { IfErr result (λ e.
        e ≢ Memory → (e ≡ BadImage) × (AreAsked shape own references.now → ⊥)) }
{
    let mut asked = RefSet::new(alloc);
    for reference in references {
        if !is_foreign(shape, own, *reference) {
            return Err(Refusal::BadImage);
        }
        if !asked.insert(*reference)? {
            return Err(Refusal::BadImage);
        }
    }
    Ok(asked)
}

/// Whether the list names objects in these slots that the cycle has marked, each once. It needs
/// memory for one flag per slot, in which it notes the slots seen so far.
pub(super) fn are_grey(
    alloc: Global,
    cycle: u64,
    slots: &Slots<Object>,
    grey: &[u32],
) -> Result<bool, AllocError>
    ensures { IfOk result (λ b. IsTrue b ↔ AreGreyIn cycle (map slot_of slots.now.items) grey.now) }
{
    let mut came = vec![in alloc; false; slots.len()]?;
    for slot in grey {
        if !is_marked(cycle, slots, *slot) {
            return Ok(false);
        }
        if came[*slot as usize] {
            return Ok(false);
        }
        came[*slot as usize] = true;
    }
    Ok(true)
}

// Whether there is an object in the slot that the cycle has marked.
fn is_marked(cycle: u64, slots: &Slots<Object>, slot: u32) -> bool
    ensures value { result ≡ is_marked_in cycle (map slot_of slots.now.items) slot }
    ensures there { result ≡ true → slot < length slots.now.items }
{
    if slot as usize >= slots.len() {
        return false;
    }
    match slots.slot(slot as usize) {
        Slot::Occupied(_, object) => object.marked_by() == cycle,
        _ => false,
    }
}
