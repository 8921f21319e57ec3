//! Asks for what a node's program holds when the node joins a cycle: its roots make a new set. The
//! heap isn't touched here, so whatever can fail comes before anything is marked.
ghost use Rattle.std.specs.Prelude.{◌≡◌, [], ◌<◌, ◌≤◌, ◌^◌, length, IfOk, IfErr, OnOk, OnErr};
ghost use Rattle.std.specs.List.{AllByRecursion};
ghost use Rattle.ids.specs.declared.limits.TheConstants.{GREATEST_NODES, GREATEST_SENT};
ghost use Rattle.model.specs.Shading.{filled, roots, unasked, marks_for};
ghost use Rattle.link.specs.Links.{IsLinks};
ghost use Rattle.remote_marks.specs.Asked.{IsAsked, IsRefused};

use heap::Heap;
use ids::{Ref, Refusal};
use link::Links;
use remote_marks::{RefSet, append_marks, include};
use std::alloc::Global;

/// Asks for what the node's program holds, as a node does when it joins this cycle. The references
/// in registers and letters that are other nodes' make a new set, each once, and a Mark of each
/// comes last on the link to its node, in the same order. The heap stays as it is. If a later step
/// fails, [`unask`](remote_marks::unask) of the new set with `before` 0 retracts all the Marks.
///
/// It fails with [`Refusal::Memory`] if an allocation fails, and with [`Refusal::LinkSpent`] if a
/// Mark gets no number, which may show only after memory was needed for others. The links are then
/// as they were.
pub(crate) fn ask_for_roots(
    alloc: Global,
    heap: &Heap,
    links: &mut Links,
    own: u8,
    cycle: u64,
) -> Result<RefSet, Refusal>
    requires nodes { AllByRecursion (λ r. r.node < length links.old.links)
        (filled (roots heap.now.heap)) }
    ensures done { let new = unasked own [] (filled (roots heap.now.heap)) in
        IfOk result (λ asked. IsAsked [] new cycle links.old asked.keys links.new) }
    ensures few { length links.old.links ≤ GREATEST_NODES →
        IfOk result (λ asked. length asked.keys ≤ GREATEST_SENT) }
    ensures refused { let new = unasked own [] (filled (roots heap.now.heap)) in
        IfErr result (IsRefused links.old (marks_for cycle new)) }
    ensures unchanged { OnErr result (links.new ≡ links.old) }
    ensures width { length links.new.links ≡ length links.old.links }
    ensures sound { OnOk result (IsLinks links.new) }
{
    let mut asked = RefSet::new(alloc);
    for number in 0..heap.root_count() {
        include(&mut asked, own, heap.root(number))?;
    }
    append_marks(links, cycle, asked.as_slice())?;
    Ok(asked)
}
