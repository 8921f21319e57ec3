//! What a message of a later cycle does: the node joins that cycle, and then receives the message
//! as a node that has joined. Any message from a node that has joined makes its receiver join;
//! Begin only makes it happen sooner.
//!
//! What was counted for the next cycle now counts in this one, since it dates from before the
//! cycle. The node becomes black: until it joins it counts as black and active, since it has shaded
//! nothing yet, and this is how the token learns that. What was asked for in an earlier cycle no
//! longer counts. Registers and letters are all that a program holds, and they are shaded; a letter
//! that isn't accepted yet is as good as a register.
ghost use Rattle.std.specs.Prelude.{◌≡◌, ◌<◌, ◌≤◌, true, [], ◌++◌, cond, is_none, length, map, IfOk, IfErr, OnOk, OnErr};
ghost use Rattle.std.specs.List.{AllByRecursion, list_all};
ghost use Rattle.ids.specs.declared.limits.TheConstants.{
  GREATEST_NODES,
  GREATEST_PLACES,
  GREATEST_SENT,
};
ghost use Rattle.model.specs.Effects.{then};
ghost use Rattle.model.specs.References.{IsWithin};
ghost use Rattle.heap.specs.Heap.{Became};
ghost use Rattle.model.specs.Shading.{filled, join, make_all_grey, marks_for, roots, unasked};
ghost use Rattle.model.specs.Steps.{fits};
ghost use Rattle.model.specs.View.{used};
ghost use Rattle.link.specs.Links.{IsLinks};
ghost use Rattle.remote_marks.specs.Asked.{AreSent, IsAsked, IsRefused, all_appended};
ghost use Rattle.node.specs.Errands.{HasEnds, IsFit, MayJoin, Runs, errand_here, extra_sends};

use super::Core;
use super::errands::{Extra, bytes_in, count, letters_in, mark, send_out};
use crate::roots::ask_for_roots;
use heap::Heap;
use ids::{Ref, Refusal};
use link::Links;
use remote_marks::{RefSet, unask};
use std::alloc::Global;

/// What a node that joins a cycle has asked for, and how many Marks it has sent.
#[derive(Drop)]
struct Sought {
    asked: RefSet,
    /// For what its program holds.
    roots: usize,
    /// For the other references of the errand.
    marks: usize,
}

impl Core {
    /// Runs an errand by which the node joins this cycle: what its program holds is seen to first.
    #[inline(never)]
    pub(super) fn run_joining(
        &mut self,
        cycle: u64,
        due: bool,
        references: &[Option<Ref>],
        extra: Extra,
    ) -> Result<(), Refusal>
        requires joins { MayJoin cycle self.old.local.phases }
        requires within { AllByRecursion (IsWithin self.old.local.shape) (filled references.now) }
        requires few { length references.now ≤ GREATEST_PLACES }
        requires extra { IsFit self.old.local.shape self.old.local.own extra }
        ensures { let here = errand_here due (filled references.now) extra.entry in
            Runs result (then (join self.old.local cycle) here) self.old self.new }
    {
        let own = self.own;
        let bytes = bytes_in(extra)?;
        let room = self.heap.root_count() + references.len();
        self.heap.make_room(room, letters_in(extra))?;
        let alloc = self.asked.allocator();
        let Sought {
            asked,
            roots,
            marks,
        } = send_joining(
            alloc,
            &self.heap,
            &mut self.links,
            own,
            cycle,
            due,
            references,
            extra,
        )?;
        // From here on nothing can fail.
        shade_held(&mut self.heap, own, cycle);
        mark(&mut self.heap, own, cycle, references, extra, bytes);
        self.asked = asked;
        self.phases.join(cycle);
        self.ring.join();
        self.ring.count_marks(roots as u64);
        count(&mut self.ring, cycle, marks, extra);
        Ok(())
    }
}

/// Asks for what the node's program holds, into a new set. Then it does what else of the errand can
/// fail. All of it or nothing is done.
#[tactic(auto, using(crate::proofs::Sends::sending))]
fn send_joining(
    alloc: Global,
    heap: &Heap,
    links: &mut Links,
    own: u8,
    cycle: u64,
    due: bool,
    references: &[Option<Ref>],
    extra: Extra,
) -> Result<Sought, Refusal>
    requires roots { AllByRecursion (λ r. r.node < length links.old.links)
        (filled (roots heap.now.heap)) }
    requires nodes { AllByRecursion (λ r. r.node < length links.old.links)
        (filled references.now) }
    requires ends { HasEnds (length links.old.links) extra }
    requires many { length links.old.links ≤ GREATEST_NODES }
    requires sound { IsLinks links.old }
    ensures keys { let first = unasked own [] (filled (roots heap.now.heap)) in
        IfOk result (λ s. s.asked.keys ≡ first ++ unasked own first (filled references.now)) }
    ensures roots { let first = unasked own [] (filled (roots heap.now.heap)) in
        IfOk result (λ s. s.roots ≡ length first) }
    ensures marks { let first = unasked own [] (filled (roots heap.now.heap)) in
        let new = unasked own first (filled references.now) in
        IfOk result (λ s. s.marks ≡ length (cond due new [])) }
    ensures few_roots { IfOk result (λ s. s.roots ≤ GREATEST_SENT) }
    ensures few { IfOk result (λ s. s.marks ≤ GREATEST_SENT) }
    ensures fits { let first = unasked own [] (filled (roots heap.now.heap)) in
        OnOk result (fits (map used links.old.links) (marks_for cycle first) ≡ true) }
    ensures done { let first = unasked own [] (filled (roots heap.now.heap)) in
        let new = unasked own first (filled references.now) in
        let sends = extra_sends own (length links.old.links) cycle extra.entry in
        OnOk result (AreSent (marks_for cycle (cond due new []) ++ sends)
        (all_appended links.old (marks_for cycle first)) links.new) }
    ensures joined { let first = unasked own [] (filled (roots heap.now.heap)) in
        OnOk result (IsLinks (all_appended links.old (marks_for cycle first))) }
    ensures marked { let first = unasked own [] (filled (roots heap.now.heap)) in
        let new = unasked own first (filled references.now) in
        let joined = all_appended links.old (marks_for cycle first) in
        OnOk result (IsLinks (all_appended joined (marks_for cycle (cond due new [])))) }
    ensures refused { let first = unasked own [] (filled (roots heap.now.heap)) in
        let new = unasked own first (filled references.now) in
        let sends = extra_sends own (length links.old.links) cycle extra.entry in
        IfErr result (IsRefused links.old
        (marks_for cycle first ++ (marks_for cycle (cond due new []) ++ sends))) }
    ensures unchanged { OnErr result (links.new ≡ links.old) }
    ensures sound { OnOk result (IsLinks links.new) }
{
    let mut asked = ask_for_held(alloc, heap, links, own, cycle)?;
    let roots = asked.len();
    match send_out(&mut asked, links, own, cycle, due, references, extra) {
        Ok(marks) => Ok(Sought {
            asked,
            roots,
            marks,
        }),
        Err(refusal) => {
            unask(&mut asked, links, 0);
            Err(refusal)
        }
    }
}

// Whether all are empty. (It looks at all of them, because a test after each takes longer.)
fn are_empty(registers: &[Option<Ref>]) -> bool
    ensures { result ≡ list_all is_none registers.now }
{
    let mut empty = true;
    for register in registers {
        empty = empty & register.is_none();
    }
    empty
}

/// Whether a program holds no reference, and no letter waits for it. Most joins of a node that is
/// idle are such.
#[tactic(auto, using(crate::proofs::Nothing::nothing_held))]
fn holds_nothing(heap: &Heap) -> bool
    ensures { result ≡ true → filled (roots heap.now.heap) ≡ [] }
{
    heap.letters() == 0 && are_empty(heap.registers())
}

/// Shades what the program holds, as [`Heap::shade_roots`] does.
fn shade_held(heap: &mut Heap, own: u8, cycle: u64)
    requires { length (roots heap.old.heap) ≤ heap.old.room }
    ensures { Became heap.old heap.new
        (make_all_grey own cycle heap.old.heap (filled (roots heap.old.heap)))
        (length (roots heap.old.heap)) }
{
    if !holds_nothing(heap) {
        heap.shade_roots(own, cycle);
    }
}

/// Asks for what the program holds, as [`ask_for_roots`] does.
fn ask_for_held(
    alloc: Global,
    heap: &Heap,
    links: &mut Links,
    own: u8,
    cycle: u64,
) -> Result<RefSet, Refusal>
    requires nodes { AllByRecursion (λ r. r.node < length links.old.links)
        (filled (roots heap.now.heap)) }
    requires sound { IsLinks links.old }
    ensures done { let new = unasked own [] (filled (roots heap.now.heap)) in
        IfOk result (λ asked. IsAsked [] new cycle links.old asked.keys links.new) }
    ensures few { length links.old.links ≤ GREATEST_NODES →
        IfOk result (λ asked. length asked.keys ≤ GREATEST_SENT) }
    ensures refused { let new = unasked own [] (filled (roots heap.now.heap)) in
        IfErr result (IsRefused links.old (marks_for cycle new)) }
    ensures unchanged { OnErr result (links.new ≡ links.old) }
    ensures width { length links.new.links ≡ length links.old.links }
    ensures sound { OnOk result (IsLinks links.new) }
{
    if holds_nothing(heap) {
        return Ok(RefSet::new(alloc));
    }
    ask_for_roots(alloc, heap, links, own, cycle)
}
