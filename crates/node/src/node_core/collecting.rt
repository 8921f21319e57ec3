//! A node's own steps of a collection cycle. Each may be requested at any time and in any order,
//! and is refused if there is nothing to do.
ghost use Rattle.std.specs.Prelude.{◌≡◌, ◌≢◌, ◌<◌, ◌≤◌, ◌↔◌, [], true, false, not, take, length, map, IsTrue, Ok, IsSome, IfSome, IfErr, None, OnOk, OnErr};
ghost use Rattle.ids.specs.declared.limits.TheConstants.{PLAIN_PLACES};
ghost use Rattle.ids.specs.declared.refusal.Refusal.TheVariants.{LinkSpent, Memory};
ghost use Rattle.model.specs.Collecting.{handed_on, judged, places_in, reports_sweep, scanned_reference};
ghost use Rattle.model.specs.Shading.{is_calm, filled, last_grey};
ghost use Rattle.model.specs.State.{slot_at};
ghost use Rattle.model.specs.Steps.{fits};
ghost use Rattle.model.specs.View.{Performed, append_to, used, view_act, view_done};
ghost use Rattle.model.specs.declared.event.Answer.TheVariants as answer;
ghost use Rattle.model.specs.declared.event.Event.TheVariants as event;
ghost use Rattle.node.specs.Cycles.{reports};
ghost use Rattle.node.specs.Errands.{Runs, errand, scan_errand};
ghost use Rattle.node.specs.declared.node_core.errands.Extra.TheVariants.{Scanned};

use super::Core;
use super::errands::Extra;
use cycles::Verdict;
use heap::Heap;
use ids::{PLAIN_PLACES, Ref, Refusal};
use model::Answer;
use msg::Body;

// Objects with at most this many places are scanned without an allocation.
const PLACES: usize = PLAIN_PLACES as usize;

impl Core {
    /// Node 0 begins the next cycle: it joins the cycle, sends the token to the last node, and
    /// announces the cycle to all others. It fails with `NotDirector` at another node, with
    /// `CycleRunning` while the last cycle isn't swept everywhere, and with `CyclesSpent` after the
    /// greatest one. After that it fails with `LinkSpent` if a message gets no number, and with
    /// `Memory` if an allocation fails.
    #[tactic(auto, using(crate::proofs::Shading::shading), unfolding(model::specs::View::view_act))]
    pub(crate) fn begin(&mut self) -> Result<Answer, Refusal>
        ensures { Performed true result self.old self.new (view_act self.old event.Begin) }
    {
        self.may_begin()?;
        let cycle = self.cycle() + 1;
        self.run(cycle, false, &[], Extra::Begins)?;
        Ok(Answer::Begun(cycle))
    }

    /// Scans the object that turned grey last: shades what its places hold. It fails with
    /// `NothingToDo` if no object is grey. After that it fails with `LinkSpent` if a Mark gets no
    /// number, and with `Memory` if an allocation fails.
    #[tactic(auto, using(crate::proofs::Shading::shading), unfolding(model::specs::View::view_act))]
    pub(crate) fn scan(&mut self) -> Result<Answer, Refusal>
        ensures { Performed true result self.old self.new (view_act self.old event.Scan) }
    {
        let Some(slot) = self.heap.last_grey() else {
            return Err(Refusal::NothingToDo);
        };
        let scanned = self.heap.reference_at(self.own, slot);
        if self.scan_own() {
            return Ok(Answer::Scanned(scanned));
        }
        self.scan_any(slot)?;
        Ok(Answer::Scanned(scanned))
    }

    /// Scans the object that turned grey last, if it has at most two places, which name objects of
    /// this node alone, marking hasn't ended, and no memory is needed. Returns whether it was done;
    /// otherwise nothing changes.
    #[inline(always)]
    pub(crate) fn scan_own(&mut self) -> bool
        ensures done { let scanned = answer.Scanned (scanned_reference self.old.local) in
            IsTrue result
            → Performed true (Ok scanned) self.old self.new (view_act self.old event.Scan) }
        ensures unchanged { result ≡ false → self.new ≡ self.old }
    {
        let own = self.own;
        let cycle = self.cycle();
        if self.phases.ended() == cycle {
            return false;
        }
        self.heap.scan_own(own, cycle)
    }

    /// Scans the object in this slot, which turned grey last. It fails as [`Core::scan`] does after
    /// its test.
    #[inline(never)]
    fn scan_any(&mut self, slot: u32) -> Result<(), Refusal>
        requires { slot ≡ last_grey self.old.local.heap }
        ensures { Runs result (scan_errand self.old.local) self.old self.new }
    {
        let cycle = self.cycle();
        let mut places = [None; PLACES];
        match copy_places(&self.heap, slot, &mut places) {
            Some(count) => self.run(cycle, true, &places[..count], Extra::Scanned),
            None => self.scan_many(slot, cycle),
        }
    }

    /// Scans the object in this slot, however many places it has. It fails as [`Core::scan`] does
    /// after its test.
    #[inline(never)]
    fn scan_many(&mut self, slot: u32, cycle: u64) -> Result<(), Refusal>
        requires cycle { cycle ≡ self.old.local.phases.cycle }
        ensures { let held = filled (places_in (slot_at self.old.local.heap slot)) in
            Runs result (errand cycle true held Scanned self.old.local) self.old self.new }
    {
        let alloc = self.asked.allocator();
        let places = Vec::from_slice(alloc, self.heap.places(slot))?;
        self.run(cycle, true, &places, Extra::Scanned)
    }

    /// Passes the token on, or at node 0 judges it. It fails with `NothingToDo` if the node has no
    /// token or has grey objects. After that it fails with `LinkSpent` if a message gets no number,
    /// and then with `Memory` if an allocation fails.
    #[tactic(auto, unfolding(model::specs::View::view_act, model::specs::Collecting::passed))]
    pub(crate) fn pass(&mut self) -> Result<Answer, Refusal>
        ensures { Performed false result self.old self.new (view_act self.old event.Pass) }
    {
        if !self.has_token() {
            return Err(Refusal::NothingToDo);
        }
        if !self.is_calm() {
            return Err(Refusal::NothingToDo);
        }
        if self.is_director() {
            self.judge()
        } else {
            self.hand_on()
        }
    }

    /// Passes the token on to the node before this one.
    #[tactic(auto, unfolding(model::specs::Counting::append))]
    fn hand_on(&mut self) -> Result<Answer, Refusal>
        requires after_0 { 0 < self.old.local.own }
        requires token { IsSome self.old.local.ring.token }
        ensures { Performed false result self.old self.new
            (view_done self.old (handed_on self.old.local)) }
    {
        let mut ring = self.ring();
        let token = ring.forward();
        let previous = self.previous();
        self.send(previous, Body::Token(token))?;
        self.set_ring(ring);
        Ok(Answer::Passed(token))
    }

    /// Announces to all others that marking has ended, or starts another probe.
    #[tactic(auto, using(crate::proofs::Passing::judging), unfolding(model::specs::Counting::append, model::specs::Counting::announce, model::specs::Collecting::probe, model::specs::Collecting::conclude))]
    fn judge(&mut self) -> Result<Answer, Refusal>
        requires first { self.old.local.own ≡ 0 }
        requires calm { is_calm self.old.local.heap ≡ true }
        requires token { IsSome self.old.local.ring.token }
        ensures { Performed false result self.old self.new
            (view_done self.old (judged self.old.local)) }
    {
        let mut ring = self.ring();
        match ring.verdict() {
            Verdict::Ended => {
                let cycle = self.cycle();
                self.tell(Body::Ended)?;
                self.set_ring(ring);
                self.end_marking();
                Ok(Answer::Ended(cycle))
            }
            Verdict::Probe(token) => {
                let last = self.last();
                self.send(last, Body::Token(token))?;
                self.set_ring(ring);
                Ok(Answer::ProbeAgain)
            }
        }
    }

    /// Frees the unmarked objects in the next `count` slots at most. If no slot is left, it reports
    /// that to node 0. It fails with `NothingToDo` if the node knows of no cycle that is to be
    /// swept. After that it fails with `LinkSpent` if the report gets no number, and then with
    /// `Memory` if an allocation fails.
    #[tactic(auto, unfolding(model::specs::View::view_act, model::specs::Collecting::swept_slots))]
    pub(crate) fn sweep(&mut self, count: u32) -> Result<Answer, Refusal>
        ensures performed { Performed false result self.old self.new
            (view_act self.old (event.Sweep count)) }
        ensures memory_free { IsTrue (not (reports_sweep self.old.local count))
            → IfErr result (λ e. e ≢ Memory) }
    {
        if self.has_swept() {
            return Err(Refusal::NothingToDo);
        }
        if count < self.unswept() {
            let freed = self.sweep_some(count);
            return Ok(Answer::Freed {
                count: freed,
                done: false,
            });
        }
        // A sweep can't be undone, so whatever can fail comes first.
        self.report()?;
        let freed = self.sweep_rest();
        Ok(Answer::Freed {
            count: freed,
            done: true,
        })
    }

    /// Reports to node 0 that this node has swept its cycle, unless it is node 0. It fails with
    /// `LinkSpent` if the message gets no number, and after that with `Memory` if an allocation
    /// fails. The node is then as it was.
    fn report(&mut self) -> Result<(), Refusal>
        ensures fits { OnOk result
            (fits (map used self.old.links) (reports self.old.local) ≡ true) }
        ensures done { let links = append_to self.old.links (reports self.old.local) in
            OnOk result (self.new ≡ record self.old { links = links }) }
        ensures refused { IfErr result (λ e. e ≢ Memory → (e ≡ LinkSpent)
            × (fits (map used self.old.links) (reports self.old.local) ≡ false)) }
        ensures last { IfErr result (λ e. e ≡ Memory
            → fits (map used self.old.links) (reports self.old.local) ≡ true) }
        ensures other { IfErr result (λ _. self.old.local.own ≢ 0) }
        ensures unchanged { OnErr result (self.new ≡ self.old) }
    {
        if self.own != 0 {
            self.send(0, Body::Swept)?;
        }
        Ok(())
    }
}

/// Copies what the places of the object in a slot hold, since the heap changes while they are
/// shaded, and returns how many there are; or `None` if there are more than [`PLACES`].
fn copy_places(heap: &Heap, slot: u32, into: &mut [Option<Ref>; PLACES]) -> Option<usize>
    ensures value { IfSome result (λ count.
        take count into.new ≡ places_in (slot_at heap.now.heap slot)) }
    ensures few { IfSome result (λ count. count ≤ PLAIN_PLACES) }
    ensures many { result ≡ None
        ↔ (PLAIN_PLACES < length (places_in (slot_at heap.now.heap slot))) }
{
    let held = heap.places(slot);
    if held.len() > PLACES {
        return None;
    }
    into[..held.len()].copy_from_slice(held);
    Some(held.len())
}
