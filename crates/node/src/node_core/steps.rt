//! The steps of an event that can't fail. Each is one of the definitions, and keeps what holds of
//! every node.
ghost use Rattle.std.specs.Prelude.{◌≡◌, ◌≢◌, ◌==◌, ◌+◌, ◌-◌, ◌<◌, ◌≤◌, ◌^◌, false, [], Some, None, is_some, length, nat_lt, IsTrue, IfOk, IfErr, OnOk};
ghost use Rattle.ids.specs.declared.limits.TheConstants.{GREATEST_CYCLE};
ghost use Rattle.ids.specs.declared.refusal.Refusal.TheVariants.{Memory};
ghost use Rattle.model.specs.Checks.{guarded};
ghost use Rattle.cycles.specs.Phases.{MayBegin, advanced, all_swept, with_ended, with_report};
ghost use Rattle.model.specs.Collecting.{begin_tests, unswept};
ghost use Rattle.model.specs.Heaps.{fetched};
ghost use Rattle.model.specs.Heaps.{load_tests, object_at, place_loaded, place_of, with_place, with_register};
ghost use Rattle.model.specs.References.{IfAny, IsWithin};
ghost use Rattle.model.specs.Shading.{is_calm};
ghost use Rattle.model.specs.State.{got_from};
ghost use Rattle.model.specs.Steps.{count_in};
ghost use Rattle.node.specs.Cycles.{slots_swept};
ghost use Rattle.node.specs.Taking.{IsSender};

use super::Core;
use cycles::{Ring, balance_of};
use ids::{Ref, Refusal};
use msg::{Body, Frozen, Token};

impl Core {
    /// The node's cycle.
    #[inline(always)]
    pub(super) fn cycle(&self) -> u64
        ensures value { result ≡ self.now.local.phases.cycle }
        ensures within { result ≤ GREATEST_CYCLE }
    {
        self.phases.cycle()
    }

    /// Whether this is node 0, which begins and ends cycles.
    #[inline(always)]
    pub(super) fn is_director(&self) -> bool
        ensures { result ≡ (self.now.local.own == 0) }
    {
        self.own == 0
    }

    /// The node before this one, which gets the token next. Node 0 has none.
    pub(super) fn previous(&self) -> u8
        requires { 0 < self.now.local.own }
        ensures value { result ≡ self.now.local.own - 1 }
        ensures there { result < self.now.local.shape.nodes }
        ensures other { result ≢ self.now.local.own }
        ensures within { self.now.local.phases.cycle ≤ GREATEST_CYCLE }
    {
        self.own - 1
    }

    /// The last node, which gets the token first.
    pub(super) fn last(&self) -> u8
        ensures value { result ≡ self.now.local.shape.nodes - 1 }
        ensures there { result < self.now.local.shape.nodes }
        ensures other { self.now.local.own ≡ 0 → result ≢ self.now.local.own }
        ensures within { self.now.local.phases.cycle ≤ GREATEST_CYCLE }
    {
        self.shape.nodes() - 1
    }

    /// Tests whether node 0 may begin the next cycle.
    pub(super) fn may_begin(&self) -> Result<(), Refusal>
        ensures tests { result ≡ guarded (begin_tests self.now.local) tt }
        ensures first { OnOk result (self.now.local.own ≡ 0) }
        ensures ready { OnOk result (MayBegin self.now.local.phases) }
    {
        if !self.is_director() {
            return Err(Refusal::NotDirector);
        }
        self.phases.may_begin()
    }

    /// Whether no object is grey.
    #[inline(always)]
    pub(super) fn is_calm(&self) -> bool
        ensures { result ≡ is_calm self.now.local.heap }
    {
        self.heap.grey() == 0
    }

    /// Whether the node has the token.
    #[inline(always)]
    pub(super) fn has_token(&self) -> bool
        ensures { result ≡ is_some self.now.local.ring.token }
    {
        self.ring.token().is_some()
    }

    /// Whether a message of this stamp is from before the node's cycle. Its sender hadn't joined
    /// then, so what it carries is to be shaded; otherwise the sender has seen to that.
    pub(super) fn is_late(&self, stamp: u64) -> bool
        ensures { result ≡ nat_lt stamp self.now.local.phases.cycle }
    {
        self.phases.is_late(stamp)
    }

    /// What is in a place of an object of this node. `None` if the place is empty, or there is no
    /// such place or object.
    #[tactic(auto, using(crate::proofs::Shading::reading))]
    pub(super) fn place(&self, object: Ref, place: u8) -> Option<Ref>
        ensures value { result ≡ place_of (object_at self.now.local.heap object) place }
        ensures within { IfAny (IsWithin self.now.local.shape) result }
    {
        self.heap.place(object, place)
    }

    /// The word of an object of this node, as 8 bytes, and then a range of its bytes, if it has
    /// that. Nothing if there is no such object. It fails with `Memory` if an allocation fails.
    pub(super) fn fetched(
        &self,
        object: Ref,
        offset: u32,
        count: u32,
    ) -> Result<Frozen<u8>, Refusal>
        ensures value { let o = object_at self.now.local.heap object in
            IfOk result (λ b. b ≡ fetched o offset count) }
        ensures refused { IfErr result (λ e. e ≡ Memory) }
    {
        self.heap.fetched(object, offset, count)
    }

    /// What the register gets by a Load of this place.
    #[inline(always)]
    #[tactic(auto, using(crate::proofs::Shading::reading))]
    pub(super) fn loaded(
        &self,
        register: u16,
        object: u16,
        place: u8,
    ) -> Result<Option<Ref>, Refusal>
        ensures value { let heap = self.now.local.heap in
            result ≡ guarded (load_tests self.now.local.own heap register object place)
            (place_loaded heap object place) }
        ensures there { OnOk result (register < length self.now.local.heap.registers) }
        ensures within { IfOk result (IfAny (IsWithin self.now.local.shape)) }
    {
        self.heap.loaded(self.own, register, object, place)
    }

    /// Sets the register.
    pub(super) fn set_register(&mut self, register: u16, value: Option<Ref>)
        requires there { register < length self.old.local.heap.registers }
        requires within { IfAny (IsWithin self.old.local.shape) value }
        ensures { self.new ≡ record self.old {
          local = record self.old.local {
            heap = with_register self.old.local.heap register value;
          };
        } }
    {
        self.heap.set_register(register, value);
    }

    /// Sets a place of an object of this node, as [`heap::Heap::set_place`] does.
    pub(super) fn put_place(&mut self, object: Ref, place: u8, value: Option<Ref>)
        requires { IfAny (IsWithin self.old.local.shape) value }
        ensures { self.new ≡ record self.old {
          local = record self.old.local {
            heap = with_place self.old.local.own self.old.local.heap object place value;
          };
        } }
    {
        let own = self.own;
        self.heap.set_place(own, object, place, value);
    }

    /// Sets the node's part of the ring. It has no token any more, and may otherwise differ only in
    /// its colour.
    pub(super) fn set_ring(&mut self, ring: Ring)
        requires earlier { ring.earlier ≡ self.old.local.ring.earlier }
        requires recent { ring.recent ≡ self.old.local.ring.recent }
        requires left { ring.token ≡ None }
        ensures { self.new ≡ record self.old { local = record self.old.local { ring = ring } } }
    {
        self.ring = ring;
    }

    /// Holds the token, while marking goes on.
    pub(super) fn hold(&mut self, token: Token)
        requires { self.old.local.phases.ended ≢ self.old.local.phases.cycle }
        ensures { self.new ≡ record self.old {
          local = record self.old.local {
            ring = record self.old.local.ring { token = Some token };
          };
        } }
    {
        self.ring.hold(token);
    }

    /// Notes that marking has ended. No object may be grey, and the node may not have the token.
    pub(super) fn end_marking(&mut self)
        requires calm { self.old.local.heap.grey ≡ [] }
        requires free { self.old.local.ring.token ≡ None }
        ensures { self.new ≡ record self.old {
          local = record self.old.local { phases = with_ended self.old.local.phases };
        } }
    {
        self.phases.on_ended();
    }

    /// Notes at node 0 that another node has swept this cycle, which is no later than node 0's own.
    pub(super) fn note_swept(&mut self, from: u8, cycle: u64)
        requires director { self.old.local.own ≡ 0 }
        requires there { from < self.old.local.shape.nodes }
        requires other { from ≢ 0 }
        requires reached { cycle ≤ self.old.local.phases.cycle }
        ensures { self.new ≡ record self.old {
          local = record self.old.local {
            phases = with_report from cycle self.old.local.phases;
          };
        } }
    {
        self.phases.on_swept(from, cycle);
    }

    /// Whether the node has swept each cycle whose marking it knows to have ended.
    #[inline(always)]
    pub(super) fn has_swept(&self) -> bool
        ensures done { IsTrue result → self.now.local.phases.ended ≤ self.now.local.phases.swept }
        ensures left { result ≡ false
            → self.now.local.phases.swept < self.now.local.phases.ended }
    {
        self.phases.swept() >= self.phases.ended()
    }

    /// How many slots are left to be swept.
    #[inline(always)]
    pub(super) fn unswept(&self) -> u32
        ensures value { result ≡ unswept self.now.local }
        ensures inside { self.now.local.phases.cursor ≤ length self.now.local.heap.slots }
        ensures room { self.now.local.phases.cursor + result < 2 ^ 32 }
    {
        self.heap.slots() - self.phases.cursor()
    }

    /// Sweeps this many slots, and not the last one, and returns how many objects it freed. Marking
    /// has ended in the node's cycle, and the node hasn't swept it.
    pub(super) fn sweep_some(&mut self, count: u32) -> u32
        requires unfinished { self.old.local.phases.swept < self.old.local.phases.ended }
        requires some { count < unswept self.old.local }
        requires room { self.old.local.phases.cursor + count < 2 ^ 32 }
        ensures freed { result ≡ (slots_swept count self.old.local).freed }
        ensures done { self.new ≡ record self.old {
          local = record self.old.local {
            heap = (slots_swept count self.old.local).heap;
            phases = advanced count self.old.local.phases;
          };
        } }
    {
        let cursor = self.phases.cursor();
        let freed = self.heap.sweep(self.phases.cycle(), cursor, count);
        self.phases.advance(count);
        freed
    }

    /// Sweeps all slots that are left, and returns how many objects it freed. Marking has ended in
    /// the node's cycle, and the node hasn't swept it.
    pub(super) fn sweep_rest(&mut self) -> u32
        requires { self.old.local.phases.swept < self.old.local.phases.ended }
        ensures freed { result ≡ (slots_swept (unswept self.old.local) self.old.local).freed }
        ensures done { self.new ≡ record self.old {
          local = record self.old.local {
            heap = (slots_swept (unswept self.old.local) self.old.local).heap;
            phases = all_swept self.old.local.phases;
          };
        } }
    {
        let cursor = self.phases.cursor();
        let left = self.heap.slots() - cursor;
        let freed = self.heap.sweep(self.phases.cycle(), cursor, left);
        self.phases.end_sweep();
        freed
    }

    /// Counts the next message from a node as received.
    #[inline(always)]
    #[tactic(auto, unfolding(model::specs::Steps::count_in))]
    pub(super) fn count_in(&mut self, from: u8, stamp: u64, body: &Body)
        requires { IsSender self.old.local from }
        ensures { self.new ≡ record self.old {
          local = count_in from (got_from self.old.local from + 1) stamp body.now self.old.local;
        } }
    {
        self.links.take_next(from);
        self.ring
            .count_received(balance_of(self.phases.cycle(), stamp, body));
    }
}
