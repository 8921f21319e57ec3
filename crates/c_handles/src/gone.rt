//! The list of the objects that are gone from a node, as its program asks for them. An event that
//! frees objects lists them. They are ready once the program can't get a node back that has them:
//! when an image or a batch is kept that was made after they went.
//!
//! What an event may free is listed before it, since only then are the words there, and so that a
//! lack of memory refuses the event. Afterwards what the node still has is taken out.
ghost use Rattle.std.specs.Prelude.{◌≡◌, ℕ, ◌+◌, ◌<◌, ◌≤◌, ◌++◌, [], ◌∷◌, drop, filter, length, take, true, IfErr, OnOk};
ghost use Rattle.ids.specs.declared.refusal.Refusal.TheVariants.{Memory};
ghost use Rattle.model.specs.Checks.{AllPass};
ghost use Rattle.model.specs.Collecting.{is_garbage};
ghost use Rattle.model.specs.Reclaiming.{is_in_scope};
ghost use Rattle.model.specs.State.{Occupied, slot_at};
ghost use Rattle.model.specs.Steps.{tests};
ghost use Rattle.model.specs.declared.event.Event.TheVariants as events;
ghost use Rattle.c_handles.specs.Candidates.{ActsListing, Adds, AreFreed, Expects, Leaves};
ghost use Rattle.c_handles.specs.Candidates.{confirming, is_left_out, leaving};
ghost use Rattle.model.specs.Steps.{frees};
ghost use Rattle.c_handles.specs.Gone.{HandsOut, covering, emptying, entries_in, entry_of};
ghost use Rattle.c_handles.specs.Gone.{keeping, settling, tracking, untracked};

use c_values::{CFreed, CRef};
use heap::{Object, Slot};
use ids::{Generation, Refusal};
use model::{Age, Answer, Event, Scope};
use node::Core;
use node_store::LoggedNode;
use std::alloc::Global;
use std::collections::VecDeque;
use std::marker::Model;

/// Whether the event frees objects.
#[inline(always)]
pub(crate) fn frees(event: &Event) -> bool
    ensures { result ≡ frees event.now }
{
    matches!(event, Event::Sweep { .. } | Event::Reclaim { .. })
}

/// The objects that are gone from a node and weren't handed out.
#[derive(Drop)]
pub(crate) struct GoneList {
    tracks: bool,
    // In the order in which they went.
    list: VecDeque<CFreed>,
    // How many of them were gone when the last image or batch was made, and how many of these are
    // gone in the kept node too.
    covered: usize,
    ready: usize,
}

impl Model for GoneList {
    ghost use Rattle.std.specs.Prelude.{◌≤◌, length};
    ghost use Rattle.c_handles.specs.Gone.{GoneView};

    ghost Value = { GoneView };

    ghost view = { λ g. record {
      tracks = g.tracks;
      list = g.list.items;
      covered = g.covered;
      ready = g.ready;
    } };

    ghost invariant = { λ g. (g.ready ≤ g.covered) × (g.covered ≤ length g.list.items) };
}

impl GoneList {
    /// No list is kept.
    pub(crate) fn new(alloc: Global) -> GoneList
        ensures { result ≡ untracked }
    {
        GoneList {
            tracks: false,
            list: VecDeque::new(alloc),
            covered: 0,
            ready: 0,
        }
    }

    /// Whether a list is kept.
    #[inline(always)]
    pub(crate) fn tracks(&self) -> bool
        ensures { result ≡ self.now.tracks }
    {
        self.tracks
    }

    /// Keeps a list from now on, or none. If one is kept already, nothing changes.
    pub(crate) fn track(&mut self, on: bool)
        ensures { self.new ≡ tracking on self.old }
    {
        if on && self.tracks {
            return;
        }
        self.tracks = on;
        self.list = VecDeque::new(*self.list.allocator());
        self.covered = 0;
        self.ready = 0;
    }

    /// An image or a batch was made.
    pub(crate) fn cover(&mut self)
        ensures { self.new ≡ covering self.old }
    {
        self.covered = self.list.len();
    }

    /// The last image or batch is kept.
    pub(crate) fn kept(&mut self)
        ensures { self.new ≡ keeping self.old }
    {
        self.ready = self.covered;
    }

    /// What is gone won't be in any node that is kept later.
    pub(crate) fn settle(&mut self)
        ensures { self.new ≡ settling self.old }
    {
        self.covered = self.list.len();
        self.ready = self.covered;
    }

    /// Nothing is listed any more.
    pub(crate) fn empty(&mut self)
        ensures { self.new ≡ emptying self.old }
    {
        self.list.clear();
        self.covered = 0;
        self.ready = 0;
    }

    /// Hands out what is ready, as much as the buffer has room for, and returns how much.
    pub(crate) fn hand_out(&mut self, buffer: &mut [CFreed]) -> usize
        ensures { HandsOut self.old self.new result buffer.old buffer.new }
    {
        let count = self.ready.min(buffer.len());
        move_out(&mut self.list, buffer, count);
        self.covered -= count;
        self.ready -= count;
        count
    }

    /// Lists what the event may free, behind what is listed, and returns how much was listed
    /// before. It fails with `Memory` if the list can't grow, unless the node refuses the event;
    /// nothing is listed then.
    pub(crate) fn expect(&mut self, core: &Core, event: &Event) -> Result<usize, Refusal>
        ensures { Expects core.now.local event.now self.old self.new result }
    {
        let before = self.list.len();
        let added = add_candidates(&mut self.list, core, event);
        if added.is_err() {
            self.list.truncate(before);
        }
        added?;
        Ok(before)
    }

    /// The event was refused, so nothing is gone of what was listed behind the first `before`.
    #[inline(always)]
    pub(crate) fn withdraw(&mut self, before: usize)
        requires { self.old.covered ≤ before }
        ensures { self.new ≡ record self.old { list = take before self.old.list } }
    {
        self.list.truncate(before);
    }

    /// The event was answered. What the node still has of what was listed behind the first `before`
    /// is taken out.
    #[inline(always)]
    pub(crate) fn confirm(&mut self, core: &Core, event: &Event, before: usize)
        requires bound { (self.old.covered ≤ before) × (before ≤ length self.old.list) }
        requires freed { AreFreed event.now core.now.local.heap (drop before self.old.list) }
        ensures { self.new ≡ confirming before core.now.local.heap self.old }
    {
        // (a sweep frees all that was listed)
        if !matches!(event, Event::Sweep { .. }) {
            take_out(&mut self.list, core, before);
        }
    }

    /// Gives the node an event that frees objects, and lists these. It fails as the node does, and
    /// with `Memory` if the list can't grow.
    pub(crate) fn act(&mut self, logged: &mut LoggedNode, event: &Event) -> Result<Answer, Refusal>
        requires frees { frees event.now ≡ true }
        requires tracks { self.old.tracks ≡ true }
        ensures { ActsListing logged.old self.old logged.new self.new event.now result }
    {
        let before = self.expect(logged.node.core(), event)?;
        match logged.act(event) {
            Ok(answer) => {
                self.confirm(logged.node.core(), event, before);
                Ok(answer)
            }
            Err(refusal) => {
                self.withdraw(before);
                Err(refusal)
            }
        }
    }
}

// Moves the first entries to the front of the buffer.
fn move_out(list: &mut VecDeque<CFreed>, buffer: &mut [CFreed], count: usize)
    requires there { count ≤ length list.old.items }
    requires room { count ≤ length buffer.old }
    ensures left { list.new.items ≡ drop count list.old.items }
    ensures moved { buffer.new ≡ take count list.old.items ++ drop count buffer.old }
{
    for place in 0..count {
        if let Some(freed) = list.pop_front() {
            buffer[place] = freed;
        }
    }
}

// Takes out, of what is listed behind the first `before`, what the node has.
fn take_out(list: &mut VecDeque<CFreed>, core: &Core, before: usize)
    requires { before ≤ length list.old.items }
    ensures { list.new.items ≡ leaving before core.now.local.heap list.old.items }
{
    let mut left = before;
    for place in before..list.len() {
        left = leave(list, core, left, place);
    }
    list.truncate(left);
}

// Moves an entry behind the first `left` if the node doesn't have its object, and returns how many
// are left then.
#[inline(always)]
fn leave(list: &mut VecDeque<CFreed>, core: &Core, left: usize, place: usize) -> usize
    requires { (left ≤ place) × (place < length list.old.items) }
    ensures { Leaves core.now.local.heap place left list.old.items result list.new.items }
{
    let freed = list[place];
    if !is_left_out(core, &freed) {
        return left;
    }
    list[left] = freed;
    left + 1
}

// Whether the node doesn't have the object.
#[inline(always)]
fn is_left_out(core: &Core, freed: &CFreed) -> bool
    ensures { result ≡ is_left_out core.now.local.heap freed.now }
{
    match core.heap().slot(freed.reference.slot) {
        Slot::Occupied(generation, _) => generation != freed.reference.generation,
        _ => true,
    }
}

// Adds what the event may free. It fails with `Memory`, unless the node refuses the event.
fn add_candidates(list: &mut VecDeque<CFreed>, core: &Core, event: &Event) -> Result<(), Refusal>
    ensures { Adds core.now.local event.now list.old.items list.new.items result }
{
    match event {
        Event::Sweep { count } => add_unmarked(list, core, *count),
        Event::Reclaim { scope } => add_in_scope(list, core, *scope),
        _ => Ok(()),
    }
}

// Adds what a Sweep of this many slots frees.
fn add_unmarked(list: &mut VecDeque<CFreed>, core: &Core, count: u32) -> Result<(), Refusal>
    ensures { Adds core.now.local (events.Sweep count) list.old.items list.new.items result }
{
    let phases = core.phases();
    if phases.swept() >= phases.ended() {
        return Ok(());
    }
    let start = phases.cursor();
    let end = start.saturating_add(count).min(core.heap().slots());
    let own = core.state().own;
    for slot in start..end {
        add_if_unmarked(list, core, own, slot)?;
    }
    Ok(())
}

// Adds what a Reclaim of this scope goes through.
fn add_in_scope(list: &mut VecDeque<CFreed>, core: &Core, scope: Scope) -> Result<(), Refusal>
    ensures { Adds core.now.local (events.Reclaim scope) list.old.items list.new.items result }
{
    let end = core.heap().slots();
    let own = core.state().own;
    let mut slot = core.heap().next_sought(scope, 0, end);
    while slot < end {
        add_if_in_scope(list, core, own, scope, slot)?;
        slot = core.heap().next_sought(scope, slot + 1, end);
    }
    Ok(())
}

// Adds an entry. It fails with `Memory`.
#[inline(always)]
fn add(list: &mut VecDeque<CFreed>, freed: CFreed) -> Result<(), Refusal>
    ensures added { OnOk result (list.new.items ≡ list.old.items ++ freed ∷ []) }
    ensures refused { IfErr result (λ e. (e ≡ Memory) × (list.new.items ≡ list.old.items)) }
{
    if list.len() == list.capacity() {
        list.reserve(1)?;
    }
    list.push_back_reserved(freed);
    Ok(())
}

// The entry of an object.
#[inline(always)]
fn entry_of(own: u8, slot: u32, generation: Generation, object: &Object) -> CFreed
    ensures { result ≡ entry_of own slot generation object.now }
{
    CFreed {
        reference: CRef {
            node: own,
            slot,
            generation,
        },
        word: object.word(),
    }
}

// Adds the object in a slot, if there is one that the node's cycle hasn't marked.
#[inline(always)]
fn add_if_unmarked(
    list: &mut VecDeque<CFreed>,
    core: &Core,
    own: u8,
    slot: u32,
) -> Result<(), Refusal>
    ensures added { OnOk result (list.new.items ≡ list.old.items
        ++ entries_in (λ _. is_garbage core.now.local.phases.cycle) own slot
        (slot_at core.now.local.heap slot)) }
    ensures refused { IfErr result (λ e. (e ≡ Memory) × (list.new.items ≡ list.old.items)) }
{
    if let Slot::Occupied(generation, object) = core.heap().slot(slot) {
        if object.marked_by() != core.phases().cycle() {
            add(list, entry_of(own, slot, generation, object))?;
        }
    }
    Ok(())
}

// Adds the object in a slot, if there is one within the scope.
#[inline(always)]
fn add_if_in_scope(
    list: &mut VecDeque<CFreed>,
    core: &Core,
    own: u8,
    scope: Scope,
    slot: u32,
) -> Result<(), Refusal>
    ensures added { OnOk result (list.new.items ≡ list.old.items
        ++ entries_in (λ _. is_in_scope scope) own slot (slot_at core.now.local.heap slot)) }
    ensures refused { IfErr result (λ e. (e ≡ Memory) × (list.new.items ≡ list.old.items)
        × (is_in_scope scope (slot_at core.now.local.heap slot) ≡ true)) }
{
    if let Slot::Occupied(generation, object) = core.heap().slot(slot) {
        if is_in_scope(scope, object) {
            add(list, entry_of(own, slot, generation, object))?;
        }
    }
    Ok(())
}

// Whether an object is within the scope.
#[inline(always)]
fn is_in_scope(scope: Scope, object: &Object) -> bool
    ensures { (g : ℕ) → is_in_scope scope (Occupied g object.now) ≡ result }
{
    match scope {
        Scope::All => !object.is_shared(),
        Scope::Young => !matches!(object.age(), Age::Old),
    }
}
