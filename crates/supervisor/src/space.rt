//! A space of nodes on their disks, with its workers. Programs use each node through its cell,
//! concurrently with the worker. When a space is dropped, it asks its workers to stop.
ghost use Rattle.std.specs.Prelude.{◌≡◌, ◌≤◌, ◌<◌, ◌≢◌, ◌↔◌, ◌⊎◌, ◌+◌, ◌∷◌, ◌++◌, false, true, Some, IfErr, IfNone};
ghost use Rattle.std.specs.Prelude.{IfOk, IfSome, IsErrOf, IsSome, IsTrue, MatchResult, OnErr, OnOk, is_some, length, map};
ghost use Rattle.std.specs.Prelude.{[], All, List, max, option_to_list, slice_get, vec_len};
ghost use Rattle.std.specs.Arc.{arc_value};
ghost use Rattle.std.specs.List.{range_with_len};
ghost use Rattle.std.specs.Option.{ForSome};
ghost use Rattle.std.specs.List.Sorted.{IsNonDecreasingBy, IsPermutation};
ghost use Rattle.ids.specs.declared.refusal.Refusal.TheVariants as refusal;
ghost use Rattle.wire.specs.Plays.{HasEnded, WasEnded};
ghost use Rattle.model.specs.World.{World};
ghost use Rattle.model.specs.declared.step.Step.{Step};
ghost use Rattle.model.specs.declared.event.Event.TheVariants as event;
ghost use Rattle.wire.specs.Readers.{heard, loaded, loads_of, opened_with, watch_opening};
ghost use Rattle.wire.specs.Readers.{IsMade, IsSameWatch, IsWatchOf};
ghost use Rattle.disk.specs.Crashes.{LeavesOnly};
ghost use Rattle.wire.specs.Rule.{nodes_of};
ghost use Rattle.wire.specs.OneAge.{AreOfOneAge};
ghost use Rattle.cell.specs.Ages.{AreRead, IfAges, IsWhy as IsWhyUnopened};
ghost use Rattle.cell.specs.Cells.{desk_of, IsNew};
ghost use Rattle.cell.specs.Copies.{AreCopiesOn};
ghost use Rattle.cell.specs.Closing.{AreOfOneKill, AreOfOneMoment, HaveBegun};
ghost use Rattle.cell.specs.Locked.{WasAnswered};
ghost use Rattle.cell.specs.Looking.{AreIntact};
ghost use Rattle.cell.specs.Names.{name_of, IsNamed};
ghost use Rattle.cell.specs.Opened.{cores, world_of, AreBeside, IsChosen, IsReadFrom, StaysOrNew};
ghost use Rattle.cell.specs.Reached.{IsReached};
ghost use Rattle.cell.specs.Shares.{first_of};
ghost use Rattle.cell.specs.Theorems.{AreFresh, AreHeldOn, AreLeftOn};
ghost use Rattle.supervisor.specs.declared.fault.OpenFault.TheVariants as fault;
ghost use Rattle.cell.specs.Moments.{EachCell};
ghost use Rattle.supervisor.specs.Closing.{IsBack, IsWhy};
ghost use Rattle.supervisor.specs.Opened.{AreInPlace, AreSeats, AreWatches, HaveOpened, IfUnopened};
ghost use Rattle.supervisor.specs.Spaces.{Stay};
ghost use Rattle.supervisor.specs.Reviving.{IsLeftBy, refusal_of};
ghost use Rattle.supervisor.specs.Teams.{AreOver, IsAlone};
ghost use Rattle.supervisor.specs.Teams.{started_in, working_in};
ghost use Rattle.supervisor.specs.declared.cells.TheConstants.{WATCHES};
ghost use Rattle.workers.specs.Runs.{IsReport};
ghost use Rattle.supervisor.specs.declared.reviving.Unrevived.TheVariants as unrevived;

use crate::cells::{open_alone, share_on};
use crate::closing::{Closed, Unclosed, close_cells};
use crate::reviving::Unrevived;
use crate::team::{Team, TeamPlan};
use crate::{Config, OpenFault};
use cell::{Cell, Naming, Reopened, SharedOn, Unnamed};
use disk::Disk;
use ids::{Cycle, Refusal};
use model::{Answer, Event};
use std::alloc::Global;
use std::sync::{Arc, Wait};
use std::thread::Threads;
use wire::{Watch, Wire};
use workers::{Ended, Gate, Report};

/// A space on its disks, before threads share its cells.
///
/// [`share`](Opened::share) gives it to its threads. A caller that names the wire in proofs can
/// close the space with [`SpaceOn::close_at_once`].
#[derive(Drop)]
pub struct Opened<D: Disk> {
    alloc: Global,
    plan: TeamPlan,
    wire: Wire,
    cells: Vec<Cell<D>>,
    watches: Vec<Watch>,
    ghost each: { vec_len cells ≡ plan.nodes },
    ghost some: { 0 < plan.nodes },
    ghost places: { AreInPlace (map (λ c. c.node) cells.items) (λ n. n.core.local.own) },
    ghost wide: { nodes_of (opened_with wire) ≡ plan.nodes },
    ghost seats: { AreSeats wire (map (λ c. c.seat) cells.items) },
    ghost begun: { HaveBegun cells.items },
    ghost of: { AreWatches wire watches.items },
}

impl<D: Disk + Drop> Opened<D> {
    /// Opens a space of this configuration on these disks, as [`Space::open`] does, and fails as it
    /// does. The cells are new ones of the nodes that the disks hold, and the wire begins in the
    /// world of these nodes.
    pub fn open(alloc: Global, config: &Config, disks: Vec<D>) -> Result<Opened<D>, OpenFault>
        ensures disks { vec_len disks ≢ config.now.shape.nodes → IsErrOf result fault.Disks }
        ensures why { IfErr result (IfUnopened
            (IsWhyUnopened D.seen D.seals D.moment D.faults config.now.shape disks.items)) }
        ensures one_age { IfOk result (λ _.
            AreRead D.seen config.now.shape disks.items AreOfOneAge) }
        ensures nodes { IfOk result (λ s. s.plan.nodes ≡ config.now.shape.nodes) }
        ensures turns { IfOk result (λ s. s.plan.turns ≡ config.now.turns) }
        ensures saves { IfOk result (λ s. AreBeside
            (λ k d c. IsChosen config.now.saves (D.seen d) c.logs) disks.items s.cells.items) }
        ensures watches { IfOk result (λ s. vec_len s.watches ≡ WATCHES) }
        ensures closed { (opening : World) → IsReached opening
            → nodes_of opening ≡ config.now.shape.nodes
            → AreOfOneMoment D.may_leave opening disks.items
            → MatchResult result (λ s. IsReached (opened_with s.wire))
            (IfUnopened (IfAges (λ _ _. ⊥))) }
        ensures killed { (opening : World) → IsReached opening
            → nodes_of opening ≡ config.now.shape.nodes
            → AreOfOneKill D.seen D.may_leave opening disks.items
            → MatchResult result (λ s. IsReached (opened_with s.wire))
            (IfUnopened (IfAges (λ _ _. ⊥))) }
        ensures fresh { AreFresh D.seen config.now.shape disks.items
            → MatchResult result (λ s. IsReached (opened_with s.wire))
            (IfUnopened (IfAges (λ _ _. ⊥))) }
        ensures left { (w : World) → AreLeftOn D.seen config.now.shape w disks.items
            → IfOk result (λ s. IsReached (opened_with s.wire)) }
        ensures kept { (w : World) → AreLeftOn D.seen config.now.shape w disks.items
            → AreHeldOn D.seen config.now.shape w disks.items
            → IfErr result (IfUnopened (IfAges (λ _ _. ⊥))) }
        ensures copies { (steps : List Step)
            → AreCopiesOn D.seen config.now.shape steps disks.items
            → IfOk result (λ s. IsReached (opened_with s.wire)) }
        ensures read { IfOk result (λ s. AreBeside
            (λ k d n. IsReadFrom config.now.shape k (D.seen d) n) disks.items
            (map (λ c. c.node) s.cells.items)) }
        ensures all { IfOk result (λ s. length s.cells.items ≡ length disks.items) }
        ensures intact { OnOk result (AreIntact D.seen D.seals disks.items) }
        ensures new { IfOk result (λ s. All IsNew s.cells.items) }
        ensures made { IfOk result (λ s. IsMade
            (world_of (cores (map (λ c. c.node) s.cells.items))) WATCHES s.wire
            (map (λ c. c.seat) s.cells.items) s.watches.items) }
        ensures width { IfOk result (λ s.
            nodes_of (opened_with s.wire) ≡ config.now.shape.nodes) }
        ensures any_moment { IfOk result (λ s. AreBeside (λ k d c.
            LeavesOnly D.moment D.left_since d c.disk
            (StaysOrNew D.seen D.may_leave config.now.shape k d)) disks.items s.cells.items) }
    {
        let shape = config.shape;
        let (wire, cells, watches) = open_alone(alloc, shape, disks, config.saves)?;
        Ok(Opened {
            alloc,
            plan: TeamPlan {
                nodes: shape.nodes(),
                turns: config.turns,
                reclaims: config.reclaims(),
            },
            wire,
            cells,
            watches,
        })
    }

    /// Lets threads share the cells as they are. Fails with `Memory` if allocation failed.
    pub fn share<W: Naming>(self) -> Result<SpaceOn<D, W>, Refusal>
        requires { IsNamed W.wire (name_of self.wire) }
        ensures wire { IfOk result (λ s. arc_value s.wire ≡ self.wire) }
        ensures plan { IfOk result (λ s. s.plan ≡ self.plan) }
        ensures fresh { IfOk result (λ s. is_some s.team ≡ false) }
        ensures watches { IfOk result (λ s. s.watches ≡ self.watches) }
        ensures cells { IfOk result (λ s.
            map (λ c. first_of (arc_value c)) s.cells.items ≡ map desk_of self.cells.items) }
        ensures refused { IfErr result (λ e. e ≡ refusal.Memory) }
    {
        let Opened {
            alloc,
            plan,
            wire,
            cells,
            watches,
        } = self;
        let (wire, cells) = share_on(alloc, wire, cells)?;
        Ok(SpaceOn {
            alloc,
            plan,
            wire,
            cells,
            watches,
            team: None,
        })
    }
}

/// A space whose nodes are on disks, and its workers once they are started. When it is dropped, it
/// asks the workers to stop; [`SpaceOn::close`] also waits until they have ended.
pub struct SpaceOn<D: Disk, W: Naming> {
    alloc: Global,
    plan: TeamPlan,
    wire: Arc<Wire>,
    cells: Vec<Arc<SharedOn<D, W>>>,
    watches: Vec<Watch>,
    team: Option<Team>,
    ghost each: { vec_len cells ≡ plan.nodes },
    ghost some: { 0 < plan.nodes },
    ghost wide: { nodes_of (opened_with (arc_value wire)) ≡ plan.nodes },
    ghost of: { AreWatches (arc_value wire) watches.items },
    ghost planned: { ForSome team (λ t. t.plan ≡ plan) },
}

// Written out, so that the crates above need not prove again how each field is dropped.
impl<D: Disk + Drop, W: Naming> Drop for SpaceOn<D, W> {
    fn drop(self) {
        let SpaceOn {
            alloc: _,
            plan: _,
            wire: _,
            cells: _,
            watches: _,
            team: _,
        } = self;
    }
}

/// Shows that all workers of a space had ended. Only [`SpaceOn::ended`] makes one.
#[derive(Clone, Copy, Debug)]
pub struct AllEnded {
    // How many were found to have ended; none if no worker was started.
    found: Option<Ended>,
}

/// What a watch showed after all workers had ended. Only [`SpaceOn::look_last`] makes one.
#[derive(Clone, Copy, Debug)]
pub struct LastLook {
    cycle: Cycle,
}

impl LastLook {
    /// The last cycle that node 0 was known to have ended.
    pub fn cycle(&self) -> Cycle
        ensures { result ≡ self.now.cycle }
    {
        self.cycle
    }
}

/// A space whose wire has no name in proofs.
pub type Space<D> = SpaceOn<D, Unnamed>;

impl<D: Disk + Drop> SpaceOn<D, Unnamed> {
    /// Opens a space of this configuration on these disks, the first for node 0. If nothing was
    /// ever created on a disk, its node is new; otherwise it continues from its last saved state.
    /// No node was given an event since.
    /// Disks that hold nodes have to be those of one space, or copies of them that were made at any
    /// moments of one run. If they are, a run reaches the world in which the space begins, unless
    /// the opening fails.
    ///
    /// `Disks` exactly if the number of disks isn't the number of nodes. `Another` if the disk of
    /// this node holds a node of another shape or number. `Ages` exactly if all nodes are found and
    /// two of them can't be the saved states of one moment. `Failed` with the node and `BadImage`,
    /// `ImageTooLarge` or `Disk`, for the causes that [`cell::find`] lists. `Memory` if allocation
    /// failed. Never `Config`. After an error all disks are dropped.
    pub fn open(alloc: Global, config: &Config, disks: Vec<D>) -> Result<Space<D>, OpenFault>
        ensures disks { vec_len disks ≢ config.now.shape.nodes → IsErrOf result fault.Disks }
        ensures why { IfErr result (IfUnopened
            (IsWhyUnopened D.seen D.seals D.moment D.faults config.now.shape disks.items)) }
        ensures one_age { IfOk result (λ _.
            AreRead D.seen config.now.shape disks.items AreOfOneAge) }
        ensures nodes { IfOk result (λ s. s.plan.nodes ≡ config.now.shape.nodes) }
        ensures turns { IfOk result (λ s. s.plan.turns ≡ config.now.turns) }
        ensures fresh { IfOk result (λ s. is_some s.team ≡ false) }
        ensures watches { IfOk result (λ s. vec_len s.watches ≡ WATCHES) }
        ensures closed { (opening : World) → IsReached opening
            → nodes_of opening ≡ config.now.shape.nodes
            → AreOfOneMoment D.may_leave opening disks.items
            → MatchResult result (λ s. IsReached (opened_with (arc_value s.wire)))
            (IfUnopened (IfAges (λ _ _. ⊥))) }
        ensures killed { (opening : World) → IsReached opening
            → nodes_of opening ≡ config.now.shape.nodes
            → AreOfOneKill D.seen D.may_leave opening disks.items
            → MatchResult result (λ s. IsReached (opened_with (arc_value s.wire)))
            (IfUnopened (IfAges (λ _ _. ⊥))) }
        ensures fresh_disks { AreFresh D.seen config.now.shape disks.items
            → MatchResult result (λ s. IsReached (opened_with (arc_value s.wire)))
            (IfUnopened (IfAges (λ _ _. ⊥))) }
        ensures left { (w : World) → AreLeftOn D.seen config.now.shape w disks.items
            → IfOk result (λ s. IsReached (opened_with (arc_value s.wire))) }
        ensures kept { (w : World) → AreLeftOn D.seen config.now.shape w disks.items
            → AreHeldOn D.seen config.now.shape w disks.items
            → IfErr result (IfUnopened (IfAges (λ _ _. ⊥))) }
        ensures copies { (steps : List Step)
            → AreCopiesOn D.seen config.now.shape steps disks.items
            → IfOk result (λ s. IsReached (opened_with (arc_value s.wire))) }
        ensures intact { OnOk result (AreIntact D.seen D.seals disks.items) }
        ensures begins { IfOk result (λ s. AreRead D.seen config.now.shape disks.items (λ ns.
            opened_with (arc_value s.wire) ≡ world_of (cores ns))) }
        ensures opened { IfOk result (λ s. HaveOpened D.seen config.now.shape disks.items
            (map (λ c. first_of (arc_value c)) s.cells.items) (arc_value s.wire)
            s.watches.items) }
    {
        let opened = Opened::open(alloc, config, disks)?;
        match opened.share::<Unnamed>() {
            Ok(space) => Ok(space),
            Err(_) => Err(OpenFault::Memory),
        }
    }
}

impl<D: Disk + Drop, W: Naming> SpaceOn<D, W> {
    /// Begins a collection cycle: an event of node 0, which fails as [`Event::Begin`] does.
    pub fn begin<R: Wait>(&self, rt: &R) -> Result<Answer, Refusal>
        ensures answered { WasAnswered D.may_leave W.wire event.Begin result }
    {
        match self.program(0) {
            Some(program) => program.act(rt, &Event::Begin),
            None => unreachable!(),
        }
    }

    /// Restarts a node: it continues from the state that its disk holds. `NoNode` if there is no
    /// node of that number; `Disk` if the device failed; `Memory` if allocation failed. After the
    /// last two, the node's cell is closed until a restart succeeds.
    pub fn restart<R: Wait>(&self, rt: &R, node: u8) -> Result<(), Refusal>
        ensures no_node { IsErrOf result refusal.NoNode ↔ (self.now.plan.nodes ≤ node) }
        ensures others { node < self.now.plan.nodes
            → IfErr result (λ e. (e ≡ refusal.Memory) ⊎ (e ≡ refusal.Disk)) }
    {
        match self.program(node) {
            Some(program) => match program.reopen(rt) {
                Ok(_) => Ok(()),
                Err(shut) => Err(shut.refusal()),
            },
            None => Err(Refusal::NoNode),
        }
    }

    /// What a node's program calls, if there is a node of that number.
    pub fn program(&self, node: u8) -> Option<&SharedOn<D, W>>
        ensures found { IsSome result ↔ (node < self.now.plan.nodes) }
        ensures cell { IfSome result (λ s.
            slice_get (map arc_value self.now.cells.items) node ≡ Some s.now) }
    {
        match self.cells.get(usize::from(node)) {
            Some(cell) => Some(&**cell),
            None => None,
        }
    }

    /// A watch of the space's board; `None` after the sixteenth.
    pub fn watch(&mut self) -> Option<Watch>
        ensures of { IfSome result (λ x. IsWatchOf (arc_value self.new.wire) x) }
        ensures left { self.old.watches.items
            ≡ self.new.watches.items ++ option_to_list result }
        ensures none { IfNone result (vec_len self.old.watches ≡ 0) }
        ensures stays { Stay (self.old.plan, self.old.wire, self.old.cells, self.old.team)
            (self.new.plan, self.new.wire, self.new.cells, self.new.team) }
    {
        self.watches.pop()
    }

    /// The last cycle that the watch knows node 0 to have ended: the one on the board, or a later
    /// one that the watch was told of. It is never earlier than what the watch saw before. Node 0
    /// had ended that cycle, and had been saved in such a state.
    pub fn look(&self, watch: &mut Watch) -> Cycle
        requires { IsWatchOf (arc_value self.now.wire) watch.old }
        ensures same { IsSameWatch watch.old watch.new }
        ensures number { result.number ≡ max (loaded watch.new) (heard watch.old) }
        ensures found { loads_of watch.new ≡ loads_of watch.old ++ loaded watch.new ∷ [] }
        ensures heard { heard watch.new ≡ heard watch.old }
        ensures later { loaded watch.old ≤ loaded watch.new }
        ensures ended { HasEnded (watch_opening watch.old) (loaded watch.new) }
        ensures was_ended { WasEnded (watch_opening watch.old) result.number }
    {
        self.wire.look(watch)
    }

    /// Shows that no worker is left that could take a turn, if that is so: all have ended, or none
    /// was started.
    pub fn ended(&self) -> Option<AllEnded>
        ensures all { IfSome result (λ e. AreOver (started_in self.now.team) e.found) }
        ensures none { is_some self.now.team ≡ false → IsSome result }
    {
        let Some(team) = &self.team else {
            return Some(AllEnded { found: None });
        };
        let ended = team.ended()?;
        Some(AllEnded { found: Some(ended) })
    }

    /// What the watch shows after all workers had ended; see [`SpaceOn::look`].
    pub fn look_last(&self, _ended: AllEnded, watch: &mut Watch) -> LastLook
        requires { IsWatchOf (arc_value self.now.wire) watch.old }
        ensures same { IsSameWatch watch.old watch.new }
        ensures number { result.cycle.number ≡ max (loaded watch.new) (heard watch.old) }
        ensures found { loads_of watch.new ≡ loads_of watch.old ++ loaded watch.new ∷ [] }
        ensures heard { heard watch.new ≡ heard watch.old }
        ensures later { loaded watch.old ≤ loaded watch.new }
        ensures ended { HasEnded (watch_opening watch.old) (loaded watch.new) }
        ensures was_ended { WasEnded (watch_opening watch.old) result.cycle.number }
    {
        LastLook {
            cycle: self.look(watch),
        }
    }

    /// Stops the workers, waits until they have ended, and returns the report of each, sorted by
    /// node. The result is empty if no worker was started.
    pub fn close<R: Threads>(self, rt: &R) -> Vec<Report>
        ensures own { IsPermutation (started_in self.team) (map (λ r. r.node) result.items) }
        ensures reports { All (λ r. ∥ IsReport r.node self.plan.nodes self.plan.turns r ∥₁)
            result.items }
        ensures sorted { IsNonDecreasingBy (λ r. r.node) result.items }
    {
        let SpaceOn {
            alloc,
            plan: _,
            wire: _,
            cells: _,
            watches: _,
            team,
        } = self;
        match team {
            Some(team) => team.close(rt),
            None => Vec::new(alloc),
        }
    }

    /// Stops the workers and waits until they have ended, as [`close`](SpaceOn::close) does. Then
    /// it takes back the cells, and returns their disks as they are at one moment, beside the
    /// reports.
    ///
    /// There are no disks if the cell of a node is closed, because its disk failed
    /// ([`CloseFault`](crate::CloseFault): `Closed` with the first such node), if something still
    /// uses a cell (`Used`), or if allocation failed (`Memory`). The cells that came back are then
    /// in the error. If all came back and are open, and there is memory, there are disks.
    ///
    /// It needs a name for the wire in proofs. [`Opened::serve`] gives one to a program's space.
    pub fn close_at_once<R: Threads>(self, rt: &R) -> (Vec<Report>, Result<Closed<D>, Unclosed<D>>)
        requires named { W.wire ≡ Some (name_of (arc_value self.wire)) }
        requires begun { IsTrue W.begun }
        ensures own { IsPermutation (started_in self.team) (map (λ r. r.node) result.0.items) }
        ensures reports { All (λ r. ∥ IsReport r.node self.plan.nodes self.plan.turns r ∥₁)
            result.0.items }
        ensures sorted { IsNonDecreasingBy (λ r. r.node) result.0.items }
        ensures wire { IfOk result.1 (λ c. arc_value c.of.value ≡ arc_value self.wire) }
        ensures once { IfOk result.1 (λ c. AreOfOneMoment D.may_leave
            (opened_with (arc_value self.wire)) c.disks.items) }
        ensures why { IfErr result.1 (λ u. IsWhy self.plan.nodes u.fault u.cells.items) }
        ensures back { IfErr result.1 (λ u. EachCell (IsBack W.wire W.begun) u.cells.items) }
    {
        let SpaceOn {
            alloc,
            plan,
            wire,
            cells,
            watches: _,
            team,
        } = self;
        let reports = match team {
            Some(team) => team.close(rt),
            None => Vec::new(alloc),
        };
        (reports, close_cells(alloc, plan.nodes, &wire, cells))
    }
}

impl<D: Disk + Send + Drop + 'static, W: Naming + Send + 'static> SpaceOn<D, W> {
    /// Starts a worker for each node. The workers ask the gate at each point of their turns. A
    /// space is started once.
    ///
    /// `Memory` if an allocation or the creation of a thread failed. The workers that had been
    /// started are then stopped and joined, and `start` may be called again.
    pub fn start<R, G>(&mut self, rt: &R, gate: Arc<G>) -> Result<(), Refusal>
    where
        R: Threads + Wait + Clone + Send + Drop + 'static,
        G: Gate + Send + Sync + Drop + 'static,
        requires { is_some self.old.team ≡ false }
        ensures started { OnOk result (is_some self.new.team ≡ true) }
        ensures workers { OnOk result
            (started_in self.new.team ≡ range_with_len 0 self.old.plan.nodes) }
        ensures stopped { OnErr result (is_some self.new.team ≡ false) }
        ensures refused { IfErr result (λ e. e ≡ refusal.Memory) }
        ensures stays { Stay (self.old.plan, self.old.wire, self.old.cells, self.old.watches)
            (self.new.plan, self.new.wire, self.new.cells, self.new.watches) }
    {
        let team = Team::start(rt, self.alloc, self.cells.as_slice(), &gate, self.plan)?;
        self.team = Some(team);
        Ok(())
    }

    /// Waits until a node's worker has ended, if one is running, and restarts the node, as
    /// [`Space::restart`] does. Then it starts a new worker for the node, with the configuration's
    /// turns, which asks this gate. `revive` doesn't end the old worker: that ends when its gate
    /// ends it or its turns are over.
    ///
    /// [`Unrevived`] says why there is no new worker, and what that leaves.
    pub fn revive<R, G>(&mut self, rt: &R, node: u8, gate: Arc<G>) -> Result<Reopened, Unrevived>
    where
        R: Threads + Wait + Clone + Send + Drop + 'static,
        G: Gate + Send + Sync + Drop + 'static,
        requires { is_some self.old.team ≡ true }
        ensures begun { OnOk result
            (IsPermutation (node ∷ started_in self.old.team) (started_in self.new.team)) }
        ensures alone { OnOk result (IsAlone node (working_in self.new.team)) }
        ensures none_begun { OnErr result
            (IsPermutation (started_in self.old.team) (started_in self.new.team)) }
        ensures left { IfErr result
            (IsLeftBy node (working_in self.old.team) (working_in self.new.team)) }
        ensures team { is_some self.new.team ≡ true }
        ensures no_node { IsErrOf result unrevived.NoNode ↔ (self.old.plan.nodes ≤ node) }
        ensures others { node < self.old.plan.nodes → IfErr result (λ u.
            (refusal_of u ≡ refusal.Memory) ⊎ (refusal_of u ≡ refusal.Disk)) }
        ensures stays { Stay (self.old.plan, self.old.wire, self.old.cells, self.old.watches)
            (self.new.plan, self.new.wire, self.new.cells, self.new.watches) }
    {
        if node >= self.plan.nodes {
            return Err(Unrevived::NoNode);
        }
        let Some(team) = &mut self.team else {
            unreachable!()
        };
        let Ok(()) = team.await_end(rt, node) else {
            return Err(Unrevived::NoRoom);
        };
        let cell = &self.cells[usize::from(node)];
        let reopened = match cell.reopen(rt) {
            Ok(reopened) => reopened,
            Err(shut) => return Err(Unrevived::Shut(shut)),
        };
        match team.begin(rt, self.alloc, cell, &gate, node) {
            Ok(()) => Ok(reopened),
            Err(_) => Err(Unrevived::NotStarted(reopened)),
        }
    }
}
