//! The threads of a space's workers. Each receives its order through a channel that was filled
//! before the thread was created. Every thread is joined or asked to stop.
ghost use Rattle.std.specs.Prelude.{◌≡◌, ◌≤◌, ◌<◌, ◌+◌, ◌++◌, ◌∷◌, [], All, IfErr, IfNone, IfOk, IfSome, OnErr, OnOk};
ghost use Rattle.std.specs.Prelude.{length, map, vec_capacity, vec_len};
ghost use Rattle.std.specs.List.{range_with_len};
ghost use Rattle.std.specs.List.Sorted.{IsNonDecreasingBy, IsPermutation};
ghost use Rattle.ids.specs.declared.refusal.Refusal.TheVariants.{Memory};
ghost use Rattle.workers.specs.Runs.{IsReport};

use crossbeam_channel::{Receiver, bounded};
use ids::Refusal;
use std::alloc::Global;
use std::marker::{Brand, PhantomData};
use std::sync::{Arc, Wait};
use std::thread;
use std::thread::{Promise, PromisedHandle, Threads};
use workers::{Ended, Gate, Reclaims, Report, Station, Stop, run_node};

/// How many workers there are, how many turns each takes at most, and whether they have their nodes
/// reclaim.
#[derive(Clone, Copy, Debug, PartialEq, Eq)]
pub struct TeamPlan {
    pub nodes: u8,
    pub turns: u32,
    pub reclaims: Reclaims,
}

// Names an order in proofs, so that what comes out of a channel is known to be what went in.
trait Ordered {
    ghost use Rattle.std.specs.Prelude.{ℕ};

    ghost node: { ℕ };

    ghost turns: { ℕ };
}

impl Ordered for Brand {
    ghost node = { 0 };

    ghost turns = { 0 };
}

// What a worker receives first: its node, and how many turns it takes at most.
#[derive(Drop)]
struct Order<O: Ordered> {
    node: u8,
    turns: u32,
    of: PhantomData<O>,
    ghost for_node: { node ≡ O.node },
    ghost for_turns: { turns ≡ O.turns },
}

// What a worker's thread promises: the report of a run for this node.
#[derive(Clone, Copy)]
struct Reports {
    node: u8,
    plan: TeamPlan,
}

impl Promise<Report> for Reports {
    ghost kept_by = { λ p r. IsReport p.node p.plan.nodes p.plan.turns r };
}

// Asks the workers to stop when it is dropped.
struct Halt {
    stop: Arc<Stop>,
}

impl Drop for Halt {
    fn drop(self) {
        let Halt { stop } = self;
        stop.ask();
    }
}

// A worker that hasn't been joined yet, and what its thread promises.
#[derive(Drop)]
struct Worker {
    of: Reports,
    handle: PromisedHandle<Report, Reports>,
    ghost promised: { handle.promise ≡ of },
}

/// Workers in threads, and the reports of those that were joined. When it is dropped, the workers
/// are asked to stop; [`Team::close`] also waits until they have ended.
#[derive(Drop)]
pub struct Team {
    halt: Halt,
    plan: TeamPlan,
    workers: Vec<Worker>,
    reports: Vec<Report>,
    ghost room: { vec_len workers + vec_len reports ≤ vec_capacity reports },
    ghost planned: { All (λ w. w.of.plan ≡ plan) workers.items },
    ghost reported: { All (λ r. ∥ IsReport r.node plan.nodes plan.turns r ∥₁) reports.items },
}

// What a worker's thread does: it receives its order and takes its turns. (A channel that was
// filled always gives the order.)
fn work<O: Ordered, R: Wait, S: Station, G: Gate>(
    rt: &R,
    orders: &Receiver<Order<O>>,
    station: &S,
    gate: &G,
    of: Reports,
    stop: &Stop,
) -> Report
    requires node { of.node ≡ O.node }
    requires turns { of.plan.turns ≡ O.turns }
    ensures { IsReport of.node of.plan.nodes of.plan.turns result }
{
    let (node, turns) = match orders.recv(rt) {
        Ok(order) => (order.node, order.turns),
        Err(_) => (of.node, of.plan.turns),
    };
    let TeamPlan {
        nodes,
        reclaims,
        ..
    } = of.plan;
    run_node(rt, station, gate, node, nodes, turns, reclaims, stop).report
}

// Starts the thread of a worker, whose order has the name of `O`. The order is in the channel
// before the thread is created.
fn start_named<O, R, S, G>(
    rt: &R,
    alloc: Global,
    station: &Arc<S>,
    gate: &Arc<G>,
    stop: &Arc<Stop>,
    of: Reports,
) -> Result<Worker, Refusal>
where
    O: Ordered + Send + 'static,
    R: Threads + Wait + Clone + Send + Drop + 'static,
    S: Station + Send + Sync + Drop + 'static,
    G: Gate + Send + Sync + Drop + 'static,
    requires node { of.node ≡ O.node }
    requires turns { of.plan.turns ≡ O.turns }
    ensures started { IfOk result (λ w. w.of ≡ of) }
    ensures refused { IfErr result (λ e. e ≡ Memory) }
{
    let station = station.clone()?;
    let gate = gate.clone()?;
    let stop = stop.clone()?;
    let theirs = rt.clone()?;
    let (sender, orders) = bounded(alloc, 1)?;
    let order = Order {
        node: of.node,
        turns: of.plan.turns,
        of: PhantomData::<O>,
    };
    if sender.send(rt, order).is_err() {
        return Err(Refusal::Memory);
    }
    let task = move || -> Report
        requires node { of.node ≡ O.node }
        requires turns { of.plan.turns ≡ O.turns }
        ensures { IsReport of.node of.plan.nodes of.plan.turns result }
    { work::<O, R, S, G>(&theirs, &orders, &*station, &*gate, of, &*stop) };
    match thread::spawn_with(rt, of, task) {
        Ok(handle) => Ok(Worker { of, handle }),
        Err(_) => Err(Refusal::Memory),
    }
}

// Sorts reports by node.
fn sort(reports: &mut Vec<Report>)
    ensures same { IsPermutation reports.old.items reports.new.items }
    ensures sorted { IsNonDecreasingBy (λ r. r.node) reports.new.items }
{
    reports.sort_unstable_by_key(|report| report.node);
}

impl Worker {
    // Waits until the worker has ended; its report.
    fn join<R: Threads>(self, rt: &R) -> Report
        ensures { IsReport self.of.node self.of.plan.nodes self.of.plan.turns result }
    {
        let Worker { handle, .. } = self;
        handle.join(rt)
    }
}

impl Team {
    ghost use Rattle.supervisor.specs.Teams.{AreOthers, HasRoom, nodes_of, working};

    // No workers yet, with room for those of this plan and for their reports.
    fn empty(alloc: Global, plan: TeamPlan) -> Result<Team, Refusal>
        ensures plan { IfOk result (λ t. t.plan ≡ plan) }
        ensures room { IfOk result (λ t. plan.nodes ≤ vec_capacity t.workers) }
        ensures reports { IfOk result (λ t. plan.nodes ≤ vec_capacity t.reports) }
        ensures no_worker { IfOk result (λ t. t.workers.items ≡ []) }
        ensures no_report { IfOk result (λ t. t.reports.items ≡ []) }
        ensures refused { IfErr result (λ e. e ≡ Memory) }
    {
        let count = usize::from(plan.nodes);
        let stop = Arc::new(alloc, Stop::new())?;
        let workers = Vec::with_capacity(alloc, count)?;
        let reports = Vec::with_capacity(alloc, count)?;
        Ok(Team {
            halt: Halt { stop },
            plan,
            workers,
            reports,
        })
    }

    // Adds a worker, for which there is room.
    fn add(&mut self, worker: Worker)
        requires room { HasRoom self.old }
        requires planned { worker.of.plan ≡ self.old.plan }
        ensures workers { self.new.workers.items ≡ self.old.workers.items ++ worker ∷ [] }
        ensures room { vec_capacity self.new.workers ≡ vec_capacity self.old.workers }
        ensures reports { self.new.reports ≡ self.old.reports }
        ensures plan { self.new.plan ≡ self.old.plan }
    {
        self.workers.push_reserved(worker);
    }

    /// Starts a worker for each station, the first for node 0. Each receives its order, its node
    /// and its turn limit, through a channel of its own.
    ///
    /// `Memory` if an allocation or the creation of a thread failed: the workers that had been
    /// started are then stopped and joined.
    pub fn start<R, S, G>(
        rt: &R,
        alloc: Global,
        stations: &[Arc<S>],
        gate: &Arc<G>,
        plan: TeamPlan,
    ) -> Result<Team, Refusal>
    where
        R: Threads + Wait + Clone + Send + Drop + 'static,
        S: Station + Send + Sync + Drop + 'static,
        G: Gate + Send + Sync + Drop + 'static,
        requires { length stations.now ≡ plan.nodes }
        ensures plan { IfOk result (λ t. t.plan ≡ plan) }
        ensures each { IfOk result (λ t. working t ≡ range_with_len 0 plan.nodes) }
        ensures none_ended { IfOk result (λ t. t.reports.items ≡ []) }
        ensures refused { IfErr result (λ e. e ≡ Memory) }
    {
        let mut team = Team::empty(alloc, plan)?;
        for node in 0..plan.nodes {
            let station = &stations[usize::from(node)];
            if let Err(refusal) = team.begin(rt, alloc, station, gate, node) {
                let _ = team.close(rt);
                return Err(refusal);
            }
        }
        Ok(team)
    }

    /// Starts one more worker, for this node. `Memory` if an allocation or the creation of the
    /// thread failed; nothing was started then.
    pub(crate) fn begin<R, S, G>(
        &mut self,
        rt: &R,
        alloc: Global,
        station: &Arc<S>,
        gate: &Arc<G>,
        node: u8,
    ) -> Result<(), Refusal>
    where
        R: Threads + Wait + Clone + Send + Drop + 'static,
        S: Station + Send + Sync + Drop + 'static,
        G: Gate + Send + Sync + Drop + 'static,
        requires room { HasRoom self.old }
        ensures begun { OnOk result (working self.new ≡ working self.old ++ node ∷ []) }
        ensures room { vec_capacity self.new.workers ≡ vec_capacity self.old.workers }
        ensures reports { self.new.reports ≡ self.old.reports }
        ensures plan { self.new.plan ≡ self.old.plan }
        ensures refused { IfErr result (λ e. e ≡ Memory) }
        ensures unchanged { OnErr result (self.new.workers ≡ self.old.workers) }
    {
        let of = Reports {
            node,
            plan: self.plan,
        };
        let stop = &self.halt.stop;
        let worker = start_named::<Brand, R, S, G>(rt, alloc, station, gate, stop, of)?;
        self.add(worker);
        Ok(())
    }

    // Makes room for one more worker and its report.
    fn reserve(&mut self) -> Result<(), Refusal>
        ensures room { OnOk result (HasRoom self.new) }
        ensures workers { self.new.workers.items ≡ self.old.workers.items }
        ensures reports { self.new.reports.items ≡ self.old.reports.items }
        ensures plan { self.new.plan ≡ self.old.plan }
        ensures refused { IfErr result (λ e. e ≡ Memory) }
    {
        self.reports.reserve(self.workers.len() + 1)?;
        Ok(self.workers.reserve(1)?)
    }

    // The place of a worker of this node, if there is one.
    fn place_of(&self, node: u8) -> Option<usize>
        ensures within { IfSome result (λ place. place < vec_len self.now.workers) }
        ensures none { IfNone result (AreOthers node (working self.now)) }
    {
        for place in 0..self.workers.len() {
            if self.workers[place].of.node == node {
                return Some(place);
            }
        }
        None
    }

    // Waits until the worker in this place has ended, and keeps its report.
    fn join_at<R: Threads>(&mut self, rt: &R, place: usize)
        requires { place < vec_len self.old.workers }
        ensures same { IsPermutation (nodes_of self.old) (nodes_of self.new) }
        ensures fewer { vec_len self.new.workers + 1 ≡ vec_len self.old.workers }
        ensures more { vec_len self.new.reports ≡ vec_len self.old.reports + 1 }
        ensures room { vec_capacity self.new.workers ≡ vec_capacity self.old.workers }
        ensures reports { vec_capacity self.new.reports ≡ vec_capacity self.old.reports }
        ensures plan { self.new.plan ≡ self.old.plan }
    {
        let worker = self.workers.swap_remove(place);
        self.reports.push_reserved(worker.join(rt));
    }

    /// Makes room for one more worker and its report, and waits until the node's workers have
    /// ended, if it has any. `Memory` if allocating that room failed: it waits for nothing then.
    pub(crate) fn await_end<R: Threads>(&mut self, rt: &R, node: u8) -> Result<(), Refusal>
        ensures room { OnOk result (HasRoom self.new) }
        ensures same { IsPermutation (nodes_of self.old) (nodes_of self.new) }
        ensures ended { OnOk result (AreOthers node (working self.new)) }
        ensures plan { self.new.plan ≡ self.old.plan }
        ensures refused { IfErr result (λ e. e ≡ Memory) }
        ensures unchanged { OnErr result (working self.new ≡ working self.old) }
    {
        self.reserve()?;
        while let Some(place) = self.place_of(node) {
            self.join_at(rt, place);
        }
        Ok(())
    }

    /// How many workers have ended, if all that were started have.
    pub fn ended(&self) -> Option<Ended>
        ensures all { IfSome result (λ e. length (nodes_of self.now) ≤ e.count) }
    {
        let ended = self.halt.stop.look();
        if ended.count() < (self.workers.len() + self.reports.len()) as u64 {
            return None;
        }
        Some(ended)
    }

    /// Stops the workers, waits until they have ended, and returns all their reports, sorted by
    /// node. It allocates nothing.
    pub fn close<R: Threads>(self, rt: &R) -> Vec<Report>
        ensures own { IsPermutation (nodes_of self) (map (λ r. r.node) result.items) }
        ensures reports { All (λ r. ∥ IsReport r.node self.plan.nodes self.plan.turns r ∥₁)
            result.items }
        ensures sorted { IsNonDecreasingBy (λ r. r.node) result.items }
    {
        let Team {
            halt,
            mut workers,
            mut reports,
            ..
        } = self;
        halt.stop.ask();
        while let Some(worker) = workers.pop() {
            reports.push_reserved(worker.join(rt));
        }
        sort(&mut reports);
        reports
    }
}
