//! How far a node is in the collection cycles: it joins one, learns that marking has ended, sweeps,
//! and then may join the next. Node 0 also has the reports, which show that a cycle is swept
//! everywhere.
ghost use Rattle.std.specs.Prelude.{
  ◌≡◌,
  ◌==◌,
  ◌+◌,
  ◌<◌,
  ◌≤◌,
  ◌^◌,
  ◌↔◌,
  drop,
  length,
  nat_lt,
  slice_index_or,
  IsSome,
  IfSome,
  IfOk,
  IfErr,
  OnOk,
};
ghost use Rattle.std.specs.List.{list_all};
ghost use Rattle.ids.specs.declared.limits.TheConstants.{GREATEST_CYCLE};
ghost use Rattle.ids.specs.declared.refusal.Refusal.TheVariants.{Memory};
ghost use Rattle.model.specs.Checks.{guarded};
ghost use Rattle.model.specs.State.{new_phases};
ghost use Rattle.model.specs.Collecting.{is_swept_everywhere};
ghost use Rattle.cycles.specs.Phases.{
  phases_of,
  IsPhases,
  MayBegin,
  cycle_tests,
  in_cycle,
  with_ended,
  with_report,
  advanced,
  all_swept,
};

use ids::{GREATEST_CYCLE, Refusal};
use std::alloc::Global;
use std::marker::Model;

/// How far a node is in the collection cycles, which are numbered from 1. It joins a cycle, learns
/// that marking has ended, sweeps its slots up to a cursor, and has then swept the cycle. At all
/// times `swept <= ended <= cycle <= swept + 1`, and the cursor is 0 unless `swept < ended`.
///
/// Node 0 also keeps a report for each node: the last cycle that the node reported as swept. At
/// other nodes these stay 0.
///
/// No call except [`Phases::new`] allocates memory.
#[derive(Drop)]
pub struct Phases {
    cycle: u64,
    ended: u64,
    swept: u64,
    cursor: u32,
    reports: Vec<u64>,
}

impl Model for Phases {
    ghost use Rattle.model.specs.State.{Phases};

    ghost Value = { Phases };

    ghost use Rattle.cycles.specs.Phases.{phases_of, IsPhases};

    ghost view = { λ p. phases_of p.cycle p.ended p.swept p.cursor p.reports.items };

    ghost invariant = { λ p.
        IsPhases (phases_of p.cycle p.ended p.swept p.cursor p.reports.items) };
}

impl Phases {
    /// Makes the phases of a new node in a space of `nodes` nodes: no cycle has begun. It fails
    /// with `Memory` if an allocation fails.
    pub fn new(alloc: Global, nodes: u8) -> Result<Phases, Refusal>
        ensures made { IfOk result (λ p. p ≡ new_phases nodes) }
        ensures refused { IfErr result (λ e. e ≡ Memory) }
    {
        Ok(Phases {
            cycle: 0,
            ended: 0,
            swept: 0,
            cursor: 0,
            reports: vec![in alloc; 0; usize::from(nodes)]?,
        })
    }

    /// Makes phases of these parts. It returns `None` if no node can have them: `swept <= ended <=
    /// cycle <= swept + 1` doesn't hold, the cycle is above [`GREATEST_CYCLE`], the cursor isn't 0
    /// although `swept = ended`, or a report is above the cycle. It takes time linear in the number
    /// of reports.
    pub fn from_parts(
        cycle: u64,
        ended: u64,
        swept: u64,
        cursor: u32,
        reports: Vec<u64>,
    ) -> Option<Phases>
        ensures within { IsSome result
            ↔ IsPhases (phases_of cycle ended swept cursor reports.items) }
        ensures value { IfSome result
            (λ p. p ≡ phases_of cycle ended swept cursor reports.items) }
    {
        let in_order = swept <= ended && ended <= cycle && cycle - swept <= 1;
        let sweeps = swept < ended || cursor == 0;
        let reported = reports.iter().all(|report| *report <= cycle);
        if in_order && cycle <= GREATEST_CYCLE && sweeps && reported {
            Some(Phases {
                cycle,
                ended,
                swept,
                cursor,
                reports,
            })
        } else {
            None
        }
    }

    /// The cycle that the node joined last; 0 if it has joined none. The contract also states what
    /// holds of all phases.
    pub fn cycle(&self) -> u64
        ensures value { result ≡ self.now.cycle }
        ensures sound { IsPhases self.now }
    {
        self.cycle
    }

    /// The last cycle whose marking the node knows to have ended; 0 if it knows of no such cycle.
    pub fn ended(&self) -> u64
        ensures { result ≡ self.now.ended }
    {
        self.ended
    }

    /// The last cycle that the node has swept; 0 if it has swept none.
    pub fn swept(&self) -> u64
        ensures { result ≡ self.now.swept }
    {
        self.swept
    }

    /// Whether a message of this stamp, the cycle that its sender was in, is from before the cycle
    /// that the node joined last.
    pub fn is_late(&self, stamp: u64) -> bool
        ensures { result ≡ nat_lt stamp self.now.cycle }
    {
        stamp < self.cycle
    }

    /// The next slot to be swept; 0 while there is nothing to be swept.
    pub fn cursor(&self) -> u32
        ensures { result ≡ self.now.cursor }
    {
        self.cursor
    }

    /// The last cycle that each node reported as swept, in order of the nodes' numbers; 0 if a node
    /// has reported none.
    pub fn reports(&self) -> &[u64]
        ensures { result.now ≡ self.now.reports }
    {
        &self.reports
    }

    /// The last cycle that this node reported as swept; 0 if it has reported none.
    pub fn report(&self, node: u8) -> u64
        requires { node < length self.now.reports }
        ensures { result ≡ slice_index_or self.now.reports node 0 }
    {
        self.reports[usize::from(node)]
    }

    /// Whether node 0 may begin the next cycle. It fails with [`Refusal::CycleRunning`] while node
    /// 0 hasn't swept the last one itself, or lacks another node's report of it. After that it
    /// fails with [`Refusal::CyclesSpent`] if the last one has the number [`GREATEST_CYCLE`]. It
    /// takes time linear in the number of nodes.
    pub fn may_begin(&self) -> Result<(), Refusal>
        ensures tests { result ≡ guarded (cycle_tests self.now) tt }
        ensures ready { OnOk result (MayBegin self.now) }
    {
        if !self.is_swept_everywhere() {
            return Err(Refusal::CycleRunning);
        }
        if self.cycle >= GREATEST_CYCLE {
            return Err(Refusal::CyclesSpent);
        }
        Ok(())
    }

    /// Whether this node has swept its last cycle, and, at node 0, each other node has reported it
    /// as swept. It takes time linear in the number of nodes.
    pub fn is_swept_everywhere(&self) -> bool
        ensures { result ≡ is_swept_everywhere self.now }
    {
        self.swept == self.cycle && others_reported(&self.reports, self.cycle)
    }

    /// Node 0 joins the next cycle, after [`Phases::may_begin`] has allowed it.
    pub fn begin(&mut self)
        requires { MayBegin self.old }
        ensures done { self.new ≡ in_cycle (self.old.cycle + 1) self.old }
        ensures sound { IsPhases self.new }
    {
        self.join(self.cycle + 1);
    }

    /// Joins a cycle. It is the one after the present cycle, which the node has swept.
    pub fn join(&mut self, cycle: u64)
        requires next { cycle ≡ self.old.cycle + 1 }
        requires within { cycle ≤ GREATEST_CYCLE }
        requires swept { self.old.cycle ≤ self.old.swept }
        ensures done { self.new ≡ in_cycle cycle self.old }
        ensures sound { IsPhases self.new }
    {
        self.cycle = cycle;
        self.cursor = 0;
    }

    /// Notes that marking has ended in the node's cycle: the node was told so, or is node 0 and
    /// found it.
    pub fn on_ended(&mut self)
        ensures done { self.new ≡ with_ended self.old }
        ensures sound { IsPhases self.new }
    {
        self.ended = self.cycle;
    }

    /// Notes at node 0 that a node has swept this cycle, which is no later than node 0's own.
    pub fn on_swept(&mut self, from: u8, stamp: u64)
        requires there { from < length self.old.reports }
        requires within { stamp ≤ self.old.cycle }
        ensures done { self.new ≡ with_report from stamp self.old }
        ensures sound { IsPhases self.new }
    {
        self.reports[usize::from(from)] = stamp;
    }

    /// Notes that this many more slots are swept, and some are left. To be called while marking has
    /// ended in the cycle and the node hasn't swept it.
    pub fn advance(&mut self, count: u32)
        requires open { self.old.swept < self.old.ended }
        requires room { self.old.cursor + count < 2 ^ 32 }
        ensures done { self.new ≡ advanced count self.old }
        ensures sound { IsPhases self.new }
    {
        self.cursor += count;
    }

    /// Notes that all slots are swept, and so the cycle is. To be called while marking has ended in
    /// the cycle and the node hasn't swept it.
    pub fn end_sweep(&mut self)
        requires { self.old.swept < self.old.ended }
        ensures done { self.new ≡ all_swept self.old }
        ensures sound { IsPhases self.new }
    {
        self.swept = self.cycle;
        self.cursor = 0;
    }
}

// Whether each node except node 0 has reported the cycle.
fn others_reported(reports: &[u64], cycle: u64) -> bool
    ensures { result ≡ list_all (λ report. report == cycle) (drop 1 reports.now) }
{
    reports.iter().skip(1).all(|report| *report == cycle)
}
