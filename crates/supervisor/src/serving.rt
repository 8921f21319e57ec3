//! A space from its opening to its closing, with workers and a program that acts in it meanwhile.
//! The program's source names no wire, and what the space leaves is nevertheless known to be of one
//! moment.
ghost use Rattle.std.specs.Prelude.{◌≡◌, All, IfErr, IfOk, IsTrue, Some, map};
ghost use Rattle.std.specs.List.{range_with_len};
ghost use Rattle.std.specs.List.Sorted.{IsNonDecreasingBy, IsPermutation};
ghost use Rattle.ids.specs.declared.refusal.Refusal.TheVariants.{Memory};
ghost use Rattle.wire.specs.Readers.{opened_with};
ghost use Rattle.cell.specs.Closing.{AreOfOneMoment};
ghost use Rattle.cell.specs.Names.{name_of};
ghost use Rattle.supervisor.specs.Closing.{IsWhy};
ghost use Rattle.workers.specs.Runs.{IsReport};

use crate::closing::{Closed, Unclosed};
use crate::space::{Opened, SpaceOn};
use cell::Naming;
use disk::Disk;
use ids::Refusal;
use std::marker::Brand;
use std::sync::{Arc, Wait};
use std::thread::Threads;
use workers::{Gate, Report};

/// What a program does in a space until the space is closed; see [`Opened::serve`].
pub trait Program<R, D: Disk> {
    /// Acts in the space, while its workers take their turns.
    fn run<W: Naming>(&mut self, rt: &R, space: &SpaceOn<D, W>);
}

/// What a space leaves once its program is over.
#[derive(Drop)]
pub struct Served<D: Disk> {
    /// The reports of its workers, one for each node, sorted by node.
    pub reports: Vec<Report>,
    /// Its disks, as [`SpaceOn::close_at_once`] gives them out.
    pub closed: Result<Closed<D>, Unclosed<D>>,
}

// The same in a space whose wire has the name of `W`.
fn serve_on<W, R, D, G, P>(
    opened: Opened<D>,
    rt: &R,
    gate: Arc<G>,
    program: &mut P,
) -> Result<Served<D>, Refusal>
where
    W: Naming + Send + 'static,
    R: Threads + Wait + Clone + Send + Drop + 'static,
    D: Disk + Send + Drop + 'static,
    G: Gate + Send + Sync + Drop + 'static,
    P: Program<R, D>,
    requires named { W.wire ≡ Some (name_of opened.wire) }
    requires begun { IsTrue W.begun }
    ensures own { IfOk result (λ s. IsPermutation (range_with_len 0 opened.plan.nodes)
        (map (λ r. r.node) s.reports.items)) }
    ensures reports { IfOk result (λ s.
        All (λ r. ∥ IsReport r.node opened.plan.nodes opened.plan.turns r ∥₁) s.reports.items) }
    ensures sorted { IfOk result (λ s. IsNonDecreasingBy (λ r. r.node) s.reports.items) }
    ensures once { IfOk result (λ s. IfOk s.closed (λ c.
        AreOfOneMoment D.may_leave (opened_with opened.wire) c.disks.items)) }
    ensures why { IfOk result (λ s. IfErr s.closed (λ u.
        IsWhy opened.plan.nodes u.fault u.cells.items)) }
    ensures refused { IfErr result (λ e. e ≡ Memory) }
{
    let mut space = opened.share::<W>()?;
    space.start(rt, gate)?;
    program.run(rt, &space);
    let (reports, closed) = space.close_at_once(rt);
    Ok(Served { reports, closed })
}

impl<D: Disk + Send + Drop + 'static> Opened<D> {
    /// Starts the workers, which ask the gate at each point of their turns, and runs a program in
    /// the space. When the program returns, it closes the space. The disks are those of one moment
    /// (`once`). So a space that is opened on them begins in a world that a run reaches if this one
    /// did, and no such opening fails with `Ages` ([`Opened::open`], `closed`).
    ///
    /// Fails with `Memory` if an allocation or the creation of a thread failed before the program
    /// began; all disks are then dropped. When the disks aren't given out, and what comes back
    /// then, is as [`SpaceOn::close_at_once`] says.
    pub fn serve<R, G, P>(self, rt: &R, gate: Arc<G>, program: &mut P) -> Result<Served<D>, Refusal>
    where
        R: Threads + Wait + Clone + Send + Drop + 'static,
        G: Gate + Send + Sync + Drop + 'static,
        P: Program<R, D>,
        ensures own { IfOk result (λ s. IsPermutation (range_with_len 0 self.plan.nodes)
            (map (λ r. r.node) s.reports.items)) }
        ensures reports { IfOk result (λ s.
            All (λ r. ∥ IsReport r.node self.plan.nodes self.plan.turns r ∥₁) s.reports.items) }
        ensures sorted { IfOk result (λ s. IsNonDecreasingBy (λ r. r.node) s.reports.items) }
        ensures once { IfOk result (λ s. IfOk s.closed (λ c.
            AreOfOneMoment D.may_leave (opened_with self.wire) c.disks.items)) }
        ensures why { IfOk result (λ s. IfErr s.closed (λ u.
            IsWhy self.plan.nodes u.fault u.cells.items)) }
        ensures refused { IfErr result (λ e. e ≡ Memory) }
    {
        serve_on::<Brand, R, D, G, P>(self, rt, gate, program)
    }
}
