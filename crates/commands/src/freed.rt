//! How many objects the sweeps of each cycle of a script freed. The sums are computed from the
//! answers to sweeps. So if there is no memory for them, later reports fail, but no sweep does.
ghost use Rattle.std.specs.Prelude.{◌≡◌, ◌≢◌, ℕ, ◌-◌, ◌+◌, ◌<◌, List, [], IfOk, IfErr, OnSome, slice_index, slice_set};
ghost use Rattle.ids.specs.declared.refusal.Refusal.TheVariants.{Memory};
ghost use Rattle.model.specs.declared.step.Outcome.TheVariants as outcome;
ghost use Rattle.model.specs.declared.step.Step.TheVariants as step;
ghost use Rattle.commands.specs.Freed.{KeepsSums, freed_in, freed_more, padded, sweeper};

use ids::Refusal;
use model::{Answer, Event};
use std::alloc::Global;

/// How many objects the sweeps of each cycle freed, from the first cycle on. `None` if memory for
/// that ran out, or a sum grew too large.
#[derive(Drop)]
pub(crate) struct Freed {
    sums: Option<Vec<u64>>,
}

impl Freed {
    /// Before any sweep.
    pub(crate) fn new(alloc: Global) -> Freed
        ensures { KeepsSums result.sums [] }
    {
        Freed {
            sums: Some(Vec::new(alloc)),
        }
    }

    /// Adds this many objects, which a sweep of this cycle freed.
    pub(crate) fn add(&mut self, cycle: u64, count: u32)
        ensures { (sums : List ℕ) → KeepsSums self.old.sums sums
            → KeepsSums self.new.sums (freed_more cycle count sums) }
    {
        if cycle == 0 {
            return;
        }
        let Some(sums) = &mut self.sums else {
            return;
        };
        if add_at(sums, cycle as usize, u64::from(count)).is_none() {
            self.sums = None;
        }
    }

    /// The sums, for the cycles from the first on. `Memory` if they aren't known, or there is no
    /// room for them; never before the first sweep.
    pub(crate) fn sums(&self, alloc: Global) -> Result<Vec<u64>, Refusal>
        ensures known { (sums : List ℕ) → KeepsSums self.now.sums sums
            → IfOk result (λ v. v.items ≡ sums) }
        ensures refused { IfErr result (λ e. e ≡ Memory) }
        ensures swept { (sums : List ℕ) → KeepsSums self.now.sums sums
            → IfErr result (λ e. sums ≢ []) }
    {
        let Some(sums) = &self.sums else {
            return Err(Refusal::Memory);
        };
        if sums.is_empty() {
            return Ok(Vec::new(alloc));
        }
        Ok(Vec::from_slice(alloc, sums.as_slice())?)
    }
}

/// Adds to the sum of this cycle; cycles count from 1. `None` if memory runs out, or the sum is too
/// large.
fn add_at(sums: &mut Vec<u64>, cycle: usize, count: u64) -> Option<()>
    requires { 0 < cycle }
    ensures { OnSome result (sums.new.items ≡ slice_set (padded cycle sums.old.items) (cycle - 1)
        (slice_index (padded cycle sums.old.items) (cycle - 1) + count)) }
{
    if sums.len() < cycle {
        sums.resize(cycle, 0).ok()?;
    }
    sums[cycle - 1] = sums[cycle - 1].checked_add(count)?;
    Some(())
}

/// The node that is asked to sweep, if an event of this node asks for that.
pub(crate) fn sweeper(node: u8, event: &Event) -> Option<u8>
    ensures { result ≡ sweeper (step.Act node event.now) }
{
    match event {
        Event::Sweep { .. } => Some(node),
        _ => None,
    }
}

/// How many objects were freed, if an answer says so.
pub(crate) fn freed_by(answer: &Answer) -> Option<u32>
    ensures { result ≡ freed_in (outcome.Answer answer.now) }
{
    match answer {
        Answer::Freed { count, .. } => Some(*count),
        _ => None,
    }
}
