//! The collector's share of a turn: what is tried, and how it is counted.
ghost use Rattle.std.specs.Prelude.{◌≡◌, ◌<◌, ◌≤◌, ◌+◌, ◌^◌, true, Result};
ghost use Rattle.model.specs.Steps.{is_own};
ghost use Rattle.c_handles.specs.Work.{Plays, Repeats, Scans, at, collects, counted, ending};
ghost use Rattle.c_handles.specs.Work.{event_of, freed_by, is_left, tried};
ghost use Rattle.c_handles.specs.declared.working.Task.{Task};
ghost use Rattle.c_handles.specs.declared.working.Task.TheVariants as task;
ghost use Rattle.c_values.specs.declared.fault.Fault.{Fault};
ghost use Rattle.model.specs.declared.event.Answer.{Answer};

use c_values::{CWork, Fault};
use ids::Refusal;
use model::{Answer, Event};
use node::Summary;

/// What the collector's share of a turn tries.
#[derive(Clone, Copy)]
pub(crate) enum Task {
    /// To receive the early message from a node whose turn has come.
    Receive { from: u8 },
    /// To scan a grey object.
    Scan,
    /// To pass the token.
    Pass,
    /// To sweep this many slots.
    Sweep { slots: u32 },
}

impl Task {
    /// The event.
    #[inline(always)]
    pub(crate) fn event(self) -> Event<'static>
        ensures event { result ≡ event_of self }
        ensures own { is_own result ≡ true }
    {
        match self {
            Task::Receive { from } => Event::Next { from },
            Task::Scan => Event::Scan,
            Task::Pass => Event::Pass,
            Task::Sweep { slots } => Event::Sweep { count: slots },
        }
    }

    /// Counts what was done.
    #[inline(always)]
    pub(crate) fn count(self, answer: Answer, work: &mut CWork)
        requires { tried work.old + 1 < 2 ^ 64 }
        ensures counted { work.new ≡ counted self answer work.old }
        ensures few { tried work.new ≤ tried work.old + 1 }
    {
        match self {
            Task::Receive { .. } => work.received += 1,
            Task::Scan => work.scanned += 1,
            Task::Pass => work.passed = 1,
            Task::Sweep { .. } => {
                work.swept = 1;
                work.freed = freed_by(answer);
            }
        }
    }
}

// How many objects a sweep freed, by its answer.
fn freed_by(answer: Answer) -> u32
    ensures { result ≡ freed_by answer }
{
    match answer {
        Answer::Freed { count, .. } => count,
        _ => 0,
    }
}

/// A fault ends the work, but not that there was nothing to do.
pub(crate) fn ending(fault: Fault) -> Result<(), Fault>
    ensures { result ≡ ending fault }
{
    match fault {
        Fault::Refused(Refusal::NothingToDo) => Ok(()),
        other => Err(other),
    }
}

/// Whether grey objects are left, or slots to be swept.
pub(crate) fn is_left(state: Summary) -> bool
    ensures { result ≡ is_left state }
{
    state.grey > 0 || state.swept < state.ended
}

/// What the collector works on: a node or a cell.
pub(crate) trait Worked {
    /// What a try of a task does.
    ghost does: { Task → Self → Self → Result Answer Fault → Type 0 };

    /// Tries a task.
    fn attempt(&mut self, task: Task) -> Result<Answer, Fault>
        ensures { does task self.old self.new result };

    /// Tries to scan an object.
    fn scan(&mut self) -> Result<(), Fault>
        ensures { Scans does self.old self.new result };
}

/// Tries a task until it fails, at most this often, and counts how often it was done.
#[inline(always)]
pub(crate) fn repeat<W: Worked>(
    on: &mut W,
    task: Task,
    most: u32,
    work: &mut CWork,
) -> Result<(), Fault>
    requires { tried work.old + most < 2 ^ 64 }
    ensures done { Repeats W.does task most (at on.old work.old) (at on.new work.new) result }
    ensures few { tried work.new ≤ tried work.old + most }
{
    for _ in 0..most {
        match on.attempt(task) {
            Ok(answer) => task.count(answer, work),
            Err(fault) => return ending(fault),
        }
    }
    Ok(())
}

// Scans until that fails, at most this often, and counts how often it was done.
#[inline(always)]
fn scan<W: Worked>(on: &mut W, most: u32, work: &mut CWork) -> Result<(), Fault>
    requires { tried work.old + most < 2 ^ 64 }
    ensures done { Repeats W.does task.Scan most (at on.old work.old) (at on.new work.new) result }
    ensures few { tried work.new ≤ tried work.old + most }
{
    for _ in 0..most {
        match on.scan() {
            Ok(()) => work.scanned += 1,
            Err(fault) => return ending(fault),
        }
    }
    Ok(())
}

/// Scans, passes the token, and sweeps.
pub(crate) fn collect<W: Worked>(
    on: &mut W,
    scans: u32,
    slots: u32,
    work: &mut CWork,
) -> Result<(), Fault>
    requires { tried work.old < 2 ^ 33 }
    ensures { Plays W.does (collects scans slots) (at on.old work.old) (at on.new work.new) result }
{
    scan(on, scans, work)?;
    repeat(on, Task::Pass, 1, work)?;
    repeat(on, Task::Sweep { slots }, slots.min(1), work)
}
