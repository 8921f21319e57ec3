//! What a disk that keeps a record of itself knows: its state, the failures and, for proofs, the
//! states that it had.
ghost use Rattle.std.specs.Prelude.{◌≡◌, ◌≤◌, ◌+◌, ◌↔◌, length, IfErr, IsErr, OnErr, OnOk, ⊤};
ghost use Rattle.disk.specs.Areas.{Areas, Changes, Torn, part, pasted, with_part};
ghost use Rattle.disk.specs.Crashes.{Elapses, Follows, HasCause, Only, Reaches};
ghost use Rattle.disk.specs.Record.{areas_of, HasPassed, IsThen, leaves, Passes, Risks, room, synced};

use crate::state::{Contents, Past, State, start, tick};
use crate::{Area, DiskFault};
use std::alloc::Global;
use std::snapshot::Snapshot;

/// What a disk knows of itself.
#[derive(Drop)]
pub struct Account {
    pub(crate) alloc: Global,
    pub(crate) state: State,
    pub(crate) past: Snapshot<Past>,
    pub(crate) failures: u64,
}

impl Account {
    /// That of a disk that holds this, all of it synced.
    pub(crate) fn new(alloc: Global, held: Contents) -> Account
        ensures held { result.state.held ≡ held }
        ensures synced { synced result.state ≡ areas_of held }
        ensures durable { Only (areas_of held) (leaves result.state) }
        ensures failures { result.failures ≡ 0 }
    {
        Account {
            alloc,
            state: State::new(alloc, held),
            past: start(),
            failures: 0,
        }
    }

    /// Counts a failure.
    pub(crate) fn fault(&mut self, fault: DiskFault) -> DiskFault
        ensures same { result ≡ fault }
        ensures state { self.new.state ≡ self.old.state }
        ensures past { self.new.past ≡ self.old.past }
        ensures counted { HasCause self.old.failures self.new.failures ⊤ }
    {
        self.failures = self.failures.saturating_add(1);
        fault
    }

    /// After it, a crash leaves what a read gives.
    pub(crate) fn settle(&mut self)
        ensures held { self.new.state.held ≡ self.old.state.held }
        ensures synced { synced self.new.state ≡ areas_of self.old.state.held }
        ensures durable { Only (areas_of self.old.state.held) (leaves self.new.state) }
        ensures crash { (c : Areas) → leaves self.new.state c → leaves self.old.state c }
        ensures time { IsThen self.old.past.value self.old.state self.new.past.value }
        ensures failures { self.new.failures ≡ self.old.failures }
    {
        tick(&mut self.past, &self.state);
        self.state.settle();
    }

    /// One more moment has passed, and a crash may leave any bytes in this range. If there is no
    /// memory for the record, nothing changes.
    pub(crate) fn risk(&mut self, area: Area, at: usize, len: usize) -> Result<(), DiskFault>
        ensures held { self.new.state.held ≡ self.old.state.held }
        ensures synced { synced self.new.state ≡ synced self.old.state }
        ensures risks { Risks area at len self.old.state self.new.state result }
        ensures memory { IfErr result (λ e. e ≡ DiskFault.Memory) }
        ensures time { IsThen self.old.past.value self.old.state self.new.past.value }
        ensures cause { HasCause self.old.failures self.new.failures (IsErr result) }
    {
        tick(&mut self.past, &self.state);
        match self.state.note(area, at, len) {
            Ok(()) => Ok(()),
            Err(_) => Err(self.fault(DiskFault::Memory)),
        }
    }

    /// Makes room for this many bytes at this offset. A crash now may leave any bytes there. If
    /// memory runs out, nothing changes.
    pub(crate) fn begin(&mut self, area: Area, at: usize, len: usize) -> Result<(), DiskFault>
        requires { at ≤ length (part area (areas_of self.old.state.held)) }

        ensures held { areas_of self.new.state.held ≡ areas_of self.old.state.held }
        ensures synced { synced self.new.state ≡ synced self.old.state }
        ensures room { OnOk result (at + len ≤ room area self.new.state.held) }
        ensures risks { Risks area at len self.old.state self.new.state result }
        ensures memory { IfErr result (λ e. e ≡ DiskFault.Memory) }
        ensures gone { OnOk result
            (HasPassed self.old.past.value self.old.state self.new.past.value) }
        ensures time { OnErr result (Passes self.old self.new) }
        ensures cause { HasCause self.old.failures self.new.failures (IsErr result) }
    {
        if self.state.reserve(area, at, len).is_err() {
            return Err(self.fault(DiskFault::Memory));
        }
        self.risk(area, at, len)
    }
}
