//! A disk in memory, which can be made to fail and to crash. It keeps what a write replaces only
//! while a crash may bring that back.
ghost use Rattle.std.specs.Prelude.{◌≡◌, ◌≤◌, ◌↔◌, length, IfOk, IfErr, IsErr, IsErrOf, OnOk};
ghost use Rattle.std.specs.Prelude.{IsTrue, OnErr, false};
ghost use Rattle.disk.specs.Areas.{Areas, Changes, Holds, Reads, Torn, part};
ghost use Rattle.disk.specs.Crashes.{Follows, HasCause, Only, Reaches};
ghost use Rattle.disk.specs.Record.{areas_of, leaves, left_since, moments, Passes, synced};
ghost use Rattle.disk.specs.Record.{reads_left, counts_now, only_now};
ghost use Rattle.disk.specs.Plan.{AsPlanned, fails_from, fails_once, OnlyAsPlanned};
ghost use Rattle.disk.specs.Undo.{undone, IsUndone};

use crate::account::Account;
use crate::plan::{Plan, falters};
use crate::state::Contents;
use crate::undo::Undo;
use crate::{Area, Disk, DiskFault};
use ids::Refusal;
use std::alloc::{AllocError, Global};

/// A disk in memory. It fails as the last call of [`fail_from`](MemoryDisk::fail_from) or
/// [`fail_once`](MemoryDisk::fail_once) said, and when there is no memory for its record.
///
/// It keeps its current content and, until the next successful sync, the bytes that each write
/// replaced, and a few words for each write.
pub struct MemoryDisk {
    pub(crate) account: Account,
    // What the writes since the last sync replaced.
    undo: Vec<Undo>,
    plan: Plan,
    ghost undoes: { undone undo.items (areas_of account.state.held) ≡ synced account.state },
}

// Written out, so that the crates above need not prove again how each field is dropped.
impl Drop for MemoryDisk {
    fn drop(self) {
        let MemoryDisk {
            account: _,
            undo: _,
            plan: _,
        } = self;
    }
}

impl MemoryDisk {
    ghost use Rattle.disk.specs.Memory.{AfterCrash, blank, held_by, IsFaultless, left_by};

    /// A disk that holds nothing, and a crash leaves it so.
    pub fn new(alloc: Global) -> MemoryDisk
        ensures blank { held_by result ≡ blank }
        ensures durable { Only blank (left_by result) }
        ensures faultless { IsFaultless result }
    {
        MemoryDisk::holding(alloc, Contents::new(alloc))
    }

    /// A disk whose areas hold these bytes, and a crash leaves it so.
    pub fn of_areas(alloc: Global, select: Vec<u8>, a: Vec<u8>, b: Vec<u8>) -> MemoryDisk
        ensures held { held_by result
            ≡ record { select = select.items; a = a.items; b = b.items } }
        ensures durable { Only (held_by result) (left_by result) }
        ensures faultless { IsFaultless result }
    {
        MemoryDisk::holding(alloc, Contents { select, a, b })
    }

    // A disk that holds this, all of it synced.
    fn holding(alloc: Global, held: Contents) -> MemoryDisk
        ensures held { held_by result ≡ areas_of held }
        ensures durable { Only (areas_of held) (left_by result) }
        ensures faultless { IsFaultless result }
    {
        MemoryDisk {
            account: Account::new(alloc, held),
            undo: Vec::new(alloc),
            plan: Plan::Never,
        }
    }

    /// From now on, the disk's calls fail as this plan says.
    pub fn follow(&mut self, plan: Plan)
        ensures plan { self.new.plan ≡ plan }
        ensures account { self.new.account ≡ self.old.account }
    {
        self.plan = plan;
    }

    /// From now on, the `k`-th read, write or sync and all later ones fail; 0 means the same as 1:
    /// all fail.
    pub fn fail_from(&mut self, k: u64)
        ensures plan { self.new.plan ≡ fails_from k }
        ensures account { self.new.account ≡ self.old.account }
    {
        self.follow(Plan::from_call(k));
    }

    /// The `k`-th read, write or sync from now on fails, and no later one; 0 means the same as 1:
    /// the next one.
    pub fn fail_once(&mut self, k: u64)
        ensures plan { self.new.plan ≡ fails_once k }
        ensures account { self.new.account ≡ self.old.account }
    {
        self.follow(Plan::at_call(k));
    }

    // What the disk knows of itself.
    pub(crate) fn into_account(self) -> Account
        ensures { result ≡ self.account }
    {
        let MemoryDisk {
            account,
            undo: _,
            plan: _,
        } = self;
        account
    }

    // Keeps what a write of `len` bytes at this offset replaces, before the write. If memory runs
    // out, nothing changes.
    fn keep(&mut self, area: Area, at: usize, len: usize) -> Result<(), AllocError>
        requires { at ≤ length (part area (areas_of self.old.account.state.held)) }

        ensures account { self.new.account ≡ self.old.account }
        ensures plan { self.new.plan ≡ self.old.plan }
        ensures undoes { OnOk result (IsUndone area at len self.new.undo.items
            (areas_of self.old.account.state.held) (synced self.old.account.state)) }
    {
        let undo = Undo::of(self.account.alloc, &self.account.state.held, area, at, len)?;
        self.undo.push(undo)?;
        Ok(())
    }

    // What the disk held at the last sync.
    fn last_synced(&self) -> Result<Contents, AllocError>
        ensures { IfOk result (λ c. areas_of c ≡ synced self.now.account.state) }
    {
        let mut last = self.account.state.held.copied(self.account.alloc)?;
        let mut left = self.undo.len();
        while left > 0 {
            left -= 1;
            self.undo[left].undo(&mut last)?;
        }
        Ok(last)
    }

    /// The disk that a crash now leaves if each byte that was written since the last sync became
    /// `fill`. None of its calls fail, and a crash leaves it as it is. Fails with `Memory` if an
    /// allocation fails.
    pub fn after_crash(&self, fill: u8) -> Result<MemoryDisk, Refusal>
        ensures left { IfOk result (AfterCrash fill self.now) }
        ensures memory { IfErr result (λ e. e ≡ Refusal.Memory) }
    {
        let alloc = self.account.alloc;
        let last = self.last_synced()?;
        let left = self.account.state.filled(alloc, last, fill)?;
        Ok(MemoryDisk::holding(alloc, left))
    }
}

/// What has a disk in memory, which tests make fail and crash: a store over such a disk.
pub trait OverMemory {
    ghost use Rattle.disk.specs.Memory.{AfterCrash};
    ghost use Rattle.disk.specs.declared.memory.MemoryDisk.{MemoryDisk};

    /// The disk.
    ghost disk: { Self → MemoryDisk };

    /// All that isn't on the disk is the same.
    ghost same: { Self → Self → Type 0 };

    /// From now on, the disk's calls fail as this plan says.
    fn follow(&mut self, plan: Plan)
        ensures plan { (disk self.new).plan ≡ plan }
        ensures account { (disk self.new).account ≡ (disk self.old).account }
        ensures same { same self.old self.new };

    /// The disk that a crash now leaves; see [`MemoryDisk::after_crash`].
    fn after_crash(&self, fill: u8) -> Result<MemoryDisk, Refusal>
        ensures left { IfOk result (AfterCrash fill (disk self.now)) }
        ensures memory { IfErr result (λ e. e ≡ Refusal.Memory) };

    /// From now on, the `k`-th call of the disk and all later ones fail; see
    /// [`MemoryDisk::fail_from`].
    fn fail_from(&mut self, k: u64)
        ensures plan { (disk self.new).plan ≡ fails_from k }
        ensures account { (disk self.new).account ≡ (disk self.old).account }
        ensures same { same self.old self.new }
    {
        self.follow(Plan::from_call(k));
    }

    /// The `k`-th call of the disk from now on fails, and no later one; see
    /// [`MemoryDisk::fail_once`].
    fn fail_once(&mut self, k: u64)
        ensures plan { (disk self.new).plan ≡ fails_once k }
        ensures account { (disk self.new).account ≡ (disk self.old).account }
        ensures same { same self.old self.new }
    {
        self.follow(Plan::at_call(k));
    }
}

impl Disk for MemoryDisk {
    ghost seen = { λ d. areas_of d.account.state.held };

    ghost may_leave = { λ d. leaves d.account.state };

    ghost moment = { λ d. moments d.account.past.value };

    ghost left_since = { λ d. left_since d.account.past.value d.account.state };

    ghost faults = { λ d. d.account.failures };

    ghost seals = { λ _. false };

    /// Fails only as planned.
    fn read(&mut self, area: Area, at: usize, into: &mut [u8]) -> Result<usize, DiskFault>
        ensures bytes { IfOk result (λ n.
            Reads (part area (areas_of self.old.account.state.held)) at n into.old into.new) }
        ensures state { self.new.account.state ≡ self.old.account.state }
        ensures past { self.new.account.past ≡ self.old.account.past }
        ensures cause { HasCause self.old.account.failures self.new.account.failures
            (IsErr result) }
        ensures plan { OnlyAsPlanned self.old.plan self.new.plan (IsErr result) }
    {
        if falters(&mut self.plan) {
            return Err(self.account.fault(DiskFault::Device));
        }
        Ok(self.account.state.held.read(area, at, into))
    }

    /// If it fails, a read gives what it gave before.
    fn write_at(&mut self, area: Area, at: usize, bytes: &[u8]) -> Result<(), DiskFault>
        requires { at ≤ length (part area (areas_of self.old.account.state.held)) }

        ensures written { OnOk result (Changes area (Holds at bytes.now)
            (areas_of self.old.account.state.held) (areas_of self.new.account.state.held)) }
        ensures failed { OnErr result (Changes area (Torn at (length bytes.now))
            (areas_of self.old.account.state.held) (areas_of self.new.account.state.held)) }
        ensures kept { OnErr result
            (areas_of self.new.account.state.held ≡ areas_of self.old.account.state.held) }
        ensures crash { Follows (Changes area (Torn at (length bytes.now)))
            (leaves self.old.account.state) (leaves self.new.account.state) }
        ensures torn { OnOk result (Reaches (Changes area (Torn at (length bytes.now)))
            (leaves self.old.account.state) (leaves self.new.account.state)) }
        ensures torn_too { IsErrOf result DiskFault.Device →
            Reaches (Changes area (Torn at (length bytes.now)))
            (leaves self.old.account.state) (leaves self.new.account.state) }
        ensures refused { IsErrOf result DiskFault.Memory →
            (areas_of self.new.account.state.held ≡ areas_of self.old.account.state.held)
            × ((c : Areas) → leaves self.new.account.state c ↔ leaves self.old.account.state c) }
        ensures time { Passes self.old.account self.new.account }
        ensures cause { HasCause self.old.account.failures self.new.account.failures
            (IsErr result) }
        ensures plan { AsPlanned self.old.plan self.new.plan (IsErr result) }
    {
        if falters(&mut self.plan) {
            self.account.risk(area, at, bytes.len())?;
            return Err(self.account.fault(DiskFault::Device));
        }
        if self.keep(area, at, bytes.len()).is_err() {
            return Err(self.account.fault(DiskFault::Memory));
        }
        self.account.begin(area, at, bytes.len())?;
        self.account.state.write(area, at, bytes);
        Ok(())
    }

    /// Fails only as planned.
    fn sync(&mut self) -> Result<(), DiskFault>
        ensures durable { OnOk result
            (Only (areas_of self.old.account.state.held) (leaves self.new.account.state)) }
        ensures seen { areas_of self.new.account.state.held ≡ areas_of self.old.account.state.held }
        ensures crash { (c : Areas) →
            leaves self.new.account.state c → leaves self.old.account.state c }
        ensures kept { OnErr result ((c : Areas) →
            leaves self.old.account.state c → leaves self.new.account.state c) }
        ensures time { Passes self.old.account self.new.account }
        ensures cause { HasCause self.old.account.failures self.new.account.failures
            (IsErr result) }
        ensures plan { OnlyAsPlanned self.old.plan self.new.plan (IsErr result) }
    {
        if falters(&mut self.plan) {
            return Err(self.account.fault(DiskFault::Device));
        }
        self.account.settle();
        self.undo.clear();
        Ok(())
    }

    fn failures(&self) -> u64 {
        self.account.failures
    }

    /// Memory needs no seals.
    fn seals(&self) -> bool {
        false
    }

    ghost reads_left = { λ d. reads_left d.account.state };

    ghost counts_now = { λ d. counts_now d.account };

    ghost only_now = { λ d. only_now d.account };
}
