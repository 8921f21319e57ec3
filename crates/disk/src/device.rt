//! A disk as its users see it: what a read gives, and what a crash may leave. Only a successful
//! sync makes the two the same.
ghost use Rattle.std.specs.Prelude.{◌≡◌, ◌≤◌, ◌↔◌, ℕ, Bool, length, IfOk, IsErr, IsErrOf, OnOk, OnErr};
ghost use Rattle.ids.specs.declared.refusal.Refusal.TheVariants.{Disk as DiskRefused};
ghost use Rattle.disk.specs.Areas.{Areas, part, Changes, Holds, Torn, Reads};
ghost use Rattle.disk.specs.Crashes.{Follows, Reaches, Only, Elapses, HasCause};

use ids::Refusal;

/// One of the three areas of a disk. Each holds bytes, at first none.
#[derive(Clone, Copy, Debug, PartialEq, Eq)]
pub enum Area {
    /// The selector: its first byte says which of the other two areas counts.
    Select,
    A,
    B,
}

/// Why a call of a disk failed.
#[derive(Clone, Copy, Debug, PartialEq, Eq)]
pub enum DiskFault {
    /// The device failed.
    Device,
    /// A disk that keeps a record of itself had no memory for it. The call did nothing.
    Memory,
}

impl From<DiskFault> for Refusal {
    ghost from_gives = { λ _ e. e ≡ DiskRefused };

    fn from(_fault: DiskFault) -> Refusal {
        Refusal::Disk
    }
}

/// Three areas of bytes that can be read, written and synced, and what a crash may leave of them.
///
/// Until a sync succeeds, a crash may leave any bytes in each range that was written (a torn
/// write), even if the device failed during the write. The part of the range past the area's old
/// end may be missing from some byte on. Each of these outcomes is possible, and no other. Bytes
/// outside those ranges stay as they were. After a successful sync, a crash leaves what a read
/// gives.
pub trait Disk {
    /// What a read gives.
    ghost seen: { Self → Areas };

    /// What a crash at this moment may leave.
    ghost may_leave: { Self → Areas → Type 0 };

    /// This moment, as a number that never decreases.
    ghost moment: { Self → ℕ };

    /// What a crash at any moment since the given one may have left, within a call or between two
    /// calls.
    ghost left_since: { Self → ℕ → Areas → Type 0 };

    /// How many calls have failed.
    ghost faults: { Self → ℕ };

    /// What is saved here gets a seal, and is compared with it.
    ghost seals: { Self → Bool };

    /// Reads the bytes of an area from the offset `at` on, and returns how many were read: fewer
    /// than asked for only if the area ends. After a failure, `into` may hold anything.
    fn read(&mut self, area: Area, at: usize, into: &mut [u8]) -> Result<usize, DiskFault>
        ensures bytes { IfOk result (λ n.
            Reads (part area (seen self.old)) at n into.old into.new) }
        ensures seen { seen self.new ≡ seen self.old }
        ensures crash { (c : Areas) → may_leave self.new c → may_leave self.old c }
        ensures kept { (c : Areas) → may_leave self.old c → may_leave self.new c }
        ensures time { Elapses (moment self.old) (moment self.new)
            (left_since self.old) (left_since self.new) (may_leave self.new) }
        ensures cause { HasCause (faults self.old) (faults self.new) (IsErr result) };

    /// Overwrites bytes from the offset `at` on, and extends the area if they go past its end. If
    /// the device fails, a read gives some bytes in the range, the same ones each time; past the
    /// old end they may be missing from some byte on. A crash may then leave the same as after a
    /// successful write. If memory runs out, nothing has changed.
    fn write_at(&mut self, area: Area, at: usize, bytes: &[u8]) -> Result<(), DiskFault>
        requires { at ≤ length (part area (seen self.old)) }

        ensures written { OnOk result
            (Changes area (Holds at bytes.now) (seen self.old) (seen self.new)) }
        ensures failed { OnErr result
            (Changes area (Torn at (length bytes.now)) (seen self.old) (seen self.new)) }
        ensures crash { Follows (Changes area (Torn at (length bytes.now)))
            (may_leave self.old) (may_leave self.new) }
        ensures torn { OnOk result (Reaches (Changes area (Torn at (length bytes.now)))
            (may_leave self.old) (may_leave self.new)) }
        ensures torn_too { IsErrOf result DiskFault.Device →
            Reaches (Changes area (Torn at (length bytes.now)))
            (may_leave self.old) (may_leave self.new) }
        ensures refused { IsErrOf result DiskFault.Memory → (seen self.new ≡ seen self.old)
            × ((c : Areas) → may_leave self.new c ↔ may_leave self.old c) }
        ensures time { Elapses (moment self.old) (moment self.new)
            (left_since self.old) (left_since self.new) (may_leave self.new) }
        ensures cause { HasCause (faults self.old) (faults self.new) (IsErr result) };

    /// After success, a crash leaves what a read gives. A failure doesn't change what a crash may
    /// leave.
    fn sync(&mut self) -> Result<(), DiskFault>
        ensures durable { OnOk result (Only (seen self.old) (may_leave self.new)) }
        ensures seen { seen self.new ≡ seen self.old }
        ensures crash { (c : Areas) → may_leave self.new c → may_leave self.old c }
        ensures kept { OnErr result ((c : Areas) → may_leave self.old c → may_leave self.new c) }
        ensures time { Elapses (moment self.old) (moment self.new)
            (left_since self.old) (left_since self.new) (may_leave self.new) }
        ensures cause { HasCause (faults self.old) (faults self.new) (IsErr result) };

    /// How many calls have failed. Each failure increases it, up to the greatest number of 64 bits.
    fn failures(&self) -> u64
        ensures { result ≡ faults self.now };

    /// Whether what is saved on this disk gets a seal: a digest that shows at an opening whether
    /// the saved bytes have changed. It is for devices on which bytes may change by themselves.
    fn seals(&self) -> bool
        ensures { result ≡ seals self.now };

    /// A crash may leave what a read gives.
    ghost reads_left: { (disk : Self) → may_leave disk (seen disk) };

    /// This moment is one of those since an earlier one.
    ghost counts_now: { (disk : Self) (t : ℕ) (c : Areas) →
        t ≤ moment disk → may_leave disk c → left_since disk t c };

    /// Since this moment there is no other one.
    ghost only_now: { (disk : Self) (c : Areas) →
        left_since disk (moment disk) c → may_leave disk c };
}
