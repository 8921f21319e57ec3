//! The disk calls that save an image, keep batches behind it, and find them again; the crate
//! `disk_journal` makes them. The selector makes an image count, and the byte before a batch, its
//! gate, makes the batch count; each is written only once what it selects is synced.
ghost use Rattle.std.specs.Prelude.{◌≡◌, ◌+◌, ◌<◌, ◌≤◌, ◌^◌, ◌%◌, ◌==◌, ◌++◌, ◌⊎◌, List, ℕ, [], ◌∷◌, length, not};
ghost use Rattle.std.specs.Prelude.{Bool, drop, IfErr, IfOk, IsErr, IsErrOf, OnOk, Some, false, is_some, true};
ghost use Rattle.disk.specs.Areas.{Areas, part};
ghost use Rattle.disk.specs.Crashes.{HasCause, LeavesOnly, Only, StaysBlank, Unmoved};
ghost use Rattle.disk_shelf.specs.Refusals.{IsReadRefusal};
ghost use Rattle.disk_shelf.specs.Logs.{HasLog, IsKept, IsLoggedTo, IsNext, IsShut, IsSpelled, IsWholeOn, LeadAll};
ghost use Rattle.disk_shelf.specs.Logs.{NoneOrWhole, OldOrNewLog, OldOrWhole, Opens, OpensIf, Reached, Restores};
ghost use Rattle.disk_shelf.specs.Seals.{gate_of, IsIntact};
ghost use Rattle.disk_shelf.specs.declared.persist.TheConstants.{GREATEST_SAVED};
ghost use Rattle.disk_shelf.specs.Shelf.{half as half_of, recorded, side};

use crate::save::{half, load, parity, put, put_both};
use crate::seal::{OPEN, OPEN_SEALED, SHUT, mark};
use crate::{HEAD, Persist};
use disk::{Area, Disk, DiskFault};
use ids::Refusal;
use std::alloc::{AllocError, Global};

/// What is written for an image or a batch, with the gate behind it. Fails if there is no memory
/// for the gate; the bytes are then dropped.
pub fn shut(bytes: Vec<u8>) -> Result<Vec<u8>, AllocError>
    ensures { IfOk result (λ v. v.items ≡ bytes.items ++ 0 ∷ []) }
{
    let mut bytes = bytes;
    bytes.push(SHUT)?;
    Ok(bytes)
}

/// What the gate before a batch becomes.
fn open_gate(seals: bool) -> u8
    ensures value { result ≡ gate_of seals }
    ensures odd { (result % 2 == 1) ≡ true }
{
    if seals { OPEN_SEALED } else { OPEN }
}

/// Adds a batch, as these bytes, behind the gate at the offset `end`, and then opens the gate. If
/// `seals` is true, the log has had seals until now, and one is behind the batch.
///
/// A crash at any moment since the call began leaves the old log or the one with the batch; after
/// `Ok` it leaves the latter. Fails if the device failed. Which of the two logs the disk has then,
/// shows when it is read again.
pub fn extend<D: Disk>(
    disk: &mut D,
    in_b: bool,
    end: usize,
    batch: &[u8],
    bytes: &[u8],
    seals: bool,
) -> Result<(), DiskFault>
    requires logged { IsLoggedTo D.seen D.may_leave disk.old in_b end }
    requires spelled { IsShut batch.now bytes.now }
    requires fits { length batch.now ≤ GREATEST_SAVED }
    requires room { end + 1 < 2 ^ 64 }

    ensures any_moment { (image : List ℕ) (batches : List (List ℕ))
        → Opens image batches (D.seen disk.old) → LeavesOnly D.moment D.left_since disk.old disk.new
        (OldOrNewLog image batches image (batches ++ batch.now ∷ [])) }
    ensures added { OnOk result ((image : List ℕ) (batches : List (List ℕ))
        → Opens image batches (D.seen disk.old)
        → Opens image (batches ++ batch.now ∷ []) (D.seen disk.new)) }
    ensures logged { OnOk result
        (IsLoggedTo D.seen D.may_leave disk.new in_b (end + 9 + length batch.now)) }
    ensures cause { HasCause (D.faults disk.old) (D.faults disk.new) (IsErr result) }
{
    let area = half(in_b);
    let gate = open_gate(seals);
    put(disk, area, end + 1, bytes)?;
    put(disk, area, end, &[gate])
}

/// Writes an image, as these bytes, into the area that isn't selected, and then selects that area.
/// `logged` says whether a log is to follow the image; its first gate ends it. If `seals` is true,
/// a seal is behind that.
///
/// A crash at any moment since the call began leaves the old image with its batches, or the new
/// image; after `Ok` it leaves the new one. Fails if the device failed. Which of the two the disk
/// has then, shows when it is read again.
pub fn turn<D: Disk>(
    disk: &mut D,
    in_b: bool,
    logged: bool,
    image: &[u8],
    bytes: &[u8],
    seals: bool,
) -> Result<(), DiskFault>
    requires durable { Only (D.seen disk.old) (D.may_leave disk.old) }
    requires selected { side (D.seen disk.old).select ≡ Some in_b }
    requires spelled { IsSpelled logged seals image.now bytes.now }
    requires fits { length image.now ≤ GREATEST_SAVED }

    ensures any_moment { (was : Bool) (old : List ℕ) (batches : List (List ℕ))
        → OpensIf was old batches (D.seen disk.old)
        → LeavesOnly D.moment D.left_since disk.old disk.new
        (OldOrWhole was old batches logged image.now) }
    ensures turned { OnOk result
        (IsWholeOn D.seen D.may_leave disk.new (not in_b) logged image.now) }
    ensures intact { logged ≡ false → OnOk result (IsIntact (D.seen disk.new)) }
    ensures cause { HasCause (D.faults disk.old) (D.faults disk.new) (IsErr result) }
{
    let choice = mark(logged, seals, !in_b);
    put(disk, half(!in_b), 0, bytes)?;
    put(disk, Area::Select, 0, &[choice])
}

/// Saves the first image of a disk, as these bytes: into both areas, so that a torn selector opens
/// to it too. The rest is as for [`turn`].
///
/// A crash at any moment since the call began leaves an empty selector or the image; after `Ok` it
/// leaves the image. Fails if the device failed.
pub fn begin<D: Disk>(
    disk: &mut D,
    logged: bool,
    image: &[u8],
    bytes: &[u8],
    seals: bool,
) -> Result<(), DiskFault>
    requires blank { StaysBlank (D.may_leave disk.old) }
    requires spelled { IsSpelled logged seals image.now bytes.now }
    requires fits { length image.now ≤ GREATEST_SAVED }

    ensures any_moment { LeavesOnly D.moment D.left_since disk.old disk.new
        (NoneOrWhole logged image.now) }
    ensures begun { OnOk result
        (IsWholeOn D.seen D.may_leave disk.new false logged image.now) }
    ensures intact { logged ≡ false → OnOk result (IsIntact (D.seen disk.new)) }
    ensures cause { HasCause (D.faults disk.old) (D.faults disk.new) (IsErr result) }
{
    let choice = mark(logged, seals, false);
    put_both(disk, bytes)?;
    put(disk, Area::Select, 0, &[choice])
}

/// The batch behind the gate at an offset, if the gate opens one. Fails with `BadImage` if there is
/// no gate, or an odd one with no batch behind it.
fn next_batch<D: Disk>(
    alloc: Global,
    disk: &mut D,
    area: Area,
    at: usize,
) -> Result<Option<Vec<u8>>, Refusal>
    ensures batch { IfOk result (IsNext (drop at (part area (D.seen disk.old)))) }
    ensures bad { IsErrOf result Refusal.BadImage → (batches : List (List ℕ))
        → HasLog batches (drop at (part area (D.seen disk.old))) → ⊥ }
    ensures quiet { Unmoved D.seen D.may_leave D.moment D.left_since disk.old disk.new }
    ensures cause { HasCause (D.faults disk.old) (D.faults disk.new) (IsErrOf result Refusal.Disk) }
    ensures others { IfErr result IsReadRefusal }
{
    let gate = parity(disk, area, at)?;
    let Some(is_open) = gate else {
        return Err(Refusal::BadImage);
    };
    if !is_open {
        return Ok(None);
    }
    let Some(start) = at.checked_add(1) else {
        return Err(Refusal::Memory);
    };
    let batch = load(alloc, disk, area, start)?;
    Ok(Some(batch))
}

/// Performs the batches from an offset of an area on, and returns the offset of the gate that ends
/// them. Fails with `BadImage` if there are no batches and gates, or if a batch leads to no value,
/// and with `Memory`. At any time it has one batch in memory.
fn replay<D: Disk, P: Persist>(
    alloc: Global,
    disk: &mut D,
    area: Area,
    at: usize,
    value: &mut P::Value,
) -> Result<usize, Refusal>
    requires { P.fresh value.old }

    ensures led { IfOk result (λ end. (batches : List (List ℕ))
        × Reached P.leads at end batches (part area (D.seen disk.old)) value.old value.new) }
    ensures bad { IsErrOf result Refusal.BadImage → (batches : List (List ℕ)) (last : P.Value)
        → HasLog batches (drop at (part area (D.seen disk.old)))
        → LeadAll P.leads batches value.old last → ⊥ }
    ensures quiet { Unmoved D.seen D.may_leave D.moment D.left_since disk.old disk.new }
    ensures cause { HasCause (D.faults disk.old) (D.faults disk.new) (IsErrOf result Refusal.Disk) }
    ensures others { IfErr result IsReadRefusal }
{
    let mut end = at;
    while let Some(batch) = next_batch(alloc, disk, area, end)? {
        let Some(next) = end.checked_add(batch.len() + HEAD + 1) else {
            return Err(Refusal::Memory);
        };
        P::redo(value, &batch)?;
        end = next;
    }
    Ok(end)
}

/// Performs the batches behind an image that was read as this value, if a log follows it. The side
/// is the one that is selected. Returns the offset of the gate that ends the log, or `None` if no
/// log follows the image. It writes nothing.
///
/// Fails with `Disk` if the device failed, with `BadImage` if the disk holds no value, and with
/// `Memory`. The value is then of no use, and the disk holds what it held, even after a crash.
pub fn replay_log<D: Disk, P: Persist>(
    alloc: Global,
    disk: &mut D,
    in_b: bool,
    image: &[u8],
    value: &mut P::Value,
) -> Result<Option<usize>, Refusal>
    requires durable { Only (D.seen disk.old) (D.may_leave disk.old) }
    requires selected { side (D.seen disk.old).select ≡ Some in_b }
    requires image { recorded (part (half_of in_b) (D.seen disk.old)) ≡ Some image.now }
    requires read { P.reads image.now value.old }

    ensures restored { OnOk result (Restores P.logs P.reads P.leads value.new (D.seen disk.old)) }
    ensures kept { IfOk result (λ end. IsKept D.seen D.may_leave P.logs disk.new in_b end) }
    ensures logged { IfOk result (λ end. is_some end ≡ P.logs image.now) }
    ensures bad { IsErrOf result Refusal.BadImage → (v : P.Value)
        → Restores P.logs P.reads P.leads v (D.seen disk.old) → ⊥ }
    ensures quiet { Unmoved D.seen D.may_leave D.moment D.left_since disk.old disk.new }
    ensures cause { HasCause (D.faults disk.old) (D.faults disk.new) (IsErrOf result Refusal.Disk) }
    ensures others { IfErr result IsReadRefusal }
{
    let start = HEAD + image.len();
    if !P::has_log(image) {
        return Ok(None);
    }
    let end = replay::<D, P>(alloc, disk, half(in_b), start, value)?;
    Ok(Some(end))
}
