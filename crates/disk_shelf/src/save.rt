//! The disk calls of which saves and openings consist. Each function makes only a few calls, so
//! that its contract says what a crash leaves after each.
ghost use Rattle.std.specs.Prelude.{◌≡◌, ◌⊎◌, ◌++◌, ◌%◌, ◌==◌, ◌≤◌, ◌-◌, length, drop, take, IfErr, IfOk, IsErr};
ghost use Rattle.std.specs.Prelude.{IsErrOf, IsTrue, OnOk, Some, None, false, not, ◌<◌, ◌^◌, ◌↔◌};
ghost use Rattle.disk.specs.Areas.{Changes, Holds, IsBlank, part, Torn};
ghost use Rattle.disk.specs.Crashes.{HasCause, LeavesOnly, Only, StaysBlank, Unmoved};
ghost use Rattle.disk_shelf.specs.Refusals.{IsReadRefusal};
ghost use Rattle.disk_shelf.specs.Shelf.{IsWhole, half as half_of};
ghost use Rattle.disk_shelf.specs.Shelf.{IsLength, record_of, recorded, side, told, TellsLength};
ghost use Rattle.disk_shelf.specs.declared.persist.TheConstants.{GREATEST_SAVED};

use crate::{GREATEST_SAVED, HEAD};
use disk::{Area, Disk, DiskFault};
use ids::{GREATEST_IMAGE, Refusal};
use std::alloc::{AllocError, Global};

/// The area on a side.
pub(crate) fn half(in_b: bool) -> Area
    ensures { result ≡ half_of in_b }
{
    if in_b { Area::B } else { Area::A }
}

/// What is written for an image: its length, and the image. Fails if there is no memory for that.
#[tactic(auto, unfolding(crate::specs::Shelf::record_of))]
pub fn record(alloc: Global, image: &[u8]) -> Result<Vec<u8>, AllocError>
    ensures { IfOk result (λ v. v.items ≡ record_of image.now) }
{
    let mut bytes = Vec::with_capacity(alloc, image.len().saturating_add(HEAD))?;
    bytes.extend_from_slice(&(image.len() as u64).to_be_bytes())?;
    bytes.extend_from_slice(image)?;
    Ok(bytes)
}

/// Puts the length of an image in place of the zeros before it.
#[tactic(auto, unfolding(crate::specs::Shelf::record_of))]
pub(crate) fn put_length(bytes: &mut [u8])
    requires { HEAD ≤ length bytes.old }

    ensures { bytes.new ≡ record_of (drop 8 bytes.old) }
{
    let len = bytes.len() - HEAD;
    bytes[..HEAD].copy_from_slice(&(len as u64).to_be_bytes());
}

/// The image in what is written for it, up to this offset.
pub fn image_in(bytes: &[u8], end: usize) -> &[u8]
    requires behind { HEAD ≤ end }
    requires inside { end ≤ length bytes.now }

    ensures { result.now ≡ take (end - 8) (drop 8 bytes.now) }
{
    &bytes[HEAD..end]
}

/// Writes an area from an offset on, and syncs.
pub(crate) fn put<D: Disk>(
    disk: &mut D,
    area: Area,
    at: usize,
    bytes: &[u8],
) -> Result<(), DiskFault>
    requires within { at ≤ length (part area (D.seen disk.old)) }
    requires durable { Only (D.seen disk.old) (D.may_leave disk.old) }

    ensures any_moment { LeavesOnly D.moment D.left_since disk.old disk.new
        (Changes area (Torn at (length bytes.now)) (D.seen disk.old)) }
    ensures written { OnOk result
        (Changes area (Holds at bytes.now) (D.seen disk.old) (D.seen disk.new)) }
    ensures durable { OnOk result (Only (D.seen disk.new) (D.may_leave disk.new)) }
    ensures cause { HasCause (D.faults disk.old) (D.faults disk.new) (IsErr result) }
{
    disk.write_at(area, at, bytes)?;
    disk.sync()
}

/// Writes A and B from their starts.
fn write_both<D: Disk>(disk: &mut D, bytes: &[u8]) -> Result<(), DiskFault>
    requires { StaysBlank (D.may_leave disk.old) }

    ensures any_moment { LeavesOnly D.moment D.left_since disk.old disk.new IsBlank }
    ensures crash { StaysBlank (D.may_leave disk.new) }
    ensures a { OnOk result (Holds 0 bytes.now (D.seen disk.old).a (D.seen disk.new).a) }
    ensures b { OnOk result (Holds 0 bytes.now (D.seen disk.old).b (D.seen disk.new).b) }
    ensures cause { HasCause (D.faults disk.old) (D.faults disk.new) (IsErr result) }
{
    disk.write_at(Area::A, 0, bytes)?;
    disk.write_at(Area::B, 0, bytes)
}

/// Writes A and B from their starts, and syncs.
pub(crate) fn put_both<D: Disk>(disk: &mut D, bytes: &[u8]) -> Result<(), DiskFault>
    requires { StaysBlank (D.may_leave disk.old) }

    ensures any_moment { LeavesOnly D.moment D.left_since disk.old disk.new IsBlank }
    ensures a { OnOk result (Holds 0 bytes.now (D.seen disk.old).a (D.seen disk.new).a) }
    ensures b { OnOk result (Holds 0 bytes.now (D.seen disk.old).b (D.seen disk.new).b) }
    ensures durable { OnOk result (Only (D.seen disk.new) (D.may_leave disk.new)) }
    ensures cause { HasCause (D.faults disk.old) (D.faults disk.new) (IsErr result) }
{
    write_both(disk, bytes)?;
    disk.sync()
}

/// Fills `into` from the offset `at` of an area on. Returns whether there are enough bytes.
pub(crate) fn read_whole<D: Disk>(
    disk: &mut D,
    area: Area,
    at: usize,
    into: &mut [u8],
) -> Result<bool, DiskFault>
    ensures whole { IfOk result (λ all.
        IsWhole (part area (D.seen disk.old)) at all into.old into.new) }
    ensures quiet { Unmoved D.seen D.may_leave D.moment D.left_since disk.old disk.new }
    ensures cause { HasCause (D.faults disk.old) (D.faults disk.new) (IsErr result) }
{
    let found = disk.read(area, at, into)?;
    Ok(found >= into.len())
}

/// Whether an image at an offset of an area may have this length. More than [`GREATEST_IMAGE`]
/// bytes must be there, so that no damaged length makes a reader take much memory. Fails with
/// `Memory` only at an offset of 2^63 or more.
fn may_have<D: Disk>(disk: &mut D, area: Area, at: usize, len: u64) -> Result<bool, Refusal>
    ensures exact { IfOk result (λ all.
        IsTrue all ↔ IsLength len (drop at (part area (D.seen disk.old)))) }
    ensures far { IsErrOf result Refusal.Memory → 2 ^ 63 ≤ at }
    ensures quiet { Unmoved D.seen D.may_leave D.moment D.left_since disk.old disk.new }
    ensures cause { HasCause (D.faults disk.old) (D.faults disk.new) (IsErrOf result Refusal.Disk) }
    ensures others { IfErr result (λ e. (e ≡ Refusal.Memory) ⊎ (e ≡ Refusal.Disk)) }
{
    if len <= GREATEST_IMAGE {
        return Ok(true);
    }
    if len > GREATEST_SAVED {
        return Ok(false);
    }
    let Some(last) = at.checked_add(len as usize + HEAD - 1) else {
        return Err(Refusal::Memory);
    };
    let mut byte = [0; 1];
    let there = read_whole(disk, area, last, &mut byte)?;
    Ok(there)
}

/// The length of the image at an offset of an area, as the first bytes there say. Fails with
/// `BadImage` if there are too few bytes, or if no image there may have that length. Fails with
/// `Memory` only at an offset of 2^63 or more.
pub(crate) fn told_length<D: Disk>(disk: &mut D, area: Area, at: usize) -> Result<usize, Refusal>
    ensures told { IfOk result (λ n. told (drop at (part area (D.seen disk.old))) ≡ n) }
    ensures tells { OnOk result (TellsLength (drop at (part area (D.seen disk.old)))) }
    ensures none { IsErrOf result Refusal.BadImage →
        recorded (drop at (part area (D.seen disk.old))) ≡ None }
    ensures untold { IsErrOf result Refusal.BadImage →
        TellsLength (drop at (part area (D.seen disk.old))) → ⊥ }
    ensures far { IsErrOf result Refusal.Memory → 2 ^ 63 ≤ at }
    ensures quiet { Unmoved D.seen D.may_leave D.moment D.left_since disk.old disk.new }
    ensures cause { HasCause (D.faults disk.old) (D.faults disk.new) (IsErrOf result Refusal.Disk) }
    ensures others { IfErr result IsReadRefusal }
{
    let mut head = [0; HEAD];
    if !read_whole(disk, area, at, &mut head)? {
        return Err(Refusal::BadImage);
    }
    let len = u64::from_be_bytes(head);
    if !may_have(disk, area, at, len)? {
        return Err(Refusal::BadImage);
    }
    Ok(len as usize)
}

/// Reads the image that an area holds from an offset on. Fails with `BadImage` if it holds none,
/// and with `Memory` if there isn't enough memory for the length that the area says.
pub(crate) fn load<D: Disk>(
    alloc: Global,
    disk: &mut D,
    area: Area,
    at: usize,
) -> Result<Vec<u8>, Refusal>
    ensures image { IfOk result (λ v.
        recorded (drop at (part area (D.seen disk.old))) ≡ Some v.items) }
    ensures none { IsErrOf result Refusal.BadImage →
        recorded (drop at (part area (D.seen disk.old))) ≡ None }
    ensures memory { IsErrOf result Refusal.Memory → at < 2 ^ 63 →
        TellsLength (drop at (part area (D.seen disk.old))) }
    ensures quiet { Unmoved D.seen D.may_leave D.moment D.left_since disk.old disk.new }
    ensures cause { HasCause (D.faults disk.old) (D.faults disk.new) (IsErrOf result Refusal.Disk) }
    ensures others { IfErr result IsReadRefusal }
{
    let len = told_length(disk, area, at)?;
    let mut image = vec![in alloc; 0; len]?;
    let Some(from) = at.checked_add(HEAD) else {
        return Err(Refusal::Memory);
    };
    if !read_whole(disk, area, from, &mut image)? {
        return Err(Refusal::BadImage);
    }
    Ok(image)
}

/// Whether the byte at this offset of an area is odd, if there is one.
pub(crate) fn parity<D: Disk>(
    disk: &mut D,
    area: Area,
    at: usize,
) -> Result<Option<bool>, DiskFault>
    ensures side { IfOk result (λ o. side (drop at (part area (D.seen disk.old))) ≡ o) }
    ensures quiet { Unmoved D.seen D.may_leave D.moment D.left_since disk.old disk.new }
    ensures cause { HasCause (D.faults disk.old) (D.faults disk.new) (IsErr result) }
{
    let mut first = [0; 1];
    if !read_whole(disk, area, at, &mut first)? {
        return Ok(None);
    }
    Ok(Some(first[0] % 2 == 1))
}

/// Which side is selected.
pub(crate) fn chosen<D: Disk>(disk: &mut D) -> Result<Option<bool>, DiskFault>
    ensures side { IfOk result (λ o. side (D.seen disk.old).select ≡ o) }
    ensures quiet { Unmoved D.seen D.may_leave D.moment D.left_since disk.old disk.new }
    ensures cause { HasCause (D.faults disk.old) (D.faults disk.new) (IsErr result) }
{
    parity(disk, Area::Select, 0)
}
