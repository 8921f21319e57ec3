//! What a disk holds: whether something was created on it, and the image that it opens to.
ghost use Rattle.std.specs.Prelude.{◌≡◌, ◌↔◌, ◌≤◌, [], ◌∷◌, length};
ghost use Rattle.std.specs.Prelude.{IfErr, IfOk, IsErr, IsErrOf, IsTrue, OnOk};
ghost use Rattle.std.specs.Prelude.{None, Some};
ghost use Rattle.disk.specs.Areas.{IsBlank};
ghost use Rattle.disk.specs.Crashes.{HasCause, Only, StaysBlank, Unmoved};
ghost use Rattle.disk.specs.Memory.{IsFaultless, held_by, left_by};
ghost use Rattle.disk_shelf.specs.Refusals.{IsReadRefusal, IsUnwritten};
ghost use Rattle.disk_shelf.specs.Shelf.{OpensTo, opened, record_of, SelectsLength, side};
ghost use Rattle.disk_shelf.specs.declared.persist.TheConstants.{GREATEST_SAVED};

use crate::save::{chosen, half, load, put_length, record};
use crate::{GREATEST_SAVED, HEAD, Persist};
use disk::{Disk, DiskFault, MemoryDisk};
use ids::Refusal;
use std::alloc::Global;

/// Syncs a disk, and returns which side is selected.
fn synced_side<D: Disk>(disk: &mut D) -> Result<Option<bool>, DiskFault>
    ensures side { IfOk result (λ o. side (D.seen disk.old).select ≡ o) }
    ensures durable { OnOk result (Only (D.seen disk.new) (D.may_leave disk.new)) }
    ensures quiet { Unmoved D.seen D.may_leave D.moment D.left_since disk.old disk.new }
    ensures cause { HasCause (D.faults disk.old) (D.faults disk.new) (IsErr result) }
{
    disk.sync()?;
    chosen(disk)
}

/// Syncs a disk, and returns whether nothing was ever created on it.
pub fn is_blank<D: Disk>(disk: &mut D) -> Result<bool, DiskFault>
    ensures exact { IfOk result (λ b. IsTrue b ↔ IsBlank (D.seen disk.old)) }
    ensures blank { IfOk result (λ b. IsTrue b → StaysBlank (D.may_leave disk.new)) }
    ensures quiet { Unmoved D.seen D.may_leave D.moment D.left_since disk.old disk.new }
    ensures cause { HasCause (D.faults disk.old) (D.faults disk.new) (IsErr result) }
{
    let side = synced_side(disk)?;
    Ok(side.is_none())
}

/// Syncs a disk, so that no crash takes back what is read, and then returns the image that it opens
/// to and the side that holds it: whether that is the area B. It writes nothing.
///
/// Fails with `Disk` if the device failed, and with `BadImage` if the disk opens to no image. Fails
/// with `Memory` if the disk records a plausible length but there is no memory for the image. The
/// disk then holds what it held, even after a crash.
pub fn recall_image<D: Disk>(alloc: Global, disk: &mut D) -> Result<(bool, Vec<u8>), Refusal>
    ensures side { IfOk result (λ r. side (D.seen disk.old).select ≡ Some r.0) }
    ensures image { IfOk result (λ r. OpensTo r.1.items (D.seen disk.old)) }
    ensures tells { OnOk result (SelectsLength (D.seen disk.old)) }
    ensures durable { OnOk result (Only (D.seen disk.new) (D.may_leave disk.new)) }
    ensures bad { IsErrOf result Refusal.BadImage → opened (D.seen disk.old) ≡ None }
    ensures memory { IsErrOf result Refusal.Memory → SelectsLength (D.seen disk.old) }
    ensures quiet { Unmoved D.seen D.may_leave D.moment D.left_since disk.old disk.new }
    ensures cause { HasCause (D.faults disk.old) (D.faults disk.new) (IsErrOf result Refusal.Disk) }
    ensures others { IfErr result IsReadRefusal }
{
    let side = synced_side(disk)?;
    let Some(in_b) = side else {
        return Err(Refusal::BadImage);
    };
    let image = load(alloc, disk, half(in_b), 0)?;
    Ok((in_b, image))
}

/// What is written for a value: the length of its image, and the image, which a log is to follow or
/// not. Fails as [`Persist::to_bytes`] does.
#[tactic(auto, using(crate::proofs::Records::put_all))]
pub fn spelled<P: Persist>(
    alloc: Global,
    logged: bool,
    value: &P::Value,
) -> Result<Vec<u8>, Refusal>
    ensures bytes { IfOk result (λ v. v.items ≡ record_of (P.image logged value.now)) }
    ensures readable { OnOk result (P.reads (P.image logged value.now) (P.saved value.now)) }
    ensures fits { OnOk result (length (P.image logged value.now) ≤ GREATEST_SAVED) }
    ensures within { OnOk result (P.too_large value.now → ⊥) }
    ensures refused { IfErr result (IsUnwritten (P.too_large value.now)) }
{
    let mut bytes = P::to_bytes(alloc, logged, value)?;
    if bytes.len() as u64 - HEAD as u64 > GREATEST_SAVED {
        // (no vector is so long)
        return Err(Refusal::Memory);
    }
    put_length(&mut bytes);
    Ok(bytes)
}

/// A disk in memory that holds this image, with nothing behind it, and a crash leaves it so. Fails
/// with `Memory` if an allocation fails.
pub fn disk_of_image(alloc: Global, image: &[u8]) -> Result<MemoryDisk, Refusal>
    ensures held { IfOk result (λ d.
        held_by d ≡ record { select = 0 ∷ []; a = record_of image.now; b = [] }) }
    ensures durable { IfOk result (λ d. Only (held_by d) (left_by d)) }
    ensures faultless { IfOk result IsFaultless }
    ensures memory { IfErr result (λ e. e ≡ Refusal.Memory) }
{
    let select = Vec::from_slice(alloc, &[0])?;
    let a = record(alloc, image)?;
    Ok(MemoryDisk::of_areas(alloc, select, a, Vec::new(alloc)))
}
