//! Seals: digests behind an image or a log, in bytes that are ignored when a disk opens to a value.
//! The selector's byte and the gates say that there are seals. So an opening can find out whether
//! the bytes that count have changed since the save.
//!
//! An image that no log follows has its digest behind it. A log has two digests behind its last
//! gate, without its last batch and with it: so a seal that was written before the gate of its
//! batch was opened shows whether the log before that batch has changed.
ghost use Rattle.std.specs.Prelude.{◌≡◌, ◌↔◌, ◌++◌, ◌%◌, ◌==◌, ◌≤◌, List, ℕ, cond, length, drop, option_map};
ghost use Rattle.std.specs.Prelude.{IfErr, IfOk, IsErr, IsErrOf, IsTrue, OnOk, Some};
ghost use Rattle.md5.specs.Md5.{md5};
ghost use Rattle.disk.specs.Areas.{part};
ghost use Rattle.disk.specs.Crashes.{HasCause, Unmoved};
ghost use Rattle.disk_shelf.specs.Refusals.{IsReadRefusal};
ghost use Rattle.disk_shelf.specs.Seals.{behind, first_of, IsEndSealed, IsIntact, IsLogSeal, IsLogSealed};
ghost use Rattle.disk_shelf.specs.Seals.{IsMark, IsNextSealed, IsSealed, IsSealedBatch, IsSealFound, link};
ghost use Rattle.disk_shelf.specs.Seals.{log_mark_of, log_seal, mark_of, seal_of, SomeSealed};
ghost use Rattle.disk_shelf.specs.Shelf.{record_of};

use crate::HEAD;
use crate::save::{half, load, read_whole, told_length};
use disk::{Area, Disk, DiskFault};
use ids::Refusal;
use md5::{Digest, Md5};
use std::alloc::{AllocError, Global};

/// How many bytes a digest has.
pub const DIGEST: usize = 16;

/// How many bytes a seal has before its digests.
const SEAL_START: usize = 16;

/// How many bytes the seal of an image has, and that of a log.
const SEAL: usize = SEAL_START + DIGEST;

const LOG_SEAL: usize = SEAL_START + 3 * DIGEST;

/// What a seal begins with.
const SEAL_HEAD: [u8; SEAL_START] = *b"markring seal 01";

/// The selector's byte for side A, and for side B, if the image there has a seal.
const SEALED_A: u8 = 0xAA;

const SEALED_B: u8 = 0x55;

/// The same if the log there has seals.
const SEALED_LOG_A: u8 = 0xCC;

const SEALED_LOG_B: u8 = 0x33;

/// The selector's bytes below this one say nothing of seals.
const UNSEALED: u8 = 2;

/// A gate that ends the log.
pub(crate) const SHUT: u8 = 0;

/// A gate that opens a batch; and one that opens a batch with a seal.
pub(crate) const OPEN: u8 = 1;

pub(crate) const OPEN_SEALED: u8 = 0xFF;

/// The selector's byte for a side, whose image a log follows or not.
pub(crate) fn mark(logged: bool, seals: bool, in_b: bool) -> u8
    ensures value { result ≡ cond logged (log_mark_of seals in_b) (mark_of seals in_b) }
    ensures side { (result % 2 == 1) ≡ in_b }
{
    match (seals, logged, in_b) {
        (false, _, false) => 0,
        (false, _, true) => 1,
        (true, false, false) => SEALED_A,
        (true, false, true) => SEALED_B,
        (true, true, false) => SEALED_LOG_A,
        (true, true, true) => SEALED_LOG_B,
    }
}

/// What the selector's byte says of seals.
enum Marked {
    /// Nothing has a seal.
    Unsealed,
    /// On this side, an image has one.
    Image(bool),
    /// On this side, a log has them.
    Log(bool),
    /// No save writes such a byte.
    Unknown,
}

/// What the selector's byte says of seals.
fn what_marks(mark: u8) -> Marked
    ensures { IsMark mark result }
{
    match mark {
        0 | 1 => Marked::Unsealed,
        SEALED_A => Marked::Image(false),
        SEALED_B => Marked::Image(true),
        SEALED_LOG_A => Marked::Log(false),
        SEALED_LOG_B => Marked::Log(true),
        _ => Marked::Unknown,
    }
}

/// The digest of what is written for an image: that of a log without batches.
#[tactic(auto, unfolding(crate::specs::Shelf::record_of))]
pub fn first_digest(image: &[u8]) -> [u8; DIGEST]
    ensures { result ≡ md5 (record_of image.now) }
{
    let mut hasher = Md5::new();
    hasher.update((image.len() as u64).to_be_bytes());
    hasher.update(image);
    hasher.finalize()
}

/// The digest of a log with one more batch.
#[tactic(auto, unfolding(crate::specs::Shelf::record_of))]
pub fn next_digest(digest: &[u8; DIGEST], batch: &[u8]) -> [u8; DIGEST]
    ensures { result ≡ link digest.now batch.now }
{
    let mut hasher = Md5::new();
    hasher.update(digest);
    hasher.update((batch.len() as u64).to_be_bytes());
    hasher.update(batch);
    hasher.finalize()
}

/// What is written for an image that no log follows, with its seal behind it if `seals` is true.
/// Fails if there is no memory for the seal; the bytes are then dropped.
pub fn sealed(seals: bool, bytes: Vec<u8>) -> Result<Vec<u8>, AllocError>
    requires { HEAD ≤ length bytes.items }

    ensures { IfOk result (λ v. v.items ≡ bytes.items ++ behind seals (drop 8 bytes.items)) }
{
    if !seals {
        return Ok(bytes);
    }
    let digest = first_digest(&bytes[HEAD..]);
    let mut bytes = bytes;
    bytes.extend_from_slice(&SEAL_HEAD)?;
    bytes.extend_from_slice(&digest)?;
    Ok(bytes)
}

/// What is written for an image or a batch, with the seal of its log behind it: the digest of the
/// log before it, and the one with it. Fails if there is no memory for the seal; the bytes are then
/// dropped.
pub fn log_sealed(
    bytes: Vec<u8>,
    before: &[u8; DIGEST],
    now: &[u8; DIGEST],
) -> Result<Vec<u8>, AllocError>
    ensures { IfOk result (λ v. v.items ≡ bytes.items ++ log_seal before.now now.now) }
{
    let mut hasher = Md5::new();
    hasher.update(before);
    hasher.update(now);
    let check = hasher.finalize();
    let mut bytes = bytes;
    bytes.extend_from_slice(&SEAL_HEAD)?;
    bytes.extend_from_slice(before)?;
    bytes.extend_from_slice(now)?;
    bytes.extend_from_slice(&check)?;
    Ok(bytes)
}

/// The byte at an offset of an area, if there is one.
fn byte_at<D: Disk>(disk: &mut D, area: Area, at: usize) -> Result<Option<u8>, DiskFault>
    ensures byte { IfOk result (λ o. first_of (drop at (part area (D.seen disk.old))) ≡ o) }
    ensures quiet { Unmoved D.seen D.may_leave D.moment D.left_since disk.old disk.new }
    ensures cause { HasCause (D.faults disk.old) (D.faults disk.new) (IsErr result) }
{
    let mut first = [0; 1];
    if !read_whole(disk, area, at, &mut first)? {
        return Ok(None);
    }
    Ok(Some(first[0]))
}

/// Whether two strings of bytes are the same.
fn is_same(one: &[u8], other: &[u8]) -> bool
    ensures { IsTrue result ↔ (one.now ≡ other.now) }
{
    one == other
}

/// Whether these bytes are the seal of this image.
fn is_seal_of(image: &[u8], seal: &[u8; SEAL]) -> bool
    ensures { IsTrue result ↔ (seal.now ≡ seal_of image.now) }
{
    let digest = first_digest(image);
    is_same(&seal[..SEAL_START], &SEAL_HEAD) && is_same(&seal[SEAL_START..], &digest)
}

/// Compares the image of an area with the seal behind it. Fails with `BadImage` if there is no
/// image, or not its seal, and with `Memory` if there isn't enough for the image.
fn check_image<D: Disk>(alloc: Global, disk: &mut D, area: Area) -> Result<(), Refusal>
    ensures sealed { OnOk result (IsSealed (part area (D.seen disk.old))) }
    ensures bad { IsErrOf result Refusal.BadImage → IsSealed (part area (D.seen disk.old)) → ⊥ }
    ensures quiet { Unmoved D.seen D.may_leave D.moment D.left_since disk.old disk.new }
    ensures cause { HasCause (D.faults disk.old) (D.faults disk.new) (IsErrOf result Refusal.Disk) }
    ensures others { IfErr result IsReadRefusal }
{
    let image = load(alloc, disk, area, 0)?;
    let mut seal = [0; SEAL];
    if !read_whole(disk, area, HEAD + image.len(), &mut seal)? {
        return Err(Refusal::BadImage);
    }
    if is_seal_of(&image, &seal) {
        Ok(())
    } else {
        Err(Refusal::BadImage)
    }
}

/// The seal of a log at an offset of an area, if a whole one is there.
fn log_seal_at<D: Disk>(
    disk: &mut D,
    area: Area,
    at: usize,
) -> Result<Option<[u8; LOG_SEAL]>, DiskFault>
    ensures seal { IfOk result (λ o.
        IsSealFound (drop at (part area (D.seen disk.old))) o) }
    ensures quiet { Unmoved D.seen D.may_leave D.moment D.left_since disk.old disk.new }
    ensures cause { HasCause (D.faults disk.old) (D.faults disk.new) (IsErr result) }
{
    let mut seal = [0; LOG_SEAL];
    if !read_whole(disk, area, at, &mut seal)? {
        return Ok(None);
    }
    if is_log_seal(&seal) {
        Ok(Some(seal))
    } else {
        Ok(None)
    }
}

/// Whether these bytes are a whole seal of a log.
fn is_log_seal(seal: &[u8; LOG_SEAL]) -> bool
    ensures { IsTrue result ↔ IsLogSeal seal.now }
{
    let check = Md5::digest(&seal[SEAL_START..LOG_SEAL - DIGEST]);
    is_same(&seal[..SEAL_START], &SEAL_HEAD) && is_same(&seal[LOG_SEAL - DIGEST..], &check)
}

/// Compares the seal of a log behind a batch whose gate wasn't opened, if there is one, with the
/// digest of the log before that batch. The batch begins at this offset. Fails with `BadImage` if
/// the digests differ.
fn check_next<D: Disk>(
    disk: &mut D,
    area: Area,
    at: usize,
    digest: &[u8; DIGEST],
) -> Result<(), Refusal>
    ensures sealed { OnOk result
        (IsNextSealed digest.now (drop at (part area (D.seen disk.old)))) }
    ensures bad { IsErrOf result Refusal.BadImage →
        IsNextSealed digest.now (drop at (part area (D.seen disk.old))) → ⊥ }
    ensures quiet { Unmoved D.seen D.may_leave D.moment D.left_since disk.old disk.new }
    ensures cause { HasCause (D.faults disk.old) (D.faults disk.new) (IsErrOf result Refusal.Disk) }
    ensures others { IfErr result IsReadRefusal }
{
    let len = match told_length(disk, area, at) {
        Ok(len) => len,
        Err(Refusal::BadImage) => return Ok(()),
        Err(refusal) => return Err(refusal),
    };
    let Some(behind) = at.checked_add(len + HEAD + 1) else {
        return Err(Refusal::Memory);
    };
    if byte_at(disk, area, behind - 1)? != Some(SHUT) {
        return Ok(());
    }
    let Some(seal) = log_seal_at(disk, area, behind)? else {
        return Ok(());
    };
    if is_same(&seal[SEAL_START..SEAL_START + DIGEST], digest) {
        Ok(())
    } else {
        Err(Refusal::BadImage)
    }
}

/// Compares what is behind the last gate of a log, at this offset, with the digest of the log.
/// Fails with `BadImage` if there is a seal with another digest.
fn check_end<D: Disk>(
    disk: &mut D,
    area: Area,
    at: usize,
    digest: &[u8; DIGEST],
) -> Result<(), Refusal>
    ensures sealed { OnOk result
        (IsEndSealed digest.now (drop at (part area (D.seen disk.old)))) }
    ensures bad { IsErrOf result Refusal.BadImage →
        IsEndSealed digest.now (drop at (part area (D.seen disk.old))) → ⊥ }
    ensures quiet { Unmoved D.seen D.may_leave D.moment D.left_since disk.old disk.new }
    ensures cause { HasCause (D.faults disk.old) (D.faults disk.new) (IsErrOf result Refusal.Disk) }
    ensures others { IfErr result IsReadRefusal }
{
    let Some(seal) = log_seal_at(disk, area, at)? else {
        return check_next(disk, area, at, digest);
    };
    if is_same(&seal[SEAL_START + DIGEST..LOG_SEAL - DIGEST], digest) {
        Ok(())
    } else {
        Err(Refusal::BadImage)
    }
}

/// The batch behind the gate at an offset, if the gate says that the batch has a seal. Fails with
/// `BadImage` if there is no batch then, and with `Memory` if there isn't enough for it.
fn sealed_batch<D: Disk>(
    alloc: Global,
    disk: &mut D,
    area: Area,
    at: usize,
) -> Result<Option<Vec<u8>>, Refusal>
    ensures batch { IfOk result (IsSealedBatch (drop at (part area (D.seen disk.old)))) }
    ensures bad { IsErrOf result Refusal.BadImage → (digest : List ℕ)
        → SomeSealed digest (drop at (part area (D.seen disk.old))) → ⊥ }
    ensures quiet { Unmoved D.seen D.may_leave D.moment D.left_since disk.old disk.new }
    ensures cause { HasCause (D.faults disk.old) (D.faults disk.new) (IsErrOf result Refusal.Disk) }
    ensures others { IfErr result IsReadRefusal }
{
    let Some(gate) = byte_at(disk, area, at)? else {
        return Ok(None);
    };
    if gate != OPEN_SEALED {
        return Ok(None);
    }
    let Some(start) = at.checked_add(1) else {
        return Err(Refusal::Memory);
    };
    let batch = load(alloc, disk, area, start)?;
    Ok(Some(batch))
}

/// Looks at the first gate of a log that doesn't open a batch with a seal, and compares what is
/// behind it with the digest of the log before it. Returns that digest if the log ends there. Fails
/// with `BadImage` if there is no gate, or another seal.
fn check_gate<D: Disk>(
    disk: &mut D,
    area: Area,
    at: usize,
    digest: [u8; DIGEST],
) -> Result<Option<[u8; DIGEST]>, Refusal>
    requires { first_of (drop at (part area (D.seen disk.old))) ≡ Some 0xFF → ⊥ }

    ensures sealed { OnOk result
        (SomeSealed digest (drop at (part area (D.seen disk.old)))) }
    ensures bad { IsErrOf result Refusal.BadImage →
        SomeSealed digest (drop at (part area (D.seen disk.old))) → ⊥ }
    ensures quiet { Unmoved D.seen D.may_leave D.moment D.left_since disk.old disk.new }
    ensures cause { HasCause (D.faults disk.old) (D.faults disk.new) (IsErrOf result Refusal.Disk) }
    ensures others { IfErr result IsReadRefusal }
{
    let Some(gate) = byte_at(disk, area, at)? else {
        return Err(Refusal::BadImage);
    };
    if gate == OPEN {
        return Ok(None);
    }
    if gate != SHUT {
        return Err(Refusal::BadImage);
    }
    let Some(behind) = at.checked_add(1) else {
        return Err(Refusal::Memory);
    };
    check_end(disk, area, behind, &digest)?;
    Ok(Some(digest))
}

/// Compares the batches from an offset of an area on with their seal. Returns the digest of the
/// log, if all of it has seals. Fails with `BadImage` if they differ or there is no log, and with
/// `Memory` if there isn't enough for a batch.
fn check_batches<D: Disk>(
    alloc: Global,
    disk: &mut D,
    area: Area,
    start: usize,
    first: [u8; DIGEST],
) -> Result<Option<[u8; DIGEST]>, Refusal>
    ensures sealed { OnOk result
        (SomeSealed first (drop start (part area (D.seen disk.old)))) }
    ensures bad { IsErrOf result Refusal.BadImage →
        SomeSealed first (drop start (part area (D.seen disk.old))) → ⊥ }
    ensures quiet { Unmoved D.seen D.may_leave D.moment D.left_since disk.old disk.new }
    ensures cause { HasCause (D.faults disk.old) (D.faults disk.new) (IsErrOf result Refusal.Disk) }
    ensures others { IfErr result IsReadRefusal }
{
    let mut digest = first;
    let mut at = start;
    while let Some(batch) = sealed_batch(alloc, disk, area, at)? {
        let Some(next) = at.checked_add(batch.len() + HEAD + 1) else {
            return Err(Refusal::Memory);
        };
        digest = next_digest(&digest, &batch);
        at = next;
    }
    check_gate(disk, area, at, digest)
}

/// Compares the image of an area, and the log behind it, with the log's seal. Returns the digest of
/// the log, if all of it has seals. Fails with `BadImage` if they differ or are missing, and with
/// `Memory` if there isn't enough for the image.
fn check_log<D: Disk>(
    alloc: Global,
    disk: &mut D,
    area: Area,
) -> Result<Option<[u8; DIGEST]>, Refusal>
    ensures sealed { OnOk result (IsLogSealed (part area (D.seen disk.old))) }
    ensures bad { IsErrOf result Refusal.BadImage → IsLogSealed (part area (D.seen disk.old)) → ⊥ }
    ensures quiet { Unmoved D.seen D.may_leave D.moment D.left_since disk.old disk.new }
    ensures cause { HasCause (D.faults disk.old) (D.faults disk.new) (IsErrOf result Refusal.Disk) }
    ensures others { IfErr result IsReadRefusal }
{
    let image = load(alloc, disk, area, 0)?;
    let start = HEAD + image.len();
    let first = first_digest(&image);
    drop(image);
    check_batches(alloc, disk, area, start, first)
}

/// Compares what counts on a disk with its seals, if there are any. Returns the digest of its log,
/// if all of the log has seals. Fails with `BadImage` if they differ, and with `Memory` if there
/// isn't enough for the image.
fn check_selected<D: Disk>(alloc: Global, disk: &mut D) -> Result<Option<[u8; DIGEST]>, Refusal>
    ensures intact { OnOk result (IsIntact (D.seen disk.old)) }
    ensures bad { IsErrOf result Refusal.BadImage → IsIntact (D.seen disk.old) → ⊥ }
    ensures quiet { Unmoved D.seen D.may_leave D.moment D.left_since disk.old disk.new }
    ensures cause { HasCause (D.faults disk.old) (D.faults disk.new) (IsErrOf result Refusal.Disk) }
    ensures others { IfErr result IsReadRefusal }
{
    let Some(mark) = byte_at(disk, Area::Select, 0)? else {
        return Ok(None);
    };
    match what_marks(mark) {
        Marked::Unsealed => Ok(None),
        Marked::Image(in_b) => {
            check_image(alloc, disk, half(in_b))?;
            Ok(None)
        }
        Marked::Log(in_b) => check_log(alloc, disk, half(in_b)),
        Marked::Unknown => Err(Refusal::BadImage),
    }
}

/// Compares what counts on a disk with its seals, if the disk seals what is saved on it. It writes
/// nothing. A disk that an earlier program saved has no seals, and passes. Returns the digest of
/// the disk's log if all of the log has seals, so that further batches can have them too.
///
/// Fails with `BadImage` exactly if the disk seals and isn't intact: bytes that count have changed
/// since they were saved. It also fails so if a stopped save left a byte in the selector or in a
/// gate that is neither the old one nor the new one. Fails with `Memory` if there isn't enough for
/// the image, and with `Disk` if the device failed.
pub fn check_seals<D: Disk>(alloc: Global, disk: &mut D) -> Result<Option<[u8; DIGEST]>, Refusal>
    ensures intact { OnOk result (IsTrue (D.seals disk.old) → IsIntact (D.seen disk.old)) }
    ensures bad { IsErrOf result Refusal.BadImage →
        IsTrue (D.seals disk.old) × (IsIntact (D.seen disk.old) → ⊥) }
    ensures quiet { Unmoved D.seen D.may_leave D.moment D.left_since disk.old disk.new }
    ensures cause { HasCause (D.faults disk.old) (D.faults disk.new) (IsErrOf result Refusal.Disk) }
    ensures others { IfErr result IsReadRefusal }
{
    if disk.seals() {
        check_selected(alloc, disk)
    } else {
        Ok(None)
    }
}
