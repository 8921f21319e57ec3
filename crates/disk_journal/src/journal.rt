//! A crash-consistent store of one value, kept as an image, or as an image and a log of what came
//! since. A batch of the log costs its own bytes and two syncs, however large the value's image
//! is. A crash leaves the value that was there or the new one.
ghost use Rattle.std.specs.Prelude.{◌≡◌, ◌≢◌, ◌↔◌, ◌<◌, ◌≤◌, ◌+◌, ◌++◌, List, ℕ, Bool, [], ◌∷◌};
ghost use Rattle.std.specs.Prelude.{cond, is_some, length, ◌||◌, IfErr, IfOk, IfSome, IsErr, IsErrOf, IsTrue};
ghost use Rattle.std.specs.Prelude.{MatchResult, None, OnOk, Some, true, false};
ghost use Rattle.disk.specs.Areas.{Areas};
ghost use Rattle.disk.specs.Crashes.{HasCause, LeavesOnly, Only, OnlyRead, StaysBlank, Unmoved};
ghost use Rattle.disk_shelf.specs.Logs.{IsKept, IsPlain, IsShut, IsSpelled, OldOrNewLog, Opens, Restores};
ghost use Rattle.disk_shelf.specs.Logs.{StaysPlain};
ghost use Rattle.disk_shelf.specs.Refusals.{AfterSave, IsHandedBack, IsUnread, IsUnwritten};
ghost use Rattle.disk_shelf.specs.Seals.{IsIntact};
ghost use Rattle.disk_shelf.specs.Shelf.{record_of};
ghost use Rattle.disk_shelf.specs.declared.persist.TheConstants.{GREATEST_SAVED};
ghost use Rattle.disk_journal.specs.Journal.{RestoresEither, RestoresNone};
ghost use Rattle.disk_journal.specs.Tails.{IsPlainAt, IsSamePlace, IsPlacedAt, place_for};

use disk::{Disk, MemoryDisk, OverMemory, Plan};
use disk_shelf::log::{begin, extend, replay_log, shut, turn};
use disk_shelf::{
    DIGEST, GREATEST_SAVED, HEAD, Persist, first_digest, image_in, log_sealed, next_digest,
    recall_image, record, sealed, spelled,
};
use ids::Refusal;
use std::alloc::{AllocError, Global};
use std::marker::PhantomData;

/// A disk opens to at most one image with its batches. The function does nothing; its contract
/// states the law.
pub fn opens_once()
    ensures { (i j : List ℕ) (bs cs : List (List ℕ)) (d : Areas) → Opens i bs d → Opens j cs d
        → (i ≡ j) × (bs ≡ cs) }
{}

/// A disk opens to at most one value. The function does nothing; its contract states the law.
pub fn restores_once<P: Persist>()
    ensures { (v w : P.Value) (d : Areas) → Restores P.logs P.reads P.leads v d
        → Restores P.logs P.reads P.leads w d → v ≡ w }
{}

/// How long a log may always become, in bytes. A log may also become as long as the image before
/// it.
pub const LEAST_LOG: usize = 1 << 20;

/// The place of a value on its disk, as [`read_logged`] found it: its area, and the end of the log
/// behind its image.
#[derive(Clone, Copy)]
pub struct Tail {
    in_b: bool,
    // How many bytes are before the log.
    start: usize,
    // The offset of the last gate, if a log follows the image.
    end: Option<usize>,
    // The digest of the log, if all of it has seals, and a batch is to have one too.
    digest: Option<[u8; DIGEST]>,
    // Whether a log is to follow the images that are saved.
    logs: bool,
}

impl Tail {
    /// The same place. Batches that are added there get seals if this is the digest of the log
    /// there, as [`check_seals`](disk_shelf::check_seals) returned it.
    pub fn with_digest(self, digest: Option<[u8; DIGEST]>) -> Tail
        ensures { IsSamePlace self result }
    {
        Tail { digest, ..self }
    }

    // The same place. No batch is added there if `renews` is true: the next save writes the image.
    fn renewed(self, renews: bool) -> Tail
        ensures side { result.in_b ≡ self.in_b }
        ensures end { IfSome result.end (λ end. self.end ≡ Some end) }
        ensures logs { result.logs ≡ self.logs }
    {
        if !renews {
            return self;
        }
        Tail {
            end: None,
            digest: None,
            ..self
        }
    }

    // The offset of the last gate, if the batch goes behind it. If not, the value is saved whole.
    fn place_for(&self, batch: &[u8]) -> Option<usize>
        ensures value { result ≡ place_for self.now batch.now }
        ensures here { IfSome result (λ end. self.now.end ≡ Some end) }
        ensures fits { IfSome result (λ _. length batch.now ≤ GREATEST_SAVED) }
    {
        let end = self.end?;
        let most = self.start.max(LEAST_LOG);
        let left = most.saturating_sub(end.saturating_sub(self.start));
        let fits = batch.len() as u64 <= GREATEST_SAVED && batch.len() + HEAD + 1 <= left;
        fits.then_some(end)
    }
}

/// A disk that holds a value: its image, in the area that is selected. If a log is to follow
/// the image, there are batches behind it, which lead from what the image is read as to the value.
///
/// A [`save`](Journal::save) adds a batch to the log, or else writes the image of the value, with
/// nothing but the end of an empty log behind it, into the other area. If the disk
/// [seals](Disk::seals), it adds a seal; an opening doesn't compare it, but
/// [`check_seals`](disk_shelf::check_seals) does. A failure of the disk closes the journal, and so
/// does a failed [`reopen`](Journal::reopen). Saves then fail with `Closed` until a `reopen`
/// succeeds, which shows whether the disk has the old value or the new one.
pub struct Journal<D: Disk, P: Persist> {
    alloc: Global,
    disk: D,
    // The place of the value, while the journal is open.
    tail: Tail,
    ready: bool,
    kind: PhantomData<P>,
    ghost kept: { IsTrue ready → IsKept D.seen D.may_leave P.logs disk tail.in_b tail.end },
    ghost plain: { IsPlainAt P.logs (D.may_leave disk) tail },
}

// Written out, so that the crates above need not prove again how each field is dropped.
impl<D: Disk + Drop, P: Persist> Drop for Journal<D, P> {
    fn drop(self) {
        let Journal {
            alloc: _,
            disk: _,
            tail: _,
            ready: _,
            kind: _,
        } = self;
    }
}

/// What is written for a value.
struct Spelled {
    bytes: Vec<u8>,
    // The offset at which the image ends.
    end: usize,
    // The digest of the log, which is empty, if its seal is behind the image.
    digest: Option<[u8; DIGEST]>,
}

/// What is written for a value that a log is to follow: the length of its image, the image, and the
/// gate behind it. Fails as [`Persist::to_bytes`] does.
fn spelled_shut<P: Persist>(alloc: Global, value: &P::Value) -> Result<Vec<u8>, Refusal>
    ensures bytes { IfOk result (λ v. v.items ≡ record_of (P.image true value.now) ++ 0 ∷ []) }
    ensures readable { OnOk result (P.reads (P.image true value.now) (P.saved value.now)) }
    ensures fits { OnOk result (length (P.image true value.now) ≤ GREATEST_SAVED) }
    ensures within { OnOk result (P.too_large value.now → ⊥) }
    ensures refused { IfErr result (IsUnwritten (P.too_large value.now)) }
{
    let bytes = spelled::<P>(alloc, true, value)?;
    Ok(shut(bytes)?)
}

/// What is written for a value that a log is to follow: its image's length, the image, the gate
/// behind it, and the seal of the log if `seals` is true. Fails as [`Persist::to_bytes`] does.
fn spelled_log<P: Persist>(alloc: Global, seals: bool, value: &P::Value) -> Result<Spelled, Refusal>
    ensures bytes { IfOk result (λ s. IsSpelled true seals (P.image true value.now) s.bytes.items) }
    ensures end { IfOk result (λ s. s.end ≡ 8 + length (P.image true value.now)) }
    ensures readable { OnOk result (P.reads (P.image true value.now) (P.saved value.now)) }
    ensures fits { OnOk result (length (P.image true value.now) ≤ GREATEST_SAVED) }
    ensures within { OnOk result (P.too_large value.now → ⊥) }
    ensures refused { IfErr result (IsUnwritten (P.too_large value.now)) }
{
    let bytes = spelled_shut::<P>(alloc, value)?;
    let end = bytes.len() - 1;
    if !seals {
        return Ok(Spelled {
            bytes,
            end,
            digest: None,
        });
    }
    let digest = first_digest(image_in(&bytes, end));
    let bytes = log_sealed(bytes, &digest, &digest)?;
    Ok(Spelled {
        bytes,
        end,
        digest: Some(digest),
    })
}

/// What is written for a value that no log is to follow: its image's length, the image, and its
/// seal if `seals` is true. Fails as [`Persist::to_bytes`] does.
fn spelled_alone<P: Persist>(
    alloc: Global,
    seals: bool,
    value: &P::Value,
) -> Result<Spelled, Refusal>
    ensures bytes { IfOk result
        (λ s. IsSpelled false seals (P.image false value.now) s.bytes.items) }
    ensures end { IfOk result (λ s. s.end ≡ 8 + length (P.image false value.now)) }
    ensures readable { OnOk result (P.reads (P.image false value.now) (P.saved value.now)) }
    ensures fits { OnOk result (length (P.image false value.now) ≤ GREATEST_SAVED) }
    ensures within { OnOk result (P.too_large value.now → ⊥) }
    ensures refused { IfErr result (IsUnwritten (P.too_large value.now)) }
{
    let bytes = spelled::<P>(alloc, false, value)?;
    let end = bytes.len();
    let bytes = sealed(seals, bytes)?;
    Ok(Spelled {
        bytes,
        end,
        digest: None,
    })
}

/// What is written for a value, which a log is to follow or not. Fails as [`Persist::to_bytes`]
/// does.
fn spelled_whole<P: Persist>(
    alloc: Global,
    logged: bool,
    seals: bool,
    value: &P::Value,
) -> Result<Spelled, Refusal>
    ensures bytes { IfOk result (λ s.
        IsSpelled logged seals (P.image logged value.now) s.bytes.items) }
    ensures end { IfOk result (λ s. s.end ≡ 8 + length (P.image logged value.now)) }
    ensures readable { OnOk result (P.reads (P.image logged value.now) (P.saved value.now)) }
    ensures fits { OnOk result (length (P.image logged value.now) ≤ GREATEST_SAVED) }
    ensures within { OnOk result (P.too_large value.now → ⊥) }
    ensures refused { IfErr result (IsUnwritten (P.too_large value.now)) }
{
    if logged {
        spelled_log::<P>(alloc, seals, value)
    } else {
        spelled_alone::<P>(alloc, seals, value)
    }
}

/// The offset of the gate behind an image that was just written, which ends there, if a log is to
/// follow it.
fn first_gate(logged: bool, end: usize) -> Option<usize>
    ensures { result ≡ cond logged (Some end) None }
{
    logged.then_some(end)
}

/// What is written for a batch: its length, the batch, the gate behind it, and the seal of the log
/// if this is the log's digest before the batch. Returns the log's digest with the batch, too.
/// Fails if there is no memory for that.
fn spelled_batch(
    alloc: Global,
    digest: Option<[u8; DIGEST]>,
    batch: &[u8],
) -> Result<(Vec<u8>, Option<[u8; DIGEST]>), AllocError>
    ensures { IfOk result (λ r. IsShut batch.now r.0.items) }
{
    let bytes = shut(record(alloc, batch)?)?;
    let Some(before) = digest else {
        return Ok((bytes, None));
    };
    let now = next_digest(&before, batch);
    let bytes = log_sealed(bytes, &before, &now)?;
    Ok((bytes, Some(now)))
}

/// Whether a log is to follow the images that are saved on a disk with this last gate of a log, if
/// there is one.
fn is_logged(logs: bool, end: Option<usize>) -> bool
    ensures { result ≡ (logs || is_some end) }
{
    logs || end.is_some()
}

/// Syncs a disk on which something was created, and returns the value that it holds, with its
/// place. It writes nothing. [`Journal::resume`] continues from there without reading again. If
/// `logs` is true, or a log follows the image, one is to follow the images that are saved.
///
/// Fails as [`Journal::open`] does. After `Ok` a crash leaves that value.
pub fn read_logged<D: Disk, P: Persist>(
    alloc: Global,
    disk: &mut D,
    logs: bool,
) -> Result<(Tail, P::Value), Refusal>
where
    P::Value: Drop,
    ensures value { IfOk result (λ r. Restores P.logs P.reads P.leads r.1 (D.seen disk.old)) }
    ensures lies { IfOk result (λ r. IsPlacedAt D.seen D.may_leave P.logs disk.new r.0) }
    ensures logs { logs ≡ true → IfOk result (λ r. r.0.logs ≡ true) }
    ensures plain { logs ≡ false → IsPlain P.logs (D.seen disk.old)
        → IfOk result (λ r. r.0.logs ≡ false) }
    ensures refused { IfErr result (IsUnread (Restores P.logs P.reads P.leads) (D.seen disk.old)) }
    ensures quiet { Unmoved D.seen D.may_leave D.moment D.left_since disk.old disk.new }
    ensures cause { HasCause (D.faults disk.old) (D.faults disk.new) (IsErrOf result Refusal.Disk) }
{
    let (in_b, image) = recall_image(alloc, disk)?;
    let mut value = P::from_bytes(alloc, &image)?;
    let end = replay_log::<D, P>(alloc, disk, in_b, &image, &mut value)?;
    let start = HEAD + image.len();
    let tail = Tail {
        in_b,
        start,
        end,
        digest: None,
        logs: is_logged(logs, end),
    };
    Ok((tail, value))
}

impl<D: Disk, P: Persist> Journal<D, P> {
    /// Whether the journal is open. If it is, a crash leaves what a read gives.
    pub fn is_ready(&self) -> bool
        ensures ready { result ≡ self.now.ready }
        ensures only { IsTrue result → Only (D.seen self.now.disk) (D.may_leave self.now.disk) }
    {
        self.ready
    }

    /// Whether a log is to follow the images that are saved. If not, none follows the image on the
    /// disk, even after a crash.
    pub fn logs(&self) -> bool
        ensures value { result ≡ self.now.tail.logs }
        ensures plain { result ≡ false → StaysPlain P.logs (D.may_leave self.now.disk) }
    {
        self.tail.logs
    }

    /// The disk, as the journal leaves it.
    pub fn into_disk(self) -> D
        ensures { result ≡ self.disk }
    {
        let Journal {
            alloc: _,
            disk,
            tail: _,
            ready: _,
            kind: _,
        } = self;
        disk
    }

    /// Saves the first value on a disk on which nothing was ever created; see
    /// [`is_blank`](disk_shelf::is_blank). An empty log follows it if `logs` is true.
    ///
    /// A crash during the call leaves an empty selector or the value; after `Ok` it leaves the
    /// value. Fails as [`Persist::to_bytes`] does, with `Memory` or with `Disk`, and returns the
    /// disk. The disk is unchanged except after `Disk`.
    pub fn create(
        alloc: Global,
        mut disk: D,
        value: &P::Value,
        logs: bool,
    ) -> Result<Journal<D, P>, (D, Refusal)>
        requires { StaysBlank (D.may_leave disk) }

        ensures created { IfOk result (λ j.
            Restores P.logs P.reads P.leads (P.saved value.now) (D.seen j.disk)) }
        ensures ready { IfOk result (λ j. j.ready ≡ true) }
        ensures logs { IfOk result (λ j. j.tail.logs ≡ logs) }
        ensures intact { logs ≡ false → IfOk result (λ j. IsIntact (D.seen j.disk)) }
        ensures any_moment { MatchResult result
            (λ j. LeavesOnly D.moment D.left_since disk j.disk
            (RestoresNone P.logs P.reads P.leads (P.saved value.now)))
            (λ e. LeavesOnly D.moment D.left_since disk e.0
            (RestoresNone P.logs P.reads P.leads (P.saved value.now))) }
        ensures within { OnOk result (P.too_large value.now → ⊥) }
        ensures refused { IfErr result (IsHandedBack D.faults (P.too_large value.now) disk) }
    {
        let seals = disk.seals();
        let Spelled { bytes, end, digest } = match spelled_whole::<P>(alloc, logs, seals, value) {
            Ok(spelled) => spelled,
            Err(refusal) => return Err((disk, refusal)),
        };
        match begin(&mut disk, logs, image_in(&bytes, end), &bytes, seals) {
            Ok(()) => {}
            Err(_) => return Err((disk, Refusal::Disk)),
        }
        Ok(Journal {
            alloc,
            disk,
            tail: Tail {
                in_b: false,
                start: end,
                end: first_gate(logs, end),
                digest,
                logs,
            },
            ready: true,
            kind: PhantomData,
        })
    }

    /// Syncs a disk and returns the value that it holds with an open journal, whose images a log is
    /// to follow if `logs` is true, or one is there. It writes nothing. After `Ok` a crash leaves
    /// that value.
    ///
    /// Fails with `Disk` if the device failed, and with `BadImage` if the disk holds no value.
    /// Fails with `Memory` if the disk records a plausible length but there is no memory for what
    /// it holds. The disk is then dropped.
    pub fn open(
        alloc: Global,
        mut disk: D,
        logs: bool,
    ) -> Result<(Journal<D, P>, P::Value), Refusal>
    where
        D: Drop,
        P::Value: Drop,
        ensures opened { IfOk result (λ r.
            Restores P.logs P.reads P.leads r.1 (D.seen disk)) }
        ensures ready { IfOk result (λ r. r.0.ready ≡ true) }
        ensures refused { IfErr result (IsUnread (Restores P.logs P.reads P.leads) (D.seen disk)) }
        ensures read { IfOk result (λ r.
            OnlyRead D.seen D.may_leave D.moment D.left_since D.faults ⊥ disk r.0.disk) }

        // The disk at the time when it was dropped.
        ensures given_up { IfErr result (λ e. (d : D) × OnlyRead D.seen D.may_leave D.moment
            D.left_since D.faults (e ≡ Refusal.Disk) disk d) }
    {
        let (tail, value) = read_logged::<D, P>(alloc, &mut disk, logs)?;
        let journal = Journal {
            alloc,
            disk,
            tail,
            ready: true,
            kind: PhantomData,
        };
        Ok((journal, value))
    }

    /// An open journal on a disk that [`read_logged`] read, and on which nothing was written since.
    pub fn resume(alloc: Global, disk: D, tail: Tail) -> Journal<D, P>
        requires { IsPlacedAt D.seen D.may_leave P.logs disk tail }
        ensures disk { result.disk ≡ disk }
        ensures ready { result.ready ≡ true }
        ensures tail { result.tail ≡ tail }
    {
        Journal {
            alloc,
            disk,
            tail,
            ready: true,
            kind: PhantomData,
        }
    }

    /// Opens the journal again from its own disk: syncs it and returns the value that it holds.
    /// After `Ok` the journal is open, and a crash leaves that value.
    ///
    /// Fails as [`open`](Journal::open) does; the journal is then closed. Its disk holds what it
    /// held, even after a crash. If the disk [seals](Disk::seals), the next save writes the whole
    /// image, since the log's digest isn't known any more.
    pub fn reopen(&mut self) -> Result<P::Value, Refusal>
    where
        P::Value: Drop,
        ensures opened { IfOk result (λ v.
            Restores P.logs P.reads P.leads v (D.seen self.old.disk)) }
        ensures ready { OnOk result (self.new.ready ≡ true) }
        ensures shut { IsErr result → self.new.ready ≡ false }
        ensures logs { self.new.tail.logs ≡ self.old.tail.logs }
        ensures refused { IfErr result
            (IsUnread (Restores P.logs P.reads P.leads) (D.seen self.old.disk)) }
        ensures read { OnlyRead D.seen D.may_leave D.moment D.left_since D.faults
            (IsErrOf result Refusal.Disk) self.old.disk self.new.disk }
    {
        self.ready = false;
        let (tail, value) = read_logged::<D, P>(self.alloc, &mut self.disk, self.tail.logs)?;
        let seals = self.disk.seals();
        self.tail = tail.renewed(seals);
        self.ready = true;
        Ok(value)
    }

    // Adds a batch behind the log whose last gate is at this offset.
    fn append(&mut self, end: usize, batch: &[u8]) -> Result<(), Refusal>
        requires ready { IsTrue self.old.ready }
        requires end { self.old.tail.end ≡ Some end }
        requires fits { length batch.now ≤ GREATEST_SAVED }

        ensures added { OnOk result ((image : List ℕ) (batches : List (List ℕ))
            → Opens image batches (D.seen self.old.disk)
            → Opens image (batches ++ batch.now ∷ []) (D.seen self.new.disk)) }
        ensures any_moment { (image : List ℕ) (batches : List (List ℕ))
            → Opens image batches (D.seen self.old.disk)
            → LeavesOnly D.moment D.left_since self.old.disk self.new.disk
            (OldOrNewLog image batches image (batches ++ batch.now ∷ [])) }
        ensures after { AfterSave D.faults self.old.disk self.new.disk self.old.ready self.new.ready
            result }
        ensures not_large { IfErr result (λ e. e ≢ Refusal.ImageTooLarge) }
        ensures logs { self.new.tail.logs ≡ self.old.tail.logs }
    {
        let Some(next) = end.checked_add(batch.len() + HEAD + 1) else {
            return Err(Refusal::Memory);
        };
        let (bytes, digest) = spelled_batch(self.alloc, self.tail.digest, batch)?;
        self.ready = false;
        let seals = digest.is_some();
        extend(&mut self.disk, self.tail.in_b, end, batch, &bytes, seals)?;
        self.tail.end = Some(next);
        self.tail.digest = digest;
        self.ready = true;
        Ok(())
    }

    // Saves a value whole, with no batch behind it. Fails as `Persist::to_bytes` does.
    fn renew(&mut self, value: &P::Value) -> Result<(), Refusal>
        requires ready { IsTrue self.old.ready }

        ensures saved { OnOk result
            (Restores P.logs P.reads P.leads (P.saved value.now) (D.seen self.new.disk)) }
        ensures any_moment { (old : P.Value)
            → Restores P.logs P.reads P.leads old (D.seen self.old.disk)
            → LeavesOnly D.moment D.left_since self.old.disk self.new.disk
            (RestoresEither P.logs P.reads P.leads old (P.saved value.now)) }
        ensures after { AfterSave D.faults self.old.disk self.new.disk self.old.ready self.new.ready
            result }
        ensures too_large { IsErrOf result Refusal.ImageTooLarge ↔ P.too_large value.now }
        ensures intact { self.old.tail.logs ≡ false
            → OnOk result (IsIntact (D.seen self.new.disk)) }
        ensures logs { self.new.tail.logs ≡ self.old.tail.logs }
    {
        let seals = self.disk.seals();
        let logs = self.tail.logs;
        let Spelled { bytes, end, digest } = spelled_whole::<P>(self.alloc, logs, seals, value)?;
        self.ready = false;
        let in_b = self.tail.in_b;
        turn(
            &mut self.disk,
            in_b,
            logs,
            image_in(&bytes, end),
            &bytes,
            seals,
        )?;
        self.tail = Tail {
            in_b: !in_b,
            start: end,
            end: first_gate(logs, end),
            digest,
            logs,
        };
        self.ready = true;
        Ok(())
    }

    /// Saves a value. If a batch is given, it must lead from the value that the disk holds to this
    /// one as it is once saved. The batch is added to the log, unless no log follows the image, or
    /// the log would become longer than the image and than [`LEAST_LOG`]. Otherwise the whole image
    /// is written. A crash at any moment since the call began leaves the old value or the new one;
    /// after `Ok` it leaves the new one.
    ///
    /// Fails with `Closed` exactly if the journal is closed; with `ImageTooLarge` if the image is
    /// written and the value is too large; with `Memory`; and with `Disk` if the device failed.
    /// `Disk` closes the journal; the others change nothing.
    pub fn save(&mut self, value: &P::Value, batch: Option<&[u8]>) -> Result<(), Refusal>
        ensures saved { OnOk result ((old : P.Value)
            → Restores P.logs P.reads P.leads old (D.seen self.old.disk)
            → IfSome batch.entry (λ b. P.leads b.now old (P.saved value.now))
            → Restores P.logs P.reads P.leads (P.saved value.now) (D.seen self.new.disk)) }
        ensures any_moment { IsTrue self.old.ready → (old : P.Value)
            → Restores P.logs P.reads P.leads old (D.seen self.old.disk)
            → IfSome batch.entry (λ b. P.leads b.now old (P.saved value.now))
            → LeavesOnly D.moment D.left_since self.old.disk self.new.disk
            (RestoresEither P.logs P.reads P.leads old (P.saved value.now)) }
        ensures after { AfterSave D.faults self.old.disk self.new.disk self.old.ready self.new.ready
            result }
        ensures too_large { IsErrOf result Refusal.ImageTooLarge ↔ IsTrue self.old.ready
            × (IfSome batch.entry (λ b. place_for self.old.tail b.now ≡ None))
            × P.too_large value.now }
        ensures intact { self.old.tail.logs ≡ false
            → OnOk result (IsIntact (D.seen self.new.disk)) }
        ensures logs { self.new.tail.logs ≡ self.old.tail.logs }
    {
        if !self.ready {
            return Err(Refusal::Closed);
        }
        let Some(batch) = batch else {
            return self.renew(value);
        };
        let Some(end) = self.tail.place_for(batch) else {
            return self.renew(value);
        };
        self.append(end, batch)
    }
}

impl<P: Persist> OverMemory for Journal<MemoryDisk, P> {
    ghost disk = { λ j. j.disk };

    ghost same = { λ old new. (new.ready ≡ old.ready) × (new.tail ≡ old.tail) };

    fn follow(&mut self, plan: Plan) {
        self.disk.follow(plan);
    }

    fn after_crash(&self, fill: u8) -> Result<MemoryDisk, Refusal> {
        self.disk.after_crash(fill)
    }
}
