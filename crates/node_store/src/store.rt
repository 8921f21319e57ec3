//! A store keeps a node in a journal: each time as its image, or as its events since the last save.
//! Which of the two it is was chosen when the node was found or created.
ghost use Rattle.std.specs.Prelude.{◌≡◌, ◌≢◌, ◌↔◌, ◌≤◌, true, false};
ghost use Rattle.std.specs.Prelude.{IfErr, IfOk, IsErr, IsErrOf, IsTrue, MatchResult, OnOk};
ghost use Rattle.ids.specs.declared.refusal.Refusal.TheVariants as refusal;
ghost use Rattle.ids.specs.declared.saves.Saves.TheVariants as way;
ghost use Rattle.disk.specs.Crashes.{HasCause, LeavesOnly, Only, OnlyRead, StaysBlank, Unmoved};
ghost use Rattle.disk_shelf.specs.Refusals.{AfterSave, IsHandedBack, IsUnread};
ghost use Rattle.disk_shelf.specs.Seals.{IsIntact};
ghost use Rattle.node.specs.Keeping.{WholeNode};
ghost use Rattle.image.specs.Wholes.{IsWholeTooLarge, saved_whole};
ghost use Rattle.node_store.specs.Acting.{log_of};
ghost use Rattle.node_store.specs.Noted.{IsLogged};
ghost use Rattle.node_store.specs.Plain.{IsPlain, Keeps, KeepsEither, KeepsNone, StaysPlain};
ghost use Rattle.node_store.specs.Stores.{disk_of, is_ready_in, LiesAt, logs_in};
ghost use Rattle.node_store.specs.Stores.{WritesAll};

use crate::images::Images;
use crate::logged::LoggedNode;
use disk::{Disk, MemoryDisk, OverMemory, Plan};
use disk_journal::{Journal, Tail, read_logged};
use ids::{Refusal, Saves};
use node::Node;
use std::alloc::Global;

/// A node's store. Its disk opens to the node as it was saved last, even after a crash.
///
/// A failure of the disk closes the store, and so does a failed [`reopen`](Store::reopen). Saves
/// then fail with `Closed` until a `reopen` succeeds.
pub struct Store<D: Disk> {
    journal: Journal<D, Images>,
}

// Written out, so that the crates above need not prove again how each field is dropped.
impl<D: Disk + Drop> Drop for Store<D> {
    fn drop(self) {
        let Store { journal: _ } = self;
    }
}

// Whether a log of events is to follow the images that are saved.
fn adds_events(saves: Saves) -> bool
    ensures events { saves ≡ way.Events → result ≡ true }
    ensures images { saves ≡ way.Images → result ≡ false }
{
    match saves {
        Saves::Events => true,
        Saves::Images => false,
    }
}

/// Syncs a disk on which something was created, and returns the node that it holds, with its place.
/// It writes nothing. [`Store::resume`] continues from there without reading again.
///
/// If events are to be saved, or if the disk has a log, a log is to follow the images that are
/// saved there. A disk without one gets it at its first save.
///
/// Fails with `Disk` if the device failed, with `BadImage` if the disk holds no node, and with
/// `Memory`. After `Ok` a crash leaves that node.
pub fn read_node<D: Disk>(
    alloc: Global,
    disk: &mut D,
    saves: Saves,
) -> Result<(Tail, Node), Refusal>
    ensures value { IfOk result (λ r. Keeps r.1 (D.seen disk.old)) }
    ensures lies { IfOk result (λ r. LiesAt D.seen D.may_leave disk.new r.0) }
    ensures events { saves ≡ way.Events → IfOk result (λ r. r.0.logs ≡ true) }
    ensures images { saves ≡ way.Images → IsPlain (D.seen disk.old)
        → IfOk result (λ r. r.0.logs ≡ false) }
    ensures refused { IfErr result (IsUnread Keeps (D.seen disk.old)) }
    ensures quiet { Unmoved D.seen D.may_leave D.moment D.left_since disk.old disk.new }
    ensures cause { HasCause (D.faults disk.old) (D.faults disk.new) (IsErrOf result refusal.Disk) }
{
    read_logged::<D, Images>(alloc, disk, adds_events(saves))
}

impl<D: Disk> Store<D> {
    /// Whether the store is open. If it is, a crash leaves what a read gives.
    pub fn is_ready(&self) -> bool
        ensures ready { result ≡ is_ready_in self.now }
        ensures only { IsTrue result
            → Only (D.seen (disk_of self.now)) (D.may_leave (disk_of self.now)) }
    {
        self.journal.is_ready()
    }

    /// Whether a save may add events to a log. If not, no log follows the image on the disk, even
    /// after a crash.
    pub fn logs(&self) -> bool
        ensures value { result ≡ logs_in self.now }
        ensures plain { result ≡ false → StaysPlain (D.may_leave (disk_of self.now)) }
    {
        self.journal.logs()
    }

    /// The disk, as the store leaves it.
    pub fn into_disk(self) -> D
        ensures { result ≡ disk_of self }
    {
        let Store { journal } = self;
        journal.into_disk()
    }

    /// Saves the first node on a disk on which nothing was ever created; see
    /// [`is_blank`](disk_shelf::is_blank). A crash at any moment since the call began leaves an
    /// empty selector or the node.
    ///
    /// Fails with `ImageTooLarge` exactly if the node's space is plain and its image is longer than
    /// an image may be then, with `Memory`, and with `Disk` if the device failed; and returns the
    /// disk, which is unchanged except after `Disk`.
    pub fn create(
        alloc: Global,
        disk: D,
        node: &Node,
        saves: Saves,
    ) -> Result<Store<D>, (D, Refusal)>
        requires { StaysBlank (D.may_leave disk) }
        ensures created { IfOk result (λ s. Keeps (saved_whole node.now) (D.seen (disk_of s))) }
        ensures ready { IfOk result (λ s. is_ready_in s ≡ true) }
        ensures events { saves ≡ way.Events → IfOk result (λ s. logs_in s ≡ true) }
        ensures images { saves ≡ way.Images → IfOk result (λ s. logs_in s ≡ false) }
        ensures intact { saves ≡ way.Images → IfOk result (λ s. IsIntact (D.seen (disk_of s))) }
        ensures within { OnOk result (IsWholeTooLarge node.now → ⊥) }
        ensures refused { IfErr result (IsHandedBack D.faults (IsWholeTooLarge node.now) disk) }
        ensures later { IfErr result (λ e. D.moment disk ≤ D.moment e.0) }
        ensures any_moment { MatchResult result
            (λ s. LeavesOnly D.moment D.left_since disk (disk_of s)
            (KeepsNone (saved_whole node.now)))
            (λ e. LeavesOnly D.moment D.left_since disk e.0
            (KeepsNone (saved_whole node.now))) }
    {
        match Journal::create(alloc, disk, node, adds_events(saves)) {
            Ok(journal) => Ok(Store { journal }),
            Err(refused) => Err(refused),
        }
    }

    /// An open store on a disk that [`read_node`] read, and on which nothing was written since.
    pub fn resume(alloc: Global, disk: D, place: Tail) -> Store<D>
        requires { LiesAt D.seen D.may_leave disk place }
        ensures disk { disk_of result ≡ disk }
        ensures ready { is_ready_in result ≡ true }
        ensures logs { logs_in result ≡ place.logs }
    {
        Store {
            journal: Journal::resume(alloc, disk, place),
        }
    }

    /// Opens the store again from its own disk: syncs it and returns the node that it holds. After
    /// `Ok` the store is open, and a crash leaves that node.
    ///
    /// Fails as [`read_node`] does; the store is then closed. Its disk holds what it held, even
    /// after a crash.
    pub fn reopen(&mut self) -> Result<Node, Refusal>
        ensures opened { IfOk result (λ n. Keeps n (D.seen (disk_of self.old))) }
        ensures ready { OnOk result (is_ready_in self.new ≡ true) }
        ensures only { OnOk result
            (Only (D.seen (disk_of self.new)) (D.may_leave (disk_of self.new))) }
        ensures shut { IsErr result → is_ready_in self.new ≡ false }
        ensures logs { logs_in self.new ≡ logs_in self.old }
        ensures refused { IfErr result (IsUnread Keeps (D.seen (disk_of self.old))) }
        ensures read { OnlyRead D.seen D.may_leave D.moment D.left_since D.faults
            (IsErrOf result refusal.Disk) (disk_of self.old) (disk_of self.new) }
    {
        self.journal.reopen()
    }

    /// Saves a node. Its log must lead from the node that the disk holds to this one, unless it is
    /// lost. It is added to the log on the disk. If the disk has no log, or it would become too
    /// long, the image of the node is written instead. A crash at any moment since the call began
    /// leaves the old node, or this one as it is once saved; after `Ok` it leaves this one.
    ///
    /// Fails with `Closed` exactly if the store is closed, with `ImageTooLarge` if the image is to
    /// be written and is too large, with `Memory`, and with `Disk` if the device failed. `Disk`
    /// closes the store; the others change nothing. A node of a wide space is never too large.
    pub fn save(&mut self, node: &LoggedNode) -> Result<(), Refusal>
        ensures saved { OnOk result ((old : WholeNode) → Keeps old (D.seen (disk_of self.old))
            → IsLogged (log_of node.now) old.core node.now.node.core
            → Keeps (saved_whole node.now.node) (D.seen (disk_of self.new))) }
        ensures only { OnOk result
            (Only (D.seen (disk_of self.new)) (D.may_leave (disk_of self.new))) }
        ensures intact { logs_in self.old ≡ false → OnOk result
            (IsIntact (D.seen (disk_of self.new))) }
        ensures any_moment { MatchResult result
            (λ _. (old : WholeNode) → Keeps old (D.seen (disk_of self.old))
            → IsLogged (log_of node.now) old.core node.now.node.core
            → LeavesOnly D.moment D.left_since (disk_of self.old) (disk_of self.new)
            (KeepsEither old (saved_whole node.now.node)))
            (λ e. e ≡ refusal.Disk → (old : WholeNode) → Keeps old (D.seen (disk_of self.old))
            → IsLogged (log_of node.now) old.core node.now.node.core
            → LeavesOnly D.moment D.left_since (disk_of self.old) (disk_of self.new)
            (KeepsEither old (saved_whole node.now.node))) }
        ensures logs { logs_in self.new ≡ logs_in self.old }
        ensures after { AfterSave D.faults (disk_of self.old) (disk_of self.new)
            (is_ready_in self.old) (is_ready_in self.new) result }
        ensures too_large { IsErrOf result refusal.ImageTooLarge ↔ IsTrue (is_ready_in self.old)
            × WritesAll self.old (log_of node.now) × IsWholeTooLarge node.now.node }
        ensures wide { node.now.node.core.local.shape.wide ≡ true →
            IfErr result (λ e. e ≢ refusal.ImageTooLarge) }
    {
        match self.journal.save(&node.node, node.events()) {
            Ok(()) => Ok(()),
            Err(refusal) => Err(refusal),
        }
    }
}

impl OverMemory for Store<MemoryDisk> {
    ghost disk = { disk_of };

    ghost same = { λ old new.
        (is_ready_in new ≡ is_ready_in old) × (logs_in new ≡ logs_in old) };

    fn follow(&mut self, plan: Plan) {
        self.journal.follow(plan);
    }

    fn after_crash(&self, fill: u8) -> Result<MemoryDisk, Refusal> {
        self.journal.after_crash(fill)
    }
}
