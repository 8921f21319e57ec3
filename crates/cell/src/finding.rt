//! Nodes as their disks hold them. A blank disk gets a new node; any other disk gives the last
//! saved one. Anything but a node of this place is refused.
//!
//! ```text
//! the disk of node k                                  the node, or why there is none
//! nothing was ever created on it                      a new node, which is created there
//! it opens to node k of a space of this shape         that node as it was saved last
//! it opens to another node, or of another shape       Another
//! something was created on it, and it opens to none   Failed with BadImage
//! its bytes have changed, as its seal shows           Failed with BadImage
//! a call of the disk failed                           Failed with Disk
//! ```
//!
//! The first failure ends the opening; it names the node. If the number of disks is wrong, the
//! opening fails before any disk is read. All disks are read before anything is created. Each two
//! of the nodes are compared: if they can't be the saved states of one moment, the opening fails
//! with `Ages`. Only then are the new nodes created. So an opening that fails before that has
//! written nothing.
ghost use Rattle.std.specs.Prelude.{◌≡◌, ◌≢◌, ◌⊎◌, ◌++◌, [], ◌∷◌, false, true, IfErr, IfOk, IsErrOf, IsTrue, OnOk};
ghost use Rattle.std.specs.Prelude.{◌<◌, length, vec_len};
ghost use Rattle.ids.specs.Limits.{IsShape};
ghost use Rattle.ids.specs.declared.refusal.Refusal.TheVariants.{BadImage, Memory};
ghost use Rattle.disk.specs.Areas.{IsBlank};
ghost use Rattle.disk.specs.Crashes.{LeavesOnly, Unmoved};
ghost use Rattle.disk_shelf.specs.Seals.{IsIntact};
ghost use Rattle.wire.specs.OneAge.{AreOfOneAge};
ghost use Rattle.cell.specs.Ages.{IsWhy};
ghost use Rattle.cell.specs.Disks.{OpensToNode};
ghost use Rattle.cell.specs.Looking.{AreIntact, AreLookedAt, AreOn, AreUnmoved, HoldsNode, IsOfReading};
ghost use Rattle.cell.specs.Looking.{logs_at};
ghost use Rattle.cell.specs.Opened.{AreBeside, AreFound, IsCause, IsChosen, IsNodeOf, IsReadFrom};
ghost use Rattle.cell.specs.Opened.{IsWhyNot, StaysOrNew, unsealed};
ghost use Rattle.cell.specs.declared.fault.Unopened.TheVariants as fault;
ghost use Rattle.node.specs.Keeping.{new_whole};
ghost use Rattle.node_store.specs.Stores.{disk_of, is_ready_in, logs_in};

use crate::fault::Unopened;
use disk::Disk;
use disk_journal::Tail;
use disk_shelf::{DIGEST, check_seals, is_blank};
use ids::{NodeId, Refusal, Saves, Shape};
use node::Node;
use node_store::Store;
use std::alloc::Global;
use std::mem;
use wire::first_apart;

// Whether a node has this number and this shape.
fn is_node_of(node: &Node, shape: Shape, own: NodeId) -> bool
    ensures is { IsTrue result → IsNodeOf shape own.number node.now.core }
    ensures other { result ≡ false → IsNodeOf shape own.number node.now.core → ⊥ }
{
    let state = node.state();
    state.shape == shape && state.own == own.number
}

// Adds a value to a list.
fn add<T: Drop>(values: &mut Vec<T>, value: T) -> Result<(), Unopened>
    ensures added { OnOk result (values.new.items ≡ values.old.items ++ value ∷ []) }
    ensures refused { IfErr result (λ e. e ≡ fault.Memory) }
{
    match values.push(value) {
        Ok(()) => Ok(()),
        Err(_) => Err(Unopened::Memory),
    }
}

// The fault of a node that wasn't read or created because of this refusal.
fn failed(node: u8, refusal: Refusal) -> Unopened
    ensures { ((refusal ≡ Memory) × (result ≡ fault.Memory))
        ⊎ ((refusal ≢ Memory) × (result ≡ fault.Failed node refusal)) }
{
    match refusal {
        Refusal::Memory => Unopened::Memory,
        refusal => Unopened::Failed { node, refusal },
    }
}

// The node that a disk holds, and the area that holds it, if the node has this number and this
// shape. This is the digest of the disk's log, if it has seals.
fn read_node<D: Disk>(
    alloc: Global,
    shape: Shape,
    own: NodeId,
    disk: &mut D,
    saves: Saves,
    digest: Option<[u8; DIGEST]>,
) -> Result<(Node, Option<Tail>), Unopened>
    requires { IsBlank (D.seen disk.old) → ⊥ }
    ensures node { IfOk result (λ r. IsNodeOf shape own.number r.0.core) }
    ensures holds { IfOk result (λ r. HoldsNode D.seen D.may_leave disk.new r.0 r.1) }
    ensures chosen { IfOk result (λ r. IsChosen saves (D.seen disk.old) (logs_at saves r.1)) }
    ensures read { IfOk result (λ r. OpensToNode r.0 (D.seen disk.old)) }
    ensures quiet { Unmoved D.seen D.may_leave D.moment D.left_since disk.old disk.new }
    ensures fine { OnOk result (D.faults disk.new ≡ D.faults disk.old) }
    ensures why { IfErr result
        (IsWhyNot D.seen unsealed D.moment D.faults shape own.number disk.old) }
{
    let (place, node) = match node_store::read_node(alloc, disk, saves) {
        Ok(found) => found,
        Err(refusal) => return Err(failed(own.number, refusal)),
    };
    if is_node_of(&node, shape, own) {
        Ok((node, Some(place.with_digest(digest))))
    } else {
        Err(Unopened::Another { node: own.number })
    }
}

// A new node. Nothing is created on its disk yet.
fn new_node(alloc: Global, shape: Shape, own: NodeId) -> Result<(Node, Option<Tail>), Unopened>
    requires { own.number < shape.nodes }
    ensures node { IfOk result (λ r. r.0 ≡ new_whole shape own.number) }
    ensures blank { IfOk result (λ r. r.1 ≡ None) }
    ensures refused { IfErr result (λ e. e ≡ fault.Memory) }
{
    match Node::new(alloc, shape, own) {
        Ok(node) => Ok((node, None)),
        Err(_) => Err(Unopened::Memory),
    }
}

// The node of this number: a new one if nothing was ever created on the disk, else the one that the
// disk holds, with the area that holds it. It writes nothing.
fn look_at<D: Disk>(
    alloc: Global,
    shape: Shape,
    own: NodeId,
    disk: &mut D,
    saves: Saves,
) -> Result<(Node, Option<Tail>), Unopened>
    requires { own.number < shape.nodes }
    ensures node { IfOk result (λ r. IsNodeOf shape own.number r.0.core) }
    ensures holds { IfOk result (λ r. HoldsNode D.seen D.may_leave disk.new r.0 r.1) }
    ensures chosen { IfOk result (λ r. IsChosen saves (D.seen disk.old) (logs_at saves r.1)) }
    ensures read { IfOk result (λ r. IsReadFrom shape own.number (D.seen disk.old) r.0) }
    ensures intact { OnOk result (IsTrue (D.seals disk.old) → IsIntact (D.seen disk.old)) }
    ensures quiet { Unmoved D.seen D.may_leave D.moment D.left_since disk.old disk.new }
    ensures fine { OnOk result (D.faults disk.new ≡ D.faults disk.old) }
    ensures why { IfErr result
        (IsWhyNot D.seen D.seals D.moment D.faults shape own.number disk.old) }
{
    let digest = match check_seals(alloc, disk) {
        Ok(digest) => digest,
        Err(refusal) => return Err(failed(own.number, refusal)),
    };
    match is_blank(disk) {
        Ok(true) => new_node(alloc, shape, own),
        Ok(false) => read_node(alloc, shape, own, disk, saves, digest),
        Err(_) => Err(Unopened::Failed {
            node: own.number,
            refusal: Refusal::Disk,
        }),
    }
}

// The nodes of a space, in order, of whatever ages, and the areas that hold them. Nothing is
// written.
fn look_at_all<D: Disk>(
    alloc: Global,
    shape: Shape,
    disks: &mut [D],
    saves: Saves,
) -> Result<(Vec<Node>, Vec<Option<Tail>>), Unopened>
    requires { length disks.old ≡ shape.nodes }
    ensures untouched { AreUnmoved D.seen D.may_leave D.moment D.left_since disks.old disks.new }
    ensures why { IfErr result (IsWhy D.seen D.seals D.moment D.faults shape disks.old) }
    ensures found { IfOk result (λ r. AreLookedAt D.seen D.may_leave D.faults shape shape.nodes
        disks.old disks.new r.0.items r.1.items) }
    ensures chosen { IfOk result (λ r. AreBeside
        (λ k d place. IsChosen saves (D.seen d) (logs_at saves place)) disks.old r.1.items) }
    ensures intact { OnOk result (AreIntact D.seen D.seals disks.old) }
{
    let mut nodes = Vec::new(alloc);
    let mut areas = Vec::new(alloc);
    for number in 0..shape.nodes() {
        let disk = &mut disks[usize::from(number)];
        let (node, area) = look_at(alloc, shape, NodeId { number }, disk, saves)?;
        add(&mut nodes, node)?;
        add(&mut areas, area)?;
    }
    Ok((nodes, areas))
}

// A new node's store, on a disk on which nothing was ever created.
fn create<D: Disk + Drop>(
    alloc: Global,
    disk: D,
    node: &Node,
    saves: Saves,
) -> Result<Store<D>, Refusal>
    requires { HoldsNode D.seen D.may_leave disk node.now None }
    ensures ready { IfOk result (λ s. is_ready_in s ≡ true) }
    ensures opens { IfOk result (λ s. OpensToNode node.now (D.seen (disk_of s))) }
    ensures any_moment { IfOk result (λ s. LeavesOnly D.moment D.left_since disk (disk_of s)
        (StaysOrNew D.seen D.may_leave node.now.core.local.shape node.now.core.local.own disk)) }
    ensures logs { IfOk result (λ s. logs_in s ≡ logs_at saves None) }
    ensures cause { IfErr result (λ r. r ≢ Memory → IsCause D.seen unsealed D.moment D.faults
        node.now.core.local.shape node.now.core.local.own disk r) }
    ensures not_bad { IfErr result (λ r. r ≢ BadImage) }
{
    match Store::create(alloc, disk, node, saves) {
        Ok(store) => Ok(store),
        Err((_disk, refusal)) => Err(refusal),
    }
}

// The store of a node that was read from this disk. A new node is created on it.
fn put_on<D: Disk + Drop>(
    alloc: Global,
    disk: D,
    node: &Node,
    area: Option<Tail>,
    saves: Saves,
) -> Result<Store<D>, Refusal>
    requires { HoldsNode D.seen D.may_leave disk node.now area }
    ensures ready { IfOk result (λ s. is_ready_in s ≡ true) }
    ensures opens { IfOk result (λ s. OpensToNode node.now (D.seen (disk_of s))) }
    ensures any_moment { IfOk result (λ s. LeavesOnly D.moment D.left_since disk (disk_of s)
        (StaysOrNew D.seen D.may_leave node.now.core.local.shape node.now.core.local.own disk)) }
    ensures logs { IfOk result (λ s. logs_in s ≡ logs_at saves area) }
    ensures cause { IfErr result (λ r. r ≢ Memory → IsCause D.seen unsealed D.moment D.faults
        node.now.core.local.shape node.now.core.local.own disk r) }
    ensures not_bad { IfErr result (λ r. r ≢ BadImage) }
{
    match area {
        Some(place) => Ok(Store::resume(alloc, disk, place)),
        None => create(alloc, disk, node, saves),
    }
}

// The stores of nodes that were read from these disks, in order. New nodes are created on theirs.
fn put_all_on<D: Disk + Drop>(
    alloc: Global,
    shape: Shape,
    mut disks: Vec<D>,
    nodes: &[Node],
    areas: &[Option<Tail>],
    saves: Saves,
) -> Result<Vec<Store<D>>, Unopened>
    requires on { AreOn D.seen D.may_leave shape disks.items nodes.now areas.now }
    requires count { length nodes.now ≡ shape.nodes }
    ensures found { IfOk result (λ v.
        AreFound (λ n s. (is_ready_in s ≡ true) × OpensToNode n (D.seen (disk_of s)))
        shape nodes.now v.items) }
    ensures any_moment { IfOk result (λ v. AreBeside (λ k d s.
        LeavesOnly D.moment D.left_since d (disk_of s)
        (StaysOrNew D.seen D.may_leave shape k d)) disks.items v.items) }
    ensures logs { IfOk result (λ v.
        AreBeside (λ k place s. logs_in s ≡ logs_at saves place) areas.now v.items) }
    ensures why { IfErr result (IsWhy D.seen unsealed D.moment D.faults shape disks.items) }
    ensures all_read { IfErr result (λ e. IsOfReading e → ⊥) }
{
    let mut stores = Vec::new(alloc);
    for number in 0..shape.nodes() {
        let disk = disks.remove(0);
        let place = usize::from(number);
        match put_on(alloc, disk, &nodes[place], areas[place], saves) {
            Ok(store) => add(&mut stores, store)?,
            Err(refusal) => return Err(failed(number, refusal)),
        }
    }
    Ok(stores)
}

/// The nodes of a space, in order, each in its store: new ones for disks on which nothing was ever
/// created, else those that the disks hold. A save adds events to a log if the caller chose that,
/// or if a log follows the image on the disk; otherwise it writes the image.
///
/// Fails with `Disks` exactly if the number of disks is not the number of nodes; with `Memory` if
/// an allocation failed. The other errors name the node of the disk that is their cause:
///
/// - `Another`, if the disk holds a node of another shape or number;
/// - `Failed` with `BadImage`, if something was created on the disk and it opens to no node; or if
/// the disk [seals](Disk::seals), and its seal shows that its bytes have changed;
/// - `Failed` with `ImageTooLarge`, if the disk is blank and the image of its new node would be
/// too large;
/// - `Failed` with `Disk`, if a call of the disk failed during this call.
///
/// If all nodes are found, it fails with `Ages` exactly if two of them can't be the saved states of
/// one moment. The first of them has sent fewer messages than the second has received from it, or
/// has dropped some that the second lacks.
///
/// A crash at any moment since a call began that succeeds leaves on each disk what it could have
/// left before. If nothing was ever created on the disk, it may also leave such a disk or the new
/// node.
///
/// There are no other causes. All disks are read, and the nodes compared, before anything is
/// created. So after `Disks`, `Another`, `Ages` and `BadImage` the disks are still in the vector,
/// and nothing was written on any of them. If it succeeds, the vector is empty.
pub fn find<D: Disk + Drop>(
    alloc: Global,
    shape: Shape,
    disks: &mut Vec<D>,
    saves: Saves,
) -> Result<(Vec<Node>, Vec<Store<D>>), Unopened>
    ensures disks { vec_len disks.old ≢ shape.nodes → IsErrOf result fault.Disks }
    ensures why { IfErr result (IsWhy D.seen D.seals D.moment D.faults shape disks.old.items) }
    ensures untouched { IfErr result (λ e. IsOfReading e →
        AreUnmoved D.seen D.may_leave D.moment D.left_since disks.old.items disks.new.items) }
    ensures taken { OnOk result (disks.new.items ≡ []) }
    ensures count { IfOk result (λ r. length r.0.items ≡ shape.nodes) }
    ensures found { IfOk result (λ r.
        AreFound (λ n s. (is_ready_in s ≡ true) × OpensToNode n (D.seen (disk_of s)))
        shape r.0.items r.1.items) }
    ensures any_moment { IfOk result (λ r. AreBeside (λ k d s.
        LeavesOnly D.moment D.left_since d (disk_of s)
        (StaysOrNew D.seen D.may_leave shape k d)) disks.old.items r.1.items) }
    ensures logs { IfOk result (λ r.
        AreBeside (λ k d s. IsChosen saves (D.seen d) (logs_in s)) disks.old.items r.1.items) }
    ensures read { IfOk result (λ r. AreBeside
        (λ k d n. IsReadFrom shape k (D.seen d) n) disks.old.items r.0.items) }
    ensures all { IfOk result (λ r. length r.0.items ≡ length disks.old.items) }
    ensures intact { OnOk result (AreIntact D.seen D.seals disks.old.items) }
    ensures one_age { IfOk result (λ r. AreOfOneAge r.0.items) }
    ensures limits { IsShape shape }
{
    if disks.len() != usize::from(shape.nodes()) {
        return Err(Unopened::Disks);
    }
    let (nodes, areas) = look_at_all(alloc, shape, disks.as_mut_slice(), saves)?;
    if let Some((sender, receiver)) = first_apart(nodes.as_slice(), shape.nodes()) {
        return Err(Unopened::Ages { sender, receiver });
    }
    let found = mem::replace(disks, Vec::new(alloc));
    let stores = put_all_on(
        alloc,
        shape,
        found,
        nodes.as_slice(),
        areas.as_slice(),
        saves,
    )?;
    Ok((nodes, stores))
}
