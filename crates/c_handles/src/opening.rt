//! What a space is opened with: a disk in memory for each node, and for each cell and each watch
//! one more holder of the wire.
ghost use Rattle.std.specs.Prelude.{◌≡◌, ◌⊎◌, All, IfErr, IfOk, IsErrOf, OnOk, length, map};
ghost use Rattle.std.specs.Prelude.{None, Some, false, replicate};
ghost use Rattle.std.specs.Arc.{arc_value};
ghost use Rattle.ids.specs.declared.refusal.Refusal.TheVariants.{Memory};
ghost use Rattle.disk.specs.Memory.{held_by};
ghost use Rattle.wire.specs.Readers.{IsSeatOf, IsWatchOf};
ghost use Rattle.c_handles.specs.Opening.{AreBegun, EachOf, HasPlace, IsFresh, IsFreshIn, IsOnWire, IsShort};
ghost use Rattle.c_handles.specs.Opening.{IsWhy};
ghost use Rattle.c_handles.specs.Opening.{areas_in, cell_in, fault_of, watch_in};

use crate::seated::SeatedCell;
use crate::watching::SeatedWatch;
use c_values::Fault;
use cell::{Cell, Unopened, open};
use disk::MemoryDisk;
use disk_shelf::{GREATEST_SAVED, disk_of_image};
use ids::{Refusal, Saves, Shape};
use image_parts::is_too_long;
use std::alloc::Global;
use std::sync::Arc;
use wire::{Watch, Wire};

/// This many empty places.
pub(crate) fn places<T: Drop>(alloc: Global, count: u8) -> Result<Vec<Option<T>>, Refusal>
    ensures empty { IfOk result (λ v. v.items ≡ replicate count None) }
    ensures refused { IfErr result (λ e. e ≡ Memory) }
{
    let mut places = Vec::new(alloc);
    for _ in 0..count {
        places.push(None)?;
    }
    Ok(places)
}

/// The same bytes.
pub(crate) fn copied(alloc: Global, bytes: &[u8]) -> Result<Vec<u8>, Refusal>
    ensures same { IfOk result (λ v. v.items ≡ bytes.now) }
    ensures refused { IfErr result (λ e. e ≡ Memory) }
{
    Ok(Vec::from_slice(alloc, bytes)?)
}

// A disk that holds the image, or a blank one. Fails with `BadImage` if what was given is longer
// than an image may be, and with `Memory`.
fn disk_of(alloc: Global, image: &Option<Vec<u8>>) -> Result<MemoryDisk, Refusal>
    ensures held { IfOk result (λ d. held_by d ≡ areas_in image.now) }
    ensures short { OnOk result (IsShort image.now) }
    ensures long { IsErrOf result Refusal.BadImage → IsShort image.now → ⊥ }
    ensures others { IfErr result (λ e. (e ≡ Refusal.BadImage) ⊎ (e ≡ Refusal.Memory)) }
{
    let Some(image) = image else {
        return Ok(MemoryDisk::new(alloc));
    };
    if is_too_long(image) || image.len() as u64 > GREATEST_SAVED {
        return Err(Refusal::BadImage);
    }
    disk_of_image(alloc, image)
}

// A disk for each node.
fn disks_of(alloc: Global, images: &[Option<Vec<u8>>]) -> Result<Vec<MemoryDisk>, Refusal>
    ensures held { IfOk result (λ v. map held_by v.items ≡ map areas_in images.now) }
    ensures short { OnOk result (EachOf IsShort images.now) }
    ensures long { IsErrOf result Refusal.BadImage
        → HasPlace (λ k i. IsShort i → ⊥) images.now }
    ensures others { IfErr result (λ e. (e ≡ Refusal.BadImage) ⊎ (e ≡ Refusal.Memory)) }
{
    let mut disks = Vec::new(alloc);
    for place in 0..images.len() {
        let disk = disk_of(alloc, &images[place])?;
        disks.push(disk)?;
    }
    Ok(disks)
}

fn fault_of(unopened: Unopened) -> Fault
    ensures { result ≡ fault_of unopened }
{
    match unopened {
        Unopened::Disks | Unopened::Another { .. } => Fault::WrongDisks,
        Unopened::Ages { sender, receiver } => Fault::Ages { sender, receiver },
        Unopened::Failed { refusal, .. } => Fault::Refused(refusal),
        Unopened::Memory => Fault::Refused(Refusal::Memory),
    }
}

/// The cells of new nodes or of those whose images were given, the wire between them, and its
/// watches.
pub(crate) fn begin(
    alloc: Global,
    shape: Shape,
    images: &[Option<Vec<u8>>],
    watches: u8,
) -> Result<(Wire, Vec<Cell<MemoryDisk>>, Vec<Watch>), Fault>
    requires { length images.now ≡ shape.nodes }
    ensures begun { IfOk result (λ r.
        AreBegun shape images.now watches r.0 r.1.items r.2.items) }
    ensures refused { IfErr result (IsWhy shape images.now) }
{
    let disks = disks_of(alloc, images)?;
    match open(alloc, shape, disks, watches, Saves::Images) {
        Ok(opened) => Ok(opened),
        Err(unopened) => Err(fault_of(unopened)),
    }
}

// One more holder of the wire.
fn same_wire(wire: &Arc<Wire>) -> Result<Arc<Wire>, Refusal>
    ensures same { IfOk result (λ w. arc_value w ≡ arc_value wire.now) }
    ensures refused { IfErr result (λ e. e ≡ Memory) }
{
    Ok(wire.clone()?)
}

// A cell with its wire.
fn seat(alloc: Global, wire: &Arc<Wire>, cell: Cell<MemoryDisk>) -> Result<Box<SeatedCell>, Refusal>
    requires seat { IsSeatOf (arc_value wire.now) cell.seat }
    requires plain { cell.logs ≡ false }
    ensures cell { IfOk result (λ b. b.value.cell ≡ cell) }
    ensures fresh { IfOk result (λ b. IsFresh (arc_value wire.now) b.value) }
    ensures refused { IfErr result (λ e. e ≡ Memory) }
{
    Ok(Box::new(alloc, SeatedCell::new(alloc, cell, same_wire(wire)?))?)
}

/// The cells, in order, each with its wire.
pub(crate) fn seat_all(
    alloc: Global,
    wire: &Arc<Wire>,
    mut cells: Vec<Cell<MemoryDisk>>,
) -> Result<Vec<Option<Box<SeatedCell>>>, Refusal>
    requires seats { EachOf (λ c. IsSeatOf (arc_value wire.now) c.seat) cells.items }
    requires plain { EachOf (λ c. c.logs ≡ false) cells.items }
    ensures cells { IfOk result (λ v. map cell_in v.items ≡ map Some cells.items) }
    ensures fresh { IfOk result (λ v. All (IsFreshIn (arc_value wire.now)) v.items) }
    ensures refused { IfErr result (λ e. e ≡ Memory) }
{
    let mut seated = Vec::new(alloc);
    for _ in 0..cells.len() {
        let cell = cells.remove(0);
        let full = seat(alloc, wire, cell)?;
        seated.push(Some(full))?;
    }
    Ok(seated)
}

// A watch with its wire.
fn seat_watch(alloc: Global, wire: &Arc<Wire>, watch: Watch) -> Result<Box<SeatedWatch>, Refusal>
    requires { IsWatchOf (arc_value wire.now) watch }
    ensures watch { IfOk result (λ b. b.value.watch ≡ watch) }
    ensures wire { IfOk result (λ b. arc_value b.value.wire ≡ arc_value wire.now) }
    ensures refused { IfErr result (λ e. e ≡ Memory) }
{
    Ok(Box::new(alloc, SeatedWatch::new(watch, same_wire(wire)?))?)
}

/// The watches, in order, each with its wire.
pub(crate) fn seat_watches(
    alloc: Global,
    wire: &Arc<Wire>,
    mut watches: Vec<Watch>,
) -> Result<Vec<Box<SeatedWatch>>, Refusal>
    requires { EachOf (IsWatchOf (arc_value wire.now)) watches.items }
    ensures watches { IfOk result (λ v. map watch_in v.items ≡ watches.items) }
    ensures wire { IfOk result (λ v. All (IsOnWire (arc_value wire.now)) v.items) }
    ensures refused { IfErr result (λ e. e ≡ Memory) }
{
    let mut seated = Vec::new(alloc);
    for _ in 0..watches.len() {
        let watch = watches.remove(0);
        let full = seat_watch(alloc, wire, watch)?;
        seated.push(full)?;
    }
    Ok(seated)
}
