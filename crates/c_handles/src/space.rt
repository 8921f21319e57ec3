//! A space that the caller opens on images that it stored, or on none. Its cells and watches are
//! then taken out, each for one thread.
ghost use Rattle.std.specs.Prelude.{◌≡◌, vec_len};
ghost use Rattle.c_values.specs.Fields.{described};

use crate::opening::{begin, copied, places, seat_all, seat_watches};
use crate::seated::SeatedCell;
use crate::watching::SeatedWatch;
use c_values::{CShape, Fault};
use ids::{Refusal, Shape};
use std::alloc::Global;
use std::sync::Arc;

/// A space, with the images that were given while it isn't open, and with the cells and watches
/// that weren't taken out yet.
#[derive(Drop)]
pub struct SeatedSpace {
    shape: Shape,
    watches: u8,
    is_open: bool,
    images: Vec<Option<Vec<u8>>>,
    cells: Vec<Option<Box<SeatedCell>>>,
    watching: Vec<Box<SeatedWatch>>,
    ghost imaged: { vec_len images ≡ shape.nodes },
    ghost seated: { vec_len cells ≡ shape.nodes },
}

impl SeatedSpace {
    ghost use Rattle.c_handles.specs.Spaces.{Given, Made, Opens, TakesCell, TakesWatch, taken};

    /// A space that isn't open. Fails with `BadArgument` if these are no sizes of a space, and with
    /// `Memory`.
    pub fn new(alloc: Global, sizes: &CShape, watches: u8) -> Result<SeatedSpace, Fault>
        ensures { Made (described sizes.now) watches result }
    {
        let shape = sizes.shape().ok_or(Fault::BadArgument)?;
        let images = places(alloc, shape.nodes())?;
        let cells = places(alloc, shape.nodes())?;
        Ok(SeatedSpace {
            shape,
            watches,
            is_open: false,
            images,
            cells,
            watching: Vec::new(alloc),
        })
    }

    /// Gives the space the image of a node, from which that node will continue. It replaces an
    /// earlier one. Fails with `InUse` if the space is open, then with `NoNode` if it has no such
    /// node, and with `Memory`.
    pub fn give(&mut self, alloc: Global, node: u8, image: &[u8]) -> Result<(), Fault>
        ensures { Given node image.now self.old self.new result }
    {
        if self.is_open {
            return Err(Fault::InUse);
        }
        if node >= self.shape.nodes() {
            return Err(Fault::Refused(Refusal::NoNode));
        }
        let image = copied(alloc, image)?;
        self.images[usize::from(node)] = Some(image);
        Ok(())
    }

    /// Opens the space: a node whose image was given continues from it, any other is a new one. The
    /// images are then dropped.
    ///
    /// Nothing changes if it fails:
    ///
    /// - with `InUse` if the space is open;
    /// - with `WrongDisks` if an image is that of another node or of a space of another shape;
    /// - with `BadImage` if what was given is no image;
    /// - with `Ages` if the images of two nodes are not of one moment;
    /// - with `ImageTooLarge` if a new node's image would be longer than an image may be;
    /// - with `Memory`, and with `Disk` if a disk in memory couldn't grow.
    pub fn open(&mut self, alloc: Global) -> Result<(), Fault>
        ensures { Opens self.old self.new result }
    {
        if self.is_open {
            return Err(Fault::InUse);
        }
        let images = places(alloc, self.shape.nodes())?;
        let (wire, cells, watches) = begin(alloc, self.shape, &self.images, self.watches)?;
        let wire = Arc::new(alloc, wire)?;
        let cells = seat_all(alloc, &wire, cells)?;
        let watching = seat_watches(alloc, &wire, watches)?;
        self.images = images;
        self.cells = cells;
        self.watching = watching;
        self.is_open = true;
        Ok(())
    }

    /// Takes out the cell of a node. Fails with `NoNode` if the space has no such node, and with
    /// `Nothing` if the space isn't open or the cell was taken out before. It takes no memory.
    pub fn cell(&mut self, node: u8) -> Result<Box<SeatedCell>, Fault>
        ensures { TakesCell node self.old self.new (taken result) }
    {
        if node >= self.shape.nodes() {
            return Err(Fault::Refused(Refusal::NoNode));
        }
        match self.cells[usize::from(node)].take() {
            Some(cell) => Ok(cell),
            None => Err(Fault::Nothing),
        }
    }

    /// Takes out a watch. Fails with `Nothing` if the space isn't open or all watches were taken
    /// out. It takes no memory.
    pub fn watch(&mut self) -> Result<Box<SeatedWatch>, Fault>
        ensures { TakesWatch self.old self.new (taken result) }
    {
        match self.watching.pop() {
            Some(watch) => Ok(watch),
            None => Err(Fault::Nothing),
        }
    }
}
