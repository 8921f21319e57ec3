//! A space as C holds it: a pointer to a [`SeatedSpace`], or null.
ghost use Rattle.std.specs.Prelude.{◌≡◌, None, Some, Option};
ghost use Rattle.std.specs.Coded.{coded_option};
ghost use Rattle.c_handles.specs.Holds.{unboxed};
ghost use Rattle.c_handles.specs.declared.space.SeatedSpace.{SeatedSpace};
ghost use Rattle.c_handles.specs.contracts.space.SeatedSpace.{the_row as Row};
ghost use Rattle.c_values.specs.Faults.{Filled, Freed, Through, empty};
ghost use Rattle.c_values.specs.Fields.{described};
ghost use Rattle.c_handles.specs.Spaces.{Given, Made, Moved, Opens, TakenTested, TakesCell};
ghost use Rattle.c_handles.specs.Spaces.{TakesWatch};

use crate::cell_handle::CellHandle;
use crate::held::Held;
use crate::space::SeatedSpace;
use crate::watch_handle::WatchHandle;
use c_values::{CShape, Fault};
use std::alloc::Global;
use std::marker::{Model, Send};

/// What C holds of a space. Null is an empty handle. Only C copies its bytes, so it can't be
/// dropped here.
#[repr(C)]
pub struct SpaceHandle {
    at: *mut u8,
    pub ghost held: { Option SeatedSpace } by { coded_option Row.coded },
}

impl Model for SpaceHandle {
    ghost use Rattle.c_handles.specs.Holds.{holds};
    ghost use Rattle.c_handles.specs.contracts.space.SeatedSpace.{the_row as Row};

    ghost also_owns = { λ h. holds Row h.at h.held };
}

unsafe impl Send for SpaceHandle {}

impl SpaceHandle {
    // Exchanges what the handle holds.
    fn swap(&mut self, held: Held<SeatedSpace>) -> Held<SeatedSpace>
        ensures { (self.new.held ≡ held.value) × (result.value ≡ self.old.held) }
    {
        let Held { at } = held;
        let old = self.at;
        self.at = at as *mut u8;
        Held {
            at: old as *mut SeatedSpace,
        }
    }

    // Takes out what the handle holds.
    #[inline(always)]
    fn take(&mut self, alloc: Global) -> Option<Box<SeatedSpace>>
        ensures taken { unboxed result ≡ self.old.held }
        ensures empty { self.new.held ≡ None }
    {
        self.swap(Held::none()).into_box(alloc)
    }

    // Puts a space into the handle; what it held is dropped.
    #[inline(always)]
    fn put(&mut self, alloc: Global, full: Box<SeatedSpace>)
        ensures { self.new.held ≡ Some full.value }
    {
        let _none = self.swap(Held::of(full)).into_box(alloc);
    }

    // Fails with `InUse` unless the handle is empty.
    fn test_empty(&mut self, alloc: Global) -> Result<(), Fault>
        ensures same { self.new.held ≡ self.old.held }
        ensures empty { result ≡ empty self.old.held }
    {
        match self.take(alloc) {
            Some(full) => {
                self.put(alloc, full);
                Err(Fault::InUse)
            }
            None => Ok(()),
        }
    }

    /// Frees a space. Fails with `NoHandle` if the handle is empty.
    pub fn free(&mut self, alloc: Global) -> Result<(), Fault>
        ensures { Freed self.old.held self.new.held result }
    {
        match self.take(alloc) {
            Some(_full) => Ok(()),
            None => Err(Fault::NoHandle),
        }
    }

    /// Fills an empty handle with a space that isn't open; see [`SeatedSpace::new`]. Fails with
    /// `InUse` before that.
    pub fn fill_new(&mut self, alloc: Global, sizes: &CShape, watches: u8) -> Result<(), Fault>
        ensures { Filled (Made (described sizes.now) watches) self.old.held self.new.held result }
    {
        self.test_empty(alloc)?;
        let space = SeatedSpace::new(alloc, sizes, watches)?;
        let full = Box::new(alloc, space)?;
        self.put(alloc, full);
        Ok(())
    }

    /// Gives the space the image of a node; see [`SeatedSpace::give`].
    pub fn give(&mut self, alloc: Global, node: u8, image: &[u8]) -> Result<(), Fault>
        ensures { Through (Given node image.now) self.old.held self.new.held result }
    {
        let mut space = self.take(alloc).ok_or(Fault::NoHandle)?;
        let done = space.give(alloc, node, image);
        self.put(alloc, space);
        done
    }

    /// Opens the space; see [`SeatedSpace::open`].
    pub fn open(&mut self, alloc: Global) -> Result<(), Fault>
        ensures { Through Opens self.old.held self.new.held result }
    {
        let mut space = self.take(alloc).ok_or(Fault::NoHandle)?;
        let done = space.open(alloc);
        self.put(alloc, space);
        done
    }

    // Takes the space if the handle for what comes out of it was tested to be empty. Fails with
    // `NoHandle` if there is no space, and then as that test did.
    fn take_tested(
        &mut self,
        alloc: Global,
        tested: Result<(), Fault>,
    ) -> Result<Box<SeatedSpace>, Fault>
        ensures { TakenTested tested self.old.held self.new.held result }
    {
        let space = self.take(alloc).ok_or(Fault::NoHandle)?;
        if let Err(fault) = tested {
            self.put(alloc, space);
            return Err(fault);
        }
        Ok(space)
    }

    /// Moves the cell of a node into an empty handle; see [`SeatedSpace::cell`]. Fails with
    /// `NoHandle` if there is no space, and then with `InUse` if the cell's handle isn't empty.
    pub fn cell(&mut self, alloc: Global, node: u8, to: &mut CellHandle) -> Result<(), Fault>
        ensures { Moved (TakesCell node) self.old.held self.new.held to.old.held to.new.held
            result }
    {
        let mut space = self.take_tested(alloc, to.test_empty(alloc))?;
        let taken = space.cell(node);
        self.put(alloc, space);
        to.put(alloc, taken?);
        Ok(())
    }

    /// Moves a watch into an empty handle; see [`SeatedSpace::watch`]. Fails with
    /// `NoHandle` if there is no space, and then with `InUse` if the watch's handle isn't empty.
    pub fn watch(&mut self, alloc: Global, to: &mut WatchHandle) -> Result<(), Fault>
        ensures { Moved TakesWatch self.old.held self.new.held to.old.held to.new.held result }
    {
        let mut space = self.take_tested(alloc, to.test_empty(alloc))?;
        let taken = space.watch();
        self.put(alloc, space);
        to.put(alloc, taken?);
        Ok(())
    }
}
