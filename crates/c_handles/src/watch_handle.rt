//! A watch as C holds it: a pointer to a [`SeatedWatch`], or null.
ghost use Rattle.std.specs.Prelude.{◌≡◌, None, Some, Option};
ghost use Rattle.std.specs.Coded.{coded_option};
ghost use Rattle.c_handles.specs.Holds.{unboxed};
ghost use Rattle.c_handles.specs.declared.watching.SeatedWatch.{SeatedWatch};
ghost use Rattle.c_handles.specs.contracts.watching.SeatedWatch.{the_row as Row};
ghost use Rattle.c_values.specs.Faults.{Freed, Through, empty};
ghost use Rattle.c_handles.specs.Watches.{Looks};

use crate::held::Held;
use crate::watching::SeatedWatch;
use c_values::Fault;
use std::alloc::Global;
use std::marker::{Model, Send};

/// What C holds of a watch. Null is an empty handle. Only C copies its bytes, so it can't be
/// dropped here.
#[repr(C)]
pub struct WatchHandle {
    at: *mut u8,
    pub ghost held: { Option SeatedWatch } by { coded_option Row.coded },
}

impl Model for WatchHandle {
    ghost use Rattle.c_handles.specs.Holds.{holds};
    ghost use Rattle.c_handles.specs.contracts.watching.SeatedWatch.{the_row as Row};

    ghost also_owns = { λ h. holds Row h.at h.held };
}

unsafe impl Send for WatchHandle {}

impl WatchHandle {
    // Exchanges what the handle holds.
    fn swap(&mut self, held: Held<SeatedWatch>) -> Held<SeatedWatch>
        ensures { (self.new.held ≡ held.value) × (result.value ≡ self.old.held) }
    {
        let Held { at } = held;
        let old = self.at;
        self.at = at as *mut u8;
        Held {
            at: old as *mut SeatedWatch,
        }
    }

    // Takes out what the handle holds.
    #[inline(always)]
    fn take(&mut self, alloc: Global) -> Option<Box<SeatedWatch>>
        ensures taken { unboxed result ≡ self.old.held }
        ensures empty { self.new.held ≡ None }
    {
        self.swap(Held::none()).into_box(alloc)
    }

    // Puts a watch into the handle; what it held is dropped.
    #[inline(always)]
    pub(crate) fn put(&mut self, alloc: Global, full: Box<SeatedWatch>)
        ensures { self.new.held ≡ Some full.value }
    {
        let _none = self.swap(Held::of(full)).into_box(alloc);
    }

    /// Fails with `InUse` unless the handle is empty.
    pub(crate) fn test_empty(&mut self, alloc: Global) -> Result<(), Fault>
        ensures same { self.new.held ≡ self.old.held }
        ensures empty { result ≡ empty self.old.held }
    {
        match self.take(alloc) {
            Some(full) => {
                self.put(alloc, full);
                Err(Fault::InUse)
            }
            None => Ok(()),
        }
    }

    /// Frees a watch. Fails with `NoHandle` if the handle is empty.
    pub fn free(&mut self, alloc: Global) -> Result<(), Fault>
        ensures { Freed self.old.held self.new.held result }
    {
        match self.take(alloc) {
            Some(_full) => Ok(()),
            None => Err(Fault::NoHandle),
        }
    }

    /// The number of the last cycle that node 0 has shown; see [`SeatedWatch::look`].
    pub fn look(&mut self, alloc: Global) -> Result<u64, Fault>
        ensures { Through Looks self.old.held self.new.held result }
    {
        let mut watch = self.take(alloc).ok_or(Fault::NoHandle)?;
        let number = watch.look();
        self.put(alloc, watch);
        Ok(number)
    }
}
