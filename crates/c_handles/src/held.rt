//! A box or none as one pointer, for structs that cross to C. C sees a pointer that is null or
//! not; the ghost value says what it owns (`specs/Holds.antt`).
//!
//! A struct that C keeps has a field `*mut u8` and owns the same formula. One function of its own
//! exchanges what it holds for a [`Held`], which is then a box again. No other code follows a
//! pointer.
ghost use Rattle.std.specs.Prelude.{◌≡◌, Option, None, Some};
ghost use Rattle.std.specs.Coded.{coded_option};
ghost use Rattle.c_handles.specs.Holds.{holds, unboxed};

use std::alloc::Global;
use std::marker::Model;
use std::ptr::null_mut;

/// A box, or none, as its pointer. It can't be dropped: [`Held::into_box`] consumes it.
pub struct Held<T> {
    pub at: *mut T,
    pub ghost value: { Option T } by { coded_option T.code },
}

impl<T> Model for Held<T> {
    ghost also_owns = { λ h. holds T.row h.at h.value };
}

impl<T: Drop> Held<T> {
    /// Holds nothing.
    pub fn none() -> Held<T>
        ensures { result.value ≡ None }
    {
        Held { at: null_mut() }
    }

    /// Holds what the box holds.
    pub fn of(full: Box<T>) -> Held<T>
        ensures { result.value ≡ Some full.value }
    {
        Held {
            at: Box::into_raw(full),
        }
    }

    /// The box again, if there is one.
    pub fn into_box(self, alloc: Global) -> Option<Box<T>>
        ensures { unboxed result ≡ self.value }
    {
        let Held { at } = self;
        if at.is_null() {
            None
        } else {
            Some(unsafe { Box::from_raw(alloc, at) })
        }
    }
}
