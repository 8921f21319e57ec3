//! How a disk in memory knows what it held at the last sync: it keeps the bytes that a write
//! replaces. A crash undoes the writes from the last one on.
ghost use Rattle.std.specs.Prelude.{◌≡◌, ◌≤◌, length, take, drop, IfOk, OnOk};
ghost use Rattle.disk.specs.Areas.{part};
ghost use Rattle.disk.specs.Record.{areas_of};

use crate::Area;
use crate::state::Contents;
use std::alloc::{AllocError, Global};

/// What was in a range of an area before it was written, and how long the area was.
#[derive(Drop)]
pub struct Undo {
    pub(crate) area: Area,
    pub(crate) at: usize,
    pub(crate) old: Vec<u8>,
    pub(crate) len: usize,
}

impl Undo {
    ghost use Rattle.disk.specs.Undo.{undone_by, IsUndo};

    /// What a write of `len` bytes at this offset replaces.
    pub(crate) fn of(
        alloc: Global,
        held: &Contents,
        area: Area,
        at: usize,
        len: usize,
    ) -> Result<Undo, AllocError>
        requires { at ≤ length (part area (areas_of held.now)) }

        ensures { IfOk result (IsUndo area at len (areas_of held.now)) }
    {
        let rest = &held.part(area)[at..];
        let old = rest[..len.min(rest.len())].to_vec(alloc)?;
        Ok(Undo {
            area,
            at,
            old,
            len: at + rest.len(),
        })
    }

    /// Puts back what was there.
    pub(crate) fn undo(&self, held: &mut Contents) -> Result<(), AllocError>
        ensures { OnOk result (areas_of held.new ≡ undone_by self.now (areas_of held.old)) }
    {
        if self.at > held.part(self.area).len() {
            return Ok(());
        }
        held.reserve(self.area, self.at, self.old.len())?;
        held.write(self.area, self.at, &self.old);
        held.cut(self.area, self.len);
        Ok(())
    }
}
