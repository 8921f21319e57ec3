//! A cell as C holds it: a pointer to a [`SeatedCell`], or null.
ghost use Rattle.std.specs.Prelude.{◌≡◌, true, None, Some, Ok, Option};
ghost use Rattle.std.specs.Coded.{coded_option};
ghost use Rattle.c_handles.specs.Holds.{unboxed};
ghost use Rattle.c_handles.specs.declared.seated.SeatedCell.{SeatedCell};
ghost use Rattle.c_handles.specs.contracts.seated.SeatedCell.{the_row as Row};
ghost use Rattle.c_values.specs.Faults.{Freed, Through, empty, read};
ghost use Rattle.c_handles.specs.Reads.{link_of, object_bytes, object_len, register_of};
ghost use Rattle.c_values.specs.Bytes.{WroteIf};
ghost use Rattle.model.specs.Steps.{is_own};
ghost use Rattle.node.specs.Summaries.{summary_of};
ghost use Rattle.c_handles.specs.Cells.{CellActs, HandleImaged, Raised, Received, Reopened, Saved};
ghost use Rattle.c_handles.specs.Cells.{Sent, SizedSame};
ghost use Rattle.c_handles.specs.Work.{CellWorks, WorksIf};

mod freed;
mod letters;
mod objects;

use crate::Marked;
use crate::held::Held;
use crate::seated::SeatedCell;
use c_values::{CLink, CWork, Fault};
use ids::Ref;
use model::{Answer, Event};
use node::Summary;
use std::alloc::Global;
use std::marker::{Model, Send};

/// What C holds of a cell. Null is an empty handle. Only C copies its bytes, so it can't be dropped
/// here.
#[repr(C)]
pub struct CellHandle {
    at: *mut u8,
    pub ghost held: { Option SeatedCell } by { coded_option Row.coded },
}

impl Model for CellHandle {
    ghost use Rattle.c_handles.specs.Holds.{holds};
    ghost use Rattle.c_handles.specs.contracts.seated.SeatedCell.{the_row as Row};

    ghost also_owns = { λ h. holds Row h.at h.held };
}

unsafe impl Send for CellHandle {}

impl CellHandle {
    // Exchanges what the handle holds.
    fn swap(&mut self, held: Held<SeatedCell>) -> Held<SeatedCell>
        ensures { (self.new.held ≡ held.value) × (result.value ≡ self.old.held) }
    {
        let Held { at } = held;
        let old = self.at;
        self.at = at as *mut u8;
        Held {
            at: old as *mut SeatedCell,
        }
    }

    // Takes out what the handle holds.
    #[inline(always)]
    fn take(&mut self, alloc: Global) -> Option<Box<SeatedCell>>
        ensures taken { unboxed result ≡ self.old.held }
        ensures empty { self.new.held ≡ None }
    {
        self.swap(Held::none()).into_box(alloc)
    }

    // Puts a cell into the handle; what it held is dropped.
    #[inline(always)]
    pub(crate) fn put(&mut self, alloc: Global, full: Box<SeatedCell>)
        ensures { self.new.held ≡ Some full.value }
    {
        let _none = self.swap(Held::of(full)).into_box(alloc);
    }

    /// Fails with `InUse` unless the handle is empty.
    pub(crate) fn test_empty(&mut self, alloc: Global) -> Result<(), Fault>
        ensures same { self.new.held ≡ self.old.held }
        ensures empty { result ≡ empty self.old.held }
    {
        match self.take(alloc) {
            Some(full) => {
                self.put(alloc, full);
                Err(Fault::InUse)
            }
            None => Ok(()),
        }
    }

    /// Frees a cell. Fails with `NoHandle` if the handle is empty.
    pub fn free(&mut self, alloc: Global) -> Result<(), Fault>
        ensures { Freed self.old.held self.new.held result }
    {
        match self.take(alloc) {
            Some(_full) => Ok(()),
            None => Err(Fault::NoHandle),
        }
    }

    /// Gives the node an event of its own; see [`SeatedCell::act`].
    #[inline(always)]
    pub fn act(&mut self, alloc: Global, event: Event) -> Result<Answer, Fault>
        requires { is_own event ≡ true }
        ensures { Through (CellActs event.entry) self.old.held self.new.held result }
    {
        let mut cell = self.take(alloc).ok_or(Fault::NoHandle)?;
        let answered = cell.act(event);
        self.put(alloc, cell);
        answered
    }

    /// Does the collector's share of a turn; see [`SeatedCell::work`].
    pub fn work(
        &mut self,
        alloc: Global,
        scans: u32,
        slots: u32,
        work: &mut CWork,
    ) -> Result<(), Fault>
        ensures { WorksIf (CellWorks scans slots) self.old.held self.new.held work.old work.new
            result }
    {
        let mut cell = self.take(alloc).ok_or(Fault::NoHandle)?;
        let worked = cell.work(scans, slots, work);
        self.put(alloc, cell);
        worked
    }

    /// Receives from another node; see [`SeatedCell::receive`].
    pub fn receive(&mut self, alloc: Global, from: u8) -> Result<Answer, Fault>
        ensures { Through (Received from) self.old.held self.new.held result }
    {
        let mut cell = self.take(alloc).ok_or(Fault::NoHandle)?;
        let done = cell.receive(from);
        self.put(alloc, cell);
        done
    }

    /// Sends to another node; see [`SeatedCell::send`].
    pub fn send(&mut self, alloc: Global, to: u8) -> Result<bool, Fault>
        ensures { Through (Sent to) self.old.held self.new.held result }
    {
        let mut cell = self.take(alloc).ok_or(Fault::NoHandle)?;
        let done = cell.send(to);
        self.put(alloc, cell);
        done
    }

    /// The number of bytes of the node's image; see [`SeatedCell::image_size`].
    pub fn image_size(&mut self, alloc: Global) -> Result<usize, Fault>
        ensures { Through SizedSame self.old.held self.new.held result }
    {
        let cell = self.take(alloc).ok_or(Fault::NoHandle)?;
        let done = cell.image_size(alloc);
        self.put(alloc, cell);
        done
    }

    /// Writes the node's image; see [`SeatedCell::image`].
    pub fn image(&mut self, alloc: Global, buffer: &mut [u8], needed: &mut usize) -> Marked
        ensures { HandleImaged self.old.held self.new.held result buffer.old buffer.new needed.old
            needed.new }
    {
        let mut cell = self.take(alloc).ok_or(Fault::NoHandle)?;
        let mark = cell.image(alloc, buffer, needed);
        self.put(alloc, cell);
        mark
    }

    /// Saves the cell; see [`SeatedCell::save`].
    pub fn save(&mut self, alloc: Global, mark: u64) -> Result<(), Fault>
        ensures { Through (Saved mark) self.old.held self.new.held result }
    {
        let mut cell = self.take(alloc).ok_or(Fault::NoHandle)?;
        let done = cell.save(mark);
        self.put(alloc, cell);
        done
    }

    /// Goes back to the saved cell; see [`SeatedCell::reopen`].
    pub fn reopen(&mut self, alloc: Global) -> Result<(), Fault>
        ensures { Through Reopened self.old.held self.new.held result }
    {
        let mut cell = self.take(alloc).ok_or(Fault::NoHandle)?;
        let done = cell.reopen();
        self.put(alloc, cell);
        done
    }

    /// Shows the last ended cycle to the watches; see [`SeatedCell::raise`].
    pub fn raise(&mut self, alloc: Global) -> Result<u64, Fault>
        ensures { Through Raised self.old.held self.new.held result }
    {
        let mut cell = self.take(alloc).ok_or(Fault::NoHandle)?;
        let done = cell.raise();
        self.put(alloc, cell);
        done
    }

    /// Whether an event happened since the last save or reopening.
    pub fn is_unsaved(&mut self, alloc: Global) -> Result<bool, Fault>
        ensures same { self.new.held ≡ self.old.held }
        ensures value { result ≡ read (λ c. Ok c.cell.unsaved) self.old.held }
    {
        let cell = self.take(alloc).ok_or(Fault::NoHandle)?;
        let found = cell.is_unsaved();
        self.put(alloc, cell);
        Ok(found)
    }

    /// The node in numbers.
    pub fn state(&mut self, alloc: Global) -> Result<Summary, Fault>
        ensures same { self.new.held ≡ self.old.held }
        ensures value { result ≡ read (λ c. Ok (summary_of c.cell.node.core.local)) self.old.held }
    {
        let cell = self.take(alloc).ok_or(Fault::NoHandle)?;
        let found = cell.state();
        self.put(alloc, cell);
        Ok(found)
    }

    /// The reference in a register; see [`SeatedCell::register`].
    pub fn register(&mut self, alloc: Global, register: u16) -> Result<Ref, Fault>
        ensures same { self.new.held ≡ self.old.held }
        ensures value { result
            ≡ read (λ c. register_of c.cell.node.core.local register) self.old.held }
    {
        let cell = self.take(alloc).ok_or(Fault::NoHandle)?;
        let found = cell.register(register);
        self.put(alloc, cell);
        found
    }

    /// Writes bytes of an object; see [`SeatedCell::bytes`].
    pub fn bytes(
        &mut self,
        alloc: Global,
        object: u16,
        offset: u32,
        count: u32,
        buffer: &mut [u8],
        needed: &mut usize,
    ) -> Result<(), Fault>
        ensures same { self.new.held ≡ self.old.held }
        ensures wrote { WroteIf
            (read (λ c. object_bytes c.cell.node.core.local object offset count) self.old.held)
            result buffer.old buffer.new needed.old needed.new }
    {
        let cell = self.take(alloc).ok_or(Fault::NoHandle)?;
        let wrote = cell.bytes(object, offset, count, buffer, needed);
        self.put(alloc, cell);
        wrote
    }

    /// How many bytes an object has; see [`SeatedCell::bytes_len`].
    pub fn bytes_len(&mut self, alloc: Global, object: u16) -> Result<u32, Fault>
        ensures same { self.new.held ≡ self.old.held }
        ensures value { result
            ≡ read (λ c. object_len c.cell.node.core.local object) self.old.held }
    {
        let cell = self.take(alloc).ok_or(Fault::NoHandle)?;
        let len = cell.bytes_len(object);
        self.put(alloc, cell);
        len
    }

    /// The links between the node and another one; see [`SeatedCell::link`].
    pub fn link(&mut self, alloc: Global, peer: u8) -> Result<CLink, Fault>
        ensures same { self.new.held ≡ self.old.held }
        ensures value { result ≡ read (λ c. link_of c.cell.node.core peer) self.old.held }
    {
        let cell = self.take(alloc).ok_or(Fault::NoHandle)?;
        let found = cell.link(peer);
        self.put(alloc, cell);
        found
    }
}
