//! The events of a cell's node.
ghost use Rattle.model.specs.declared.age.Scope.TheVariants as scope;
ghost use Rattle.model.specs.declared.event.Event.TheVariants as event;
ghost use Rattle.c_values.specs.Fields.{reference_of};
ghost use Rattle.c_handles.specs.Work.{CellWorks, WorksIf};
ghost use Rattle.markring_c.specs.Calls.{CellCalled, Finishes};

use c_handles::CellHandle;
use c_values::{CAnswer, CRef, CWork, answered, status};
use model::{Event, Scope};
use std::alloc::Global;

/// Makes a new object with this many empty places, and puts its reference into the register.
#[unsafe(no_mangle)]
pub extern "C" fn markring_cell_alloc(
    alloc: Global,
    cell: &mut CellHandle,
    register: u16,
    places: u8,
    answer: &mut CAnswer,
) -> i32
    ensures { CellCalled (event.Alloc register places) cell.old.held cell.new.held result answer.old
        answer.new }
{
    answered(cell.act(alloc, Event::Alloc { register, places }), answer)
}

/// Copies the reference in the source register into the register.
#[unsafe(no_mangle)]
pub extern "C" fn markring_cell_copy(
    alloc: Global,
    cell: &mut CellHandle,
    register: u16,
    source: u16,
    answer: &mut CAnswer,
) -> i32
    ensures { CellCalled (event.Copy register source) cell.old.held cell.new.held result answer.old
        answer.new }
{
    answered(cell.act(alloc, Event::Copy { register, source }), answer)
}

/// Empties the register.
#[unsafe(no_mangle)]
pub extern "C" fn markring_cell_drop(
    alloc: Global,
    cell: &mut CellHandle,
    register: u16,
    answer: &mut CAnswer,
) -> i32
    ensures { CellCalled (event.Drop register) cell.old.held cell.new.held result answer.old
        answer.new }
{
    answered(cell.act(alloc, Event::Drop { register }), answer)
}

/// Copies the content of a place of the object into the register.
#[unsafe(no_mangle)]
pub extern "C" fn markring_cell_load(
    alloc: Global,
    cell: &mut CellHandle,
    register: u16,
    object: u16,
    place: u8,
    answer: &mut CAnswer,
) -> i32
    ensures { CellCalled (event.Load register object place) cell.old.held cell.new.held result
        answer.old answer.new }
{
    answered(
        cell.act(
            alloc,
            Event::Load {
                register,
                object,
                place,
            },
        ),
        answer,
    )
}

/// Stores the register's reference in a place of the object.
#[unsafe(no_mangle)]
pub extern "C" fn markring_cell_store(
    alloc: Global,
    cell: &mut CellHandle,
    object: u16,
    place: u8,
    register: u16,
    answer: &mut CAnswer,
) -> i32
    ensures { CellCalled (event.Store object place register) cell.old.held cell.new.held result
        answer.old answer.new }
{
    answered(
        cell.act(
            alloc,
            Event::Store {
                object,
                place,
                register,
            },
        ),
        answer,
    )
}

/// Empties a place of the object.
#[unsafe(no_mangle)]
pub extern "C" fn markring_cell_clear(
    alloc: Global,
    cell: &mut CellHandle,
    object: u16,
    place: u8,
    answer: &mut CAnswer,
) -> i32
    ensures { CellCalled (event.Clear object place) cell.old.held cell.new.held result answer.old
        answer.new }
{
    answered(cell.act(alloc, Event::Clear { object, place }), answer)
}

/// Reads the word of the object.
#[unsafe(no_mangle)]
pub extern "C" fn markring_cell_word(
    alloc: Global,
    cell: &mut CellHandle,
    object: u16,
    answer: &mut CAnswer,
) -> i32
    ensures { CellCalled (event.Word object) cell.old.held cell.new.held result answer.old
        answer.new }
{
    answered(cell.act(alloc, Event::Word { object }), answer)
}

/// Writes the word of the object.
#[unsafe(no_mangle)]
pub extern "C" fn markring_cell_set_word(
    alloc: Global,
    cell: &mut CellHandle,
    object: u16,
    word: u64,
    answer: &mut CAnswer,
) -> i32
    ensures { CellCalled (event.SetWord object word) cell.old.held cell.new.held result answer.old
        answer.new }
{
    answered(cell.act(alloc, Event::SetWord { object, word }), answer)
}

/// Replaces the bytes of the object.
#[unsafe(no_mangle)]
pub extern "C" fn markring_cell_set_bytes(
    alloc: Global,
    cell: &mut CellHandle,
    object: u16,
    bytes: &[u8],
    answer: &mut CAnswer,
) -> i32
    ensures { CellCalled (event.SetBytes object bytes.entry) cell.old.held cell.new.held result
        answer.old answer.new }
{
    answered(cell.act(alloc, Event::SetBytes { object, bytes }), answer)
}

/// Overwrites bytes of the object, from this offset on.
#[unsafe(no_mangle)]
pub extern "C" fn markring_cell_patch(
    alloc: Global,
    cell: &mut CellHandle,
    object: u16,
    offset: u32,
    bytes: &[u8],
    answer: &mut CAnswer,
) -> i32
    ensures { CellCalled (event.Patch object offset bytes.entry) cell.old.held cell.new.held result
        answer.old answer.new }
{
    answered(
        cell.act(
            alloc,
            Event::Patch {
                object,
                offset,
                bytes,
            },
        ),
        answer,
    )
}

/// Sends a letter to another node.
#[unsafe(no_mangle)]
pub extern "C" fn markring_cell_give(
    alloc: Global,
    cell: &mut CellHandle,
    to: u8,
    label: u32,
    register: u16,
    answer: &mut CAnswer,
) -> i32
    ensures { CellCalled (event.Give to label register) cell.old.held cell.new.held result
        answer.old answer.new }
{
    answered(
        cell.act(
            alloc,
            Event::Give {
                to,
                label,
                register,
            },
        ),
        answer,
    )
}

/// Removes the oldest letter and puts its reference into the register.
#[unsafe(no_mangle)]
pub extern "C" fn markring_cell_accept(
    alloc: Global,
    cell: &mut CellHandle,
    register: u16,
    answer: &mut CAnswer,
) -> i32
    ensures { CellCalled (event.Accept register) cell.old.held cell.new.held result answer.old
        answer.new }
{
    answered(cell.act(alloc, Event::Accept { register }), answer)
}

/// Asks the owner of another node's object to store the register's reference there.
#[unsafe(no_mangle)]
pub extern "C" fn markring_cell_put(
    alloc: Global,
    cell: &mut CellHandle,
    object: u16,
    place: u8,
    register: u16,
    answer: &mut CAnswer,
) -> i32
    ensures { CellCalled (event.Put object place register) cell.old.held cell.new.held result
        answer.old answer.new }
{
    answered(
        cell.act(
            alloc,
            Event::Put {
                object,
                place,
                register,
            },
        ),
        answer,
    )
}

/// Asks the owner of another node's object for the content of a place.
#[unsafe(no_mangle)]
pub extern "C" fn markring_cell_get(
    alloc: Global,
    cell: &mut CellHandle,
    object: u16,
    place: u8,
    label: u32,
    answer: &mut CAnswer,
) -> i32
    ensures { CellCalled (event.Get object place label) cell.old.held cell.new.held result
        answer.old answer.new }
{
    answered(
        cell.act(
            alloc,
            Event::Get {
                object,
                place,
                label,
            },
        ),
        answer,
    )
}

/// Puts a reference that the program kept into the register, if its object is live and marked.
#[unsafe(no_mangle)]
pub extern "C" fn markring_cell_resolve(
    alloc: Global,
    cell: &mut CellHandle,
    register: u16,
    reference: &CRef,
    answer: &mut CAnswer,
) -> i32
    ensures { CellCalled (event.Resolve register (reference_of reference.now)) cell.old.held
        cell.new.held result answer.old answer.new }
{
    let reference = reference.reference();
    answered(
        cell.act(
            alloc,
            Event::Resolve {
                register,
                reference,
            },
        ),
        answer,
    )
}

/// Frees each private object that nothing needs any more.
#[unsafe(no_mangle)]
pub extern "C" fn markring_cell_reclaim(
    alloc: Global,
    cell: &mut CellHandle,
    answer: &mut CAnswer,
) -> i32
    ensures { CellCalled (event.Reclaim scope.All) cell.old.held cell.new.held result
        answer.old answer.new }
{
    answered(
        cell.act(alloc, Event::Reclaim { scope: Scope::All }),
        answer,
    )
}

/// Frees those of them that were made since the last reclaim.
#[unsafe(no_mangle)]
pub extern "C" fn markring_cell_reclaim_young(
    alloc: Global,
    cell: &mut CellHandle,
    answer: &mut CAnswer,
) -> i32
    ensures { CellCalled (event.Reclaim scope.Young) cell.old.held cell.new.held result
        answer.old answer.new }
{
    answered(
        cell.act(
            alloc,
            Event::Reclaim {
                scope: Scope::Young,
            },
        ),
        answer,
    )
}

/// Begins the next cycle.
#[unsafe(no_mangle)]
pub extern "C" fn markring_cell_begin(
    alloc: Global,
    cell: &mut CellHandle,
    answer: &mut CAnswer,
) -> i32
    ensures { CellCalled event.Begin cell.old.held cell.new.held result answer.old answer.new }
{
    answered(cell.act(alloc, Event::Begin), answer)
}

/// Shades the references in the places of a grey object.
#[unsafe(no_mangle)]
pub extern "C" fn markring_cell_scan(
    alloc: Global,
    cell: &mut CellHandle,
    answer: &mut CAnswer,
) -> i32
    ensures { CellCalled event.Scan cell.old.held cell.new.held result answer.old answer.new }
{
    answered(cell.act(alloc, Event::Scan), answer)
}

/// Passes the token on, or decides whether marking has ended.
#[unsafe(no_mangle)]
pub extern "C" fn markring_cell_pass(
    alloc: Global,
    cell: &mut CellHandle,
    answer: &mut CAnswer,
) -> i32
    ensures { CellCalled event.Pass cell.old.held cell.new.held result answer.old answer.new }
{
    answered(cell.act(alloc, Event::Pass), answer)
}

/// Frees the unmarked objects in the next slots, at most this many.
#[unsafe(no_mangle)]
pub extern "C" fn markring_cell_sweep(
    alloc: Global,
    cell: &mut CellHandle,
    count: u32,
    answer: &mut CAnswer,
) -> i32
    ensures { CellCalled (event.Sweep count) cell.old.held cell.new.held result answer.old
        answer.new }
{
    answered(cell.act(alloc, Event::Sweep { count }), answer)
}

/// Receives the message that waits from another node.
#[unsafe(no_mangle)]
pub extern "C" fn markring_cell_next(
    alloc: Global,
    cell: &mut CellHandle,
    from: u8,
    answer: &mut CAnswer,
) -> i32
    ensures { CellCalled (event.Next from) cell.old.held cell.new.held result answer.old
        answer.new }
{
    answered(cell.act(alloc, Event::Next { from }), answer)
}

/// Does the collector's share of a turn, and writes what it did, also if a fault ended it.
#[unsafe(no_mangle)]
pub extern "C" fn markring_cell_work(
    alloc: Global,
    cell: &mut CellHandle,
    scans: u32,
    slots: u32,
    work: &mut CWork,
) -> i32
    ensures { Finishes (WorksIf (CellWorks scans slots) cell.old.held cell.new.held work.old
        work.new) result }
{
    status(cell.work(alloc, scans, slots, work))
}
