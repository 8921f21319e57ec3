//! The events of a node.
ghost use Rattle.model.specs.declared.age.Scope.TheVariants as scope;
ghost use Rattle.std.specs.Prelude.{◌≡◌, false};
ghost use Rattle.model.specs.Steps.{frees};
ghost use Rattle.model.specs.declared.event.Event.TheVariants as event;
ghost use Rattle.c_values.specs.Fields.{reference_of};
ghost use Rattle.c_handles.specs.Work.{NodeWorks, WorksIf};
ghost use Rattle.markring_c.specs.Calls.{Finishes, NodeCalled};

use c_handles::NodeHandle;
use c_values::{CAnswer, CRef, CWork, answered, status};
use model::{Event, Scope};
use std::alloc::Global;

// Gives the node an event that frees nothing. `Next` of a node that keeps a log isn't inlined, so
// that the events and answers of other calls need not go through memory.
#[inline(always)]
pub(crate) fn act(alloc: Global, node: &mut NodeHandle, event: Event, answer: &mut CAnswer) -> i32
    requires { frees event ≡ false }
    ensures { NodeCalled event.entry node.old.held node.new.held result answer.old answer.new }
{
    if let Some(from) = node.noted_turn(alloc, &event) {
        drop(event);
        return next_noting(alloc, node, from, answer);
    }
    answered(node.act_plain(alloc, event), answer)
}

// Gives the node any event.
#[inline(never)]
pub(crate) fn act_any(
    alloc: Global,
    node: &mut NodeHandle,
    event: Event,
    answer: &mut CAnswer,
) -> i32
    ensures { NodeCalled event.entry node.old.held node.new.held result answer.old answer.new }
{
    answered(node.act(alloc, event), answer)
}

#[inline(never)]
fn next_noting(alloc: Global, node: &mut NodeHandle, from: u8, answer: &mut CAnswer) -> i32
    ensures { NodeCalled (event.Next from) node.old.held node.new.held result answer.old
        answer.new }
{
    answered(node.act(alloc, Event::Next { from }), answer)
}

/// Makes a new object with this many empty places, and puts its reference into the register.
#[unsafe(no_mangle)]
pub extern "C" fn markring_node_alloc(
    alloc: Global,
    node: &mut NodeHandle,
    register: u16,
    places: u8,
    answer: &mut CAnswer,
) -> i32
    ensures { NodeCalled (event.Alloc register places) node.old.held node.new.held result answer.old
        answer.new }
{
    act(alloc, node, Event::Alloc { register, places }, answer)
}

/// Copies the reference in the source register into the register.
#[unsafe(no_mangle)]
pub extern "C" fn markring_node_copy(
    alloc: Global,
    node: &mut NodeHandle,
    register: u16,
    source: u16,
    answer: &mut CAnswer,
) -> i32
    ensures { NodeCalled (event.Copy register source) node.old.held node.new.held result answer.old
        answer.new }
{
    act(alloc, node, Event::Copy { register, source }, answer)
}

/// Empties the register.
#[unsafe(no_mangle)]
pub extern "C" fn markring_node_drop(
    alloc: Global,
    node: &mut NodeHandle,
    register: u16,
    answer: &mut CAnswer,
) -> i32
    ensures { NodeCalled (event.Drop register) node.old.held node.new.held result answer.old
        answer.new }
{
    act(alloc, node, Event::Drop { register }, answer)
}

/// Copies the content of a place of the object into the register.
#[unsafe(no_mangle)]
pub extern "C" fn markring_node_load(
    alloc: Global,
    node: &mut NodeHandle,
    register: u16,
    object: u16,
    place: u8,
    answer: &mut CAnswer,
) -> i32
    ensures { NodeCalled (event.Load register object place) node.old.held node.new.held result
        answer.old answer.new }
{
    act(
        alloc,
        node,
        Event::Load {
            register,
            object,
            place,
        },
        answer,
    )
}

/// Stores the register's reference in a place of the object.
#[unsafe(no_mangle)]
pub extern "C" fn markring_node_store(
    alloc: Global,
    node: &mut NodeHandle,
    object: u16,
    place: u8,
    register: u16,
    answer: &mut CAnswer,
) -> i32
    ensures { NodeCalled (event.Store object place register) node.old.held node.new.held result
        answer.old answer.new }
{
    act(
        alloc,
        node,
        Event::Store {
            object,
            place,
            register,
        },
        answer,
    )
}

/// Empties a place of the object.
#[unsafe(no_mangle)]
pub extern "C" fn markring_node_clear(
    alloc: Global,
    node: &mut NodeHandle,
    object: u16,
    place: u8,
    answer: &mut CAnswer,
) -> i32
    ensures { NodeCalled (event.Clear object place) node.old.held node.new.held result answer.old
        answer.new }
{
    act(alloc, node, Event::Clear { object, place }, answer)
}

/// Reads the word of the object.
#[unsafe(no_mangle)]
pub extern "C" fn markring_node_word(
    alloc: Global,
    node: &mut NodeHandle,
    object: u16,
    answer: &mut CAnswer,
) -> i32
    ensures { NodeCalled (event.Word object) node.old.held node.new.held result answer.old
        answer.new }
{
    act(alloc, node, Event::Word { object }, answer)
}

/// Writes the word of the object.
#[unsafe(no_mangle)]
pub extern "C" fn markring_node_set_word(
    alloc: Global,
    node: &mut NodeHandle,
    object: u16,
    word: u64,
    answer: &mut CAnswer,
) -> i32
    ensures { NodeCalled (event.SetWord object word) node.old.held node.new.held result answer.old
        answer.new }
{
    act(alloc, node, Event::SetWord { object, word }, answer)
}

/// Replaces the bytes of the object.
#[unsafe(no_mangle)]
pub extern "C" fn markring_node_set_bytes(
    alloc: Global,
    node: &mut NodeHandle,
    object: u16,
    bytes: &[u8],
    answer: &mut CAnswer,
) -> i32
    ensures { NodeCalled (event.SetBytes object bytes.entry) node.old.held node.new.held result
        answer.old answer.new }
{
    act(alloc, node, Event::SetBytes { object, bytes }, answer)
}

/// Overwrites bytes of the object, from this offset on.
#[unsafe(no_mangle)]
pub extern "C" fn markring_node_patch(
    alloc: Global,
    node: &mut NodeHandle,
    object: u16,
    offset: u32,
    bytes: &[u8],
    answer: &mut CAnswer,
) -> i32
    ensures { NodeCalled (event.Patch object offset bytes.entry) node.old.held node.new.held result
        answer.old answer.new }
{
    act(
        alloc,
        node,
        Event::Patch {
            object,
            offset,
            bytes,
        },
        answer,
    )
}

/// Sends a letter to another node.
#[unsafe(no_mangle)]
pub extern "C" fn markring_node_give(
    alloc: Global,
    node: &mut NodeHandle,
    to: u8,
    label: u32,
    register: u16,
    answer: &mut CAnswer,
) -> i32
    ensures { NodeCalled (event.Give to label register) node.old.held node.new.held result
        answer.old answer.new }
{
    act(
        alloc,
        node,
        Event::Give {
            to,
            label,
            register,
        },
        answer,
    )
}

/// Removes the oldest letter and puts its reference into the register.
#[unsafe(no_mangle)]
pub extern "C" fn markring_node_accept(
    alloc: Global,
    node: &mut NodeHandle,
    register: u16,
    answer: &mut CAnswer,
) -> i32
    ensures { NodeCalled (event.Accept register) node.old.held node.new.held result answer.old
        answer.new }
{
    act(alloc, node, Event::Accept { register }, answer)
}

/// Asks the owner of another node's object to store the register's reference there.
#[unsafe(no_mangle)]
pub extern "C" fn markring_node_put(
    alloc: Global,
    node: &mut NodeHandle,
    object: u16,
    place: u8,
    register: u16,
    answer: &mut CAnswer,
) -> i32
    ensures { NodeCalled (event.Put object place register) node.old.held node.new.held result
        answer.old answer.new }
{
    act(
        alloc,
        node,
        Event::Put {
            object,
            place,
            register,
        },
        answer,
    )
}

/// Asks the owner of another node's object for the content of a place.
#[unsafe(no_mangle)]
pub extern "C" fn markring_node_get(
    alloc: Global,
    node: &mut NodeHandle,
    object: u16,
    place: u8,
    label: u32,
    answer: &mut CAnswer,
) -> i32
    ensures { NodeCalled (event.Get object place label) node.old.held node.new.held result
        answer.old answer.new }
{
    act(
        alloc,
        node,
        Event::Get {
            object,
            place,
            label,
        },
        answer,
    )
}

/// Puts a reference that the program kept into the register, if its object is live and marked.
#[unsafe(no_mangle)]
pub extern "C" fn markring_node_resolve(
    alloc: Global,
    node: &mut NodeHandle,
    register: u16,
    reference: &CRef,
    answer: &mut CAnswer,
) -> i32
    ensures { NodeCalled (event.Resolve register (reference_of reference.now)) node.old.held
        node.new.held result answer.old answer.new }
{
    let reference = reference.reference();
    act(
        alloc,
        node,
        Event::Resolve {
            register,
            reference,
        },
        answer,
    )
}

/// Frees each private object that nothing needs any more.
#[unsafe(no_mangle)]
pub extern "C" fn markring_node_reclaim(
    alloc: Global,
    node: &mut NodeHandle,
    answer: &mut CAnswer,
) -> i32
    ensures { NodeCalled (event.Reclaim scope.All) node.old.held node.new.held result
        answer.old answer.new }
{
    act_any(alloc, node, Event::Reclaim { scope: Scope::All }, answer)
}

/// Frees those of them that were made since the last reclaim.
#[unsafe(no_mangle)]
pub extern "C" fn markring_node_reclaim_young(
    alloc: Global,
    node: &mut NodeHandle,
    answer: &mut CAnswer,
) -> i32
    ensures { NodeCalled (event.Reclaim scope.Young) node.old.held node.new.held result
        answer.old answer.new }
{
    act_any(
        alloc,
        node,
        Event::Reclaim {
            scope: Scope::Young,
        },
        answer,
    )
}

/// Begins the next cycle.
#[unsafe(no_mangle)]
pub extern "C" fn markring_node_begin(
    alloc: Global,
    node: &mut NodeHandle,
    answer: &mut CAnswer,
) -> i32
    ensures { NodeCalled event.Begin node.old.held node.new.held result answer.old answer.new }
{
    act(alloc, node, Event::Begin, answer)
}

/// Shades the references in the places of a grey object.
#[unsafe(no_mangle)]
pub extern "C" fn markring_node_scan(
    alloc: Global,
    node: &mut NodeHandle,
    answer: &mut CAnswer,
) -> i32
    ensures { NodeCalled event.Scan node.old.held node.new.held result answer.old answer.new }
{
    act(alloc, node, Event::Scan, answer)
}

/// Passes the token on, or decides whether marking has ended.
#[unsafe(no_mangle)]
pub extern "C" fn markring_node_pass(
    alloc: Global,
    node: &mut NodeHandle,
    answer: &mut CAnswer,
) -> i32
    ensures { NodeCalled event.Pass node.old.held node.new.held result answer.old answer.new }
{
    act(alloc, node, Event::Pass, answer)
}

/// Frees the unmarked objects in the next slots, at most this many.
#[unsafe(no_mangle)]
pub extern "C" fn markring_node_sweep(
    alloc: Global,
    node: &mut NodeHandle,
    count: u32,
    answer: &mut CAnswer,
) -> i32
    ensures { NodeCalled (event.Sweep count) node.old.held node.new.held result answer.old
        answer.new }
{
    act_any(alloc, node, Event::Sweep { count }, answer)
}

/// Receives the message that waits from another node.
#[unsafe(no_mangle)]
pub extern "C" fn markring_node_next(
    alloc: Global,
    node: &mut NodeHandle,
    from: u8,
    answer: &mut CAnswer,
) -> i32
    ensures { NodeCalled (event.Next from) node.old.held node.new.held result answer.old
        answer.new }
{
    act(alloc, node, Event::Next { from }, answer)
}

/// Does the collector's share of a turn, and writes what it did, also if a fault ended it.
#[unsafe(no_mangle)]
pub extern "C" fn markring_node_work(
    alloc: Global,
    node: &mut NodeHandle,
    scans: u32,
    slots: u32,
    work: &mut CWork,
) -> i32
    ensures { Finishes (WorksIf (NodeWorks scans slots) node.old.held node.new.held work.old
        work.new) result }
{
    status(node.work(alloc, scans, slots, work))
}
