//! Reads of objects by their slots: a node has all of its objects in the slots below [`slots_of`],
//! also those that no register names. Nothing here changes the node or takes memory.
ghost use Rattle.std.specs.Prelude.{◌≡◌, Ok, Err, IfOk, IfErr};
ghost use Rattle.c_handles.specs.Objects.{bytes_at, object_fields, object_of, place_at, range_of};
ghost use Rattle.c_handles.specs.Objects.{slots_of};
ghost use Rattle.c_values.specs.Bytes.{WroteIf};

use c_values::{CObject, CRef, Fault, age_number, put};
use heap::{Object, Slot};
use ids::{Generation, Ref, Refusal};
use node::Core;

// An object in this slot, with this generation.
fn fields_of(core: &Core, slot: u32, generation: Generation, object: &Object) -> CObject
    ensures { result ≡ object_fields core.now.local slot generation object.now }
{
    CObject {
        reference: CRef {
            node: core.state().own,
            slot,
            generation,
        },
        word: object.word(),
        bytes: object.bytes().len() as u32,
        places: object.contents().len() as u8,
        marked: u8::from(object.marked_by() == core.phases().cycle()),
        shared: u8::from(object.is_shared()),
        age: age_number(object.age()),
    }
}

/// The object in a slot. Fails with `Nothing` if it has none.
pub(crate) fn object_of(core: &Core, slot: u32) -> Result<CObject, Fault>
    ensures { result ≡ object_of core.now.local slot }
{
    match core.heap().slot(slot) {
        Slot::Occupied(generation, object) => Ok(fields_of(core, slot, generation, object)),
        _ => Err(Fault::Nothing),
    }
}

/// What a place of the object in a slot holds, a reference or nothing. Fails with `Nothing` if
/// there is no object, and with `NoField` if it has no such place.
pub(crate) fn place_at(core: &Core, slot: u32, place: u8) -> Result<Option<Ref>, Fault>
    ensures { result ≡ place_at core.now.local slot place }
{
    match core.heap().slot(slot) {
        Slot::Occupied(_, object) => match object.contents().get(usize::from(place)) {
            Some(content) => Ok(*content),
            None => Err(Fault::Refused(Refusal::NoField)),
        },
        _ => Err(Fault::Nothing),
    }
}

// A part of these bytes. Fails with `NoBytes` if they don't have all of it.
fn range_of(bytes: &[u8], offset: u32, count: u32) -> Result<&[u8], Fault>
    ensures value { IfOk result (λ b. range_of bytes.now offset count ≡ Ok b.now) }
    ensures refused { IfErr result (λ e. range_of bytes.now offset count ≡ Err e) }
{
    let (start, end) = (offset as usize, offset as usize + count as usize);
    if end > bytes.len() {
        return Err(Fault::Refused(Refusal::NoBytes));
    }
    Ok(&bytes[start..end])
}

/// Writes `count` bytes of the object in a slot, from `offset` on. Fails with `Nothing` if there is
/// no object, with `NoBytes` if it doesn't have all of these bytes, and with `ShortBuffer`.
pub(crate) fn bytes_at(
    core: &Core,
    slot: u32,
    offset: u32,
    count: u32,
    buffer: &mut [u8],
    needed: &mut usize,
) -> Result<(), Fault>
    ensures { WroteIf (bytes_at core.now.local slot offset count) result buffer.old buffer.new
        needed.old needed.new }
{
    match core.heap().slot(slot) {
        Slot::Occupied(_, object) => {
            let bytes = range_of(object.bytes(), offset, count)?;
            put(bytes, buffer, needed)
        }
        _ => Err(Fault::Nothing),
    }
}

/// How many slots were ever used.
pub(crate) fn slots_of(core: &Core) -> u32
    ensures { result ≡ slots_of core.now.local }
{
    core.heap().slots()
}
