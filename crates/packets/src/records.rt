//! What follows the head of a request and of an answer: events, results, and records of objects.
ghost use Rattle.std.specs.Prelude.{◌≡◌, ◌+◌, ◌≤◌, [], length};
ghost use Rattle.codec.specs.Pieces.{Adds};
ghost use Rattle.codec.specs.Readers.{Reads};
ghost use Rattle.codec.specs.declared.piece.TheConstants.{GREATEST_PIECE};
ghost use Rattle.packets.specs.Formats.{answer_format, event_format, freed_format, object_format, reference_format, result_format};
ghost use Rattle.packets.specs.Laying.{Begins, Laid};

use crate::laying::lay;
use c_values::{CAnswer, CEvent, CFreed, CObject, CRef};
use codec::{Piece, Reader};

#[tactic(auto, unfolding(crate::specs::Formats::event_format), using(crate::proofs::Joins::both_read, crate::proofs::Joins::made))]
fn take_event(reader: &mut Reader) -> CEvent
    ensures { Reads event_format reader.old reader.new result }
{
    let kind = reader.u8();
    let node = reader.u8();
    let place = reader.u8();
    let register = reader.u16();
    let source = reader.u16();
    let object = reader.u16();
    let label = reader.u32();
    let count = reader.u32();
    let word = reader.u64();
    CEvent {
        kind,
        node,
        place,
        register,
        source,
        object,
        label,
        count,
        word,
    }
}

/// The event that these bytes begin with.
pub fn event(bytes: &[u8]) -> Option<CEvent>
    ensures { Begins event_format bytes.now result }
{
    let mut reader = Reader::new(bytes);
    let event = take_event(&mut reader);
    reader.is_open().then_some(event)
}

#[tactic(auto, unfolding(crate::specs::Formats::reference_format), using(crate::proofs::Joins::both_read, crate::proofs::Joins::made))]
fn take_reference(reader: &mut Reader) -> CRef
    ensures { Reads reference_format reader.old reader.new result }
{
    let node = reader.u8();
    let slot = reader.u32();
    let generation = reader.u64();
    CRef {
        node,
        slot,
        generation,
    }
}

/// The reference that these bytes begin with.
pub fn reference(bytes: &[u8]) -> Option<CRef>
    ensures { Begins reference_format bytes.now result }
{
    let mut reader = Reader::new(bytes);
    let reference = take_reference(&mut reader);
    reader.is_open().then_some(reference)
}

#[tactic(auto, unfolding(crate::specs::Formats::reference_format), using(crate::proofs::Joins::gained))]
fn add_reference(piece: &mut Piece, reference: CRef)
    requires { length piece.old + 13 ≤ GREATEST_PIECE }
    ensures { Adds reference_format 13 piece.old piece.new reference }
{
    piece.u8(reference.node);
    piece.u32(reference.slot);
    piece.u64(reference.generation);
}

/// Puts a reference at the front of these bytes, and returns how many it has. Without room for
/// it, nothing changes, and the result is 0.
pub fn put_reference(to: &mut [u8], reference: &CRef) -> usize
    ensures { Laid (reference_format.spell reference.now) to.old to.new result }
{
    let mut piece = Piece::new();
    add_reference(&mut piece, *reference);
    lay(to, &piece)
}

#[tactic(auto, unfolding(crate::specs::Formats::answer_format), using(crate::proofs::Joins::gained))]
fn add_answer(piece: &mut Piece, answer: &CAnswer)
    requires { length piece.old + 41 ≤ GREATEST_PIECE }
    ensures { Adds answer_format 41 piece.old piece.new answer.now }
{
    piece.u8(answer.kind);
    piece.u8(answer.node);
    piece.u8(answer.colour);
    piece.u8(answer.done);
    piece.u32(answer.label);
    piece.u32(answer.count);
    piece.u64(answer.number);
    piece.i64(answer.sum);
    add_reference(piece, answer.reference);
}

#[tactic(auto, unfolding(crate::specs::Formats::result_format), using(crate::proofs::Joins::gained))]
fn add_result(piece: &mut Piece, status: u16, answer: &CAnswer)
    requires { length piece.old + 43 ≤ GREATEST_PIECE }
    ensures { Adds result_format 43 piece.old piece.new (status, answer.now) }
{
    piece.u16(status);
    add_answer(piece, answer);
}

/// Puts the result of an event, its status and its answer, at the front of these bytes, and returns
/// how many it has. Without room for it, nothing changes, and the result is 0.
pub fn put_result(to: &mut [u8], status: u16, answer: &CAnswer) -> usize
    ensures { Laid (result_format.spell (status, answer.now)) to.old to.new result }
{
    let mut piece = Piece::new();
    add_result(&mut piece, status, answer);
    lay(to, &piece)
}

#[tactic(auto, unfolding(crate::specs::Formats::freed_format), using(crate::proofs::Joins::gained))]
fn add_freed(piece: &mut Piece, freed: &CFreed)
    requires { length piece.old + 21 ≤ GREATEST_PIECE }
    ensures { Adds freed_format 21 piece.old piece.new freed.now }
{
    add_reference(piece, freed.reference);
    piece.u64(freed.word);
}

/// Puts an object that was freed at the front of these bytes, and returns how many it has. Without
/// room for it, nothing changes, and the result is 0.
pub fn put_freed(to: &mut [u8], freed: &CFreed) -> usize
    ensures { Laid (freed_format.spell freed.now) to.old to.new result }
{
    let mut piece = Piece::new();
    add_freed(&mut piece, freed);
    lay(to, &piece)
}

#[tactic(auto, unfolding(crate::specs::Formats::object_format), using(crate::proofs::Joins::gained))]
fn add_object(piece: &mut Piece, object: &CObject)
    requires { length piece.old + 29 ≤ GREATEST_PIECE }
    ensures { Adds object_format 29 piece.old piece.new object.now }
{
    add_reference(piece, object.reference);
    piece.u64(object.word);
    piece.u32(object.bytes);
    piece.u8(object.places);
    piece.u8(object.marked);
    piece.u8(object.shared);
    piece.u8(object.age);
}

/// Puts an object at the front of these bytes, and returns how many it has. Without room for
/// it, nothing changes, and the result is 0.
pub fn put_object(to: &mut [u8], object: &CObject) -> usize
    ensures { Laid (object_format.spell object.now) to.old to.new result }
{
    let mut piece = Piece::new();
    add_object(&mut piece, object);
    lay(to, &piece)
}
