//! Writes events as bytes. Each event has one spelling. It is put together in a piece, which
//! allocates nothing; the bytes that an event brings follow the piece as they are. Only a letter
//! with references and bytes that was received doesn't fit into a piece.
ghost use Rattle.std.specs.Prelude.{◌≡◌, ◌≤◌, ◌<◌, ◌+◌, ◌^◌, ◌∷◌, IfErr, IfOk, IfSome, IsSome, IsTrue, ◌↔◌, false, length};
ghost use Rattle.ids.specs.declared.refusal.Refusal.TheVariants.{Memory};
ghost use Rattle.codec.specs.Formats.{Fits, byte, number2, number4, ◌&◌};
ghost use Rattle.codec.specs.Writing.{Puts};
ghost use Rattle.codec.specs.Pieces.{Adds, Gains};
ghost use Rattle.codec.specs.declared.piece.TheConstants.{GREATEST_PIECE};
ghost use Rattle.frames.specs.Formats.{head};
ghost use Rattle.event_bytes.specs.Entries.{asked, entry, fetched, given, loaded, placed, stored};
ghost use Rattle.event_bytes.specs.Entries.{resolved, two, worded};
ghost use Rattle.event_bytes.specs.Events.{acknowledged_of, count_of, received_of, start_of};
ghost use Rattle.event_bytes.specs.Events.{AddsStart, entry_of, is_letter, tail_of};
ghost use Rattle.msg.specs.Limits.{is_post};

use crate::tags::{
    ACCEPT, ACK, ALLOC, BEGIN, CLEAR, COPY, DATA, DROP, FETCH, GET, GIVE, LOAD, NEXT, PASS, PATCH,
    POST, PUT, RECLAIM, RECLAIM_YOUNG, RESOLVE, SCAN, SET_BYTES, SET_WORD, STORE, SWEEP, WORD,
};
use codec::{Piece, Writer};
use frames::writing::{add_body, add_reference, put_body};
use ids::{Ref, Refusal};
use model::{Event, Scope};
use msg::{Ack, Body, Data};
use std::alloc::Global;

// ---- a tag and numbers

#[tactic(auto, using(crate::proofs::Joins::gained))]
fn add_one(piece: &mut Piece, tag: u8, number: u16)
    requires { length piece.old + 48 ≤ GREATEST_PIECE }
    ensures { Gains piece.old piece.new (tag ∷ number2.spell number) 48 (number2.IsWide number) }
{
    piece.u8(tag);
    piece.u16(number);
}

#[tactic(auto, using(crate::proofs::Joins::gained))]
fn add_two(piece: &mut Piece, tag: u8, first: u16, second: u16)
    requires { length piece.old + 48 ≤ GREATEST_PIECE }
    ensures { Gains piece.old piece.new (tag ∷ two.spell (first, second)) 48
        (two.IsWide (first, second)) }
{
    piece.u8(tag);
    piece.u16(first);
    piece.u16(second);
}

#[tactic(auto, using(crate::proofs::Joins::gained))]
fn add_placed(piece: &mut Piece, tag: u8, first: u16, place: u8)
    requires { length piece.old + 48 ≤ GREATEST_PIECE }
    ensures { Gains piece.old piece.new (tag ∷ placed.spell (first, place)) 48
        (placed.IsWide (first, place)) }
{
    piece.u8(tag);
    piece.u16(first);
    piece.u8(place);
}

#[tactic(auto, using(crate::proofs::Joins::gained))]
fn add_loaded(piece: &mut Piece, tag: u8, register: u16, object: u16, place: u8)
    requires { length piece.old + 48 ≤ GREATEST_PIECE }
    ensures { Gains piece.old piece.new (tag ∷ loaded.spell (register, (object, place))) 48
        (loaded.IsWide (register, (object, place))) }
{
    piece.u8(tag);
    piece.u16(register);
    piece.u16(object);
    piece.u8(place);
}

#[tactic(auto, using(crate::proofs::Joins::gained))]
fn add_stored(piece: &mut Piece, tag: u8, object: u16, place: u8, register: u16)
    requires { length piece.old + 48 ≤ GREATEST_PIECE }
    ensures { Gains piece.old piece.new (tag ∷ stored.spell (object, (place, register))) 48
        (stored.IsWide (object, (place, register))) }
{
    piece.u8(tag);
    piece.u16(object);
    piece.u8(place);
    piece.u16(register);
}

#[tactic(auto, using(crate::proofs::Joins::gained))]
fn add_worded(piece: &mut Piece, tag: u8, object: u16, word: u64)
    requires { length piece.old + 48 ≤ GREATEST_PIECE }
    ensures { Gains piece.old piece.new (tag ∷ worded.spell (object, word)) 48
        (worded.IsWide (object, word)) }
{
    piece.u8(tag);
    piece.u16(object);
    piece.u64(word);
}

#[tactic(auto, using(crate::proofs::Joins::gained))]
fn add_given(piece: &mut Piece, tag: u8, to: u8, label: u32, register: u16)
    requires { length piece.old + 48 ≤ GREATEST_PIECE }
    ensures { Gains piece.old piece.new (tag ∷ given.spell (to, (label, register))) 48
        (given.IsWide (to, (label, register))) }
{
    piece.u8(tag);
    piece.u8(to);
    piece.u32(label);
    piece.u16(register);
}

#[tactic(auto, using(crate::proofs::Joins::gained))]
fn add_asked(piece: &mut Piece, tag: u8, object: u16, place: u8, label: u32)
    requires { length piece.old + 48 ≤ GREATEST_PIECE }
    ensures { Gains piece.old piece.new (tag ∷ asked.spell (object, (place, label))) 48
        (asked.IsWide (object, (place, label))) }
{
    piece.u8(tag);
    piece.u16(object);
    piece.u8(place);
    piece.u32(label);
}

// ---- bytes of objects: what is before them

// How many bytes there are, as far as four bytes can say it.
fn count_of(bytes: &[u8]) -> u32
    ensures { result ≡ count_of bytes.now }
{
    u32::try_from(bytes.len()).unwrap_or(u32::MAX)
}

#[tactic(auto, using(crate::proofs::Joins::gained))]
fn add_filled(piece: &mut Piece, object: u16, bytes: &[u8])
    requires { length piece.old + 48 ≤ GREATEST_PIECE }
    ensures { Gains piece.old piece.new
        (18 ∷ (number2 & number4).spell (object, count_of bytes.now)) 48
        ((number2 & number4).IsWide (object, count_of bytes.now)) }
{
    piece.u8(SET_BYTES);
    piece.u16(object);
    piece.u32(count_of(bytes));
}

#[tactic(auto, using(crate::proofs::Joins::gained))]
fn add_patched(piece: &mut Piece, object: u16, offset: u32, bytes: &[u8])
    requires { length piece.old + 48 ≤ GREATEST_PIECE }
    ensures { Gains piece.old piece.new
        (19 ∷ (number2 & number4 & number4).spell (object, (offset, count_of bytes.now))) 48
        ((number2 & number4 & number4).IsWide (object, (offset, count_of bytes.now))) }
{
    piece.u8(PATCH);
    piece.u16(object);
    piece.u32(offset);
    piece.u32(count_of(bytes));
}

#[tactic(auto, using(crate::proofs::Joins::gained))]
fn add_posted(piece: &mut Piece, to: u8, label: u32, first: u16, count: u8, bytes: &[u8])
    requires { length piece.old + 48 ≤ GREATEST_PIECE }
    ensures { Gains piece.old piece.new (22 ∷ (byte & number4 & number2 & byte & number4).spell
        (to, (label, (first, (count, count_of bytes.now))))) 48
        ((byte & number4 & number2 & byte & number4).IsWide
        (to, (label, (first, (count, count_of bytes.now))))) }
{
    piece.u8(POST);
    piece.u8(to);
    piece.u32(label);
    piece.u16(first);
    piece.u8(count);
    piece.u32(count_of(bytes));
}

// ---- a request for bytes

#[tactic(auto, using(crate::proofs::Joins::gained))]
fn add_fetched(piece: &mut Piece, object: u16, label: u32, offset: u32, count: u32)
    requires { length piece.old + 48 ≤ GREATEST_PIECE }
    ensures { Gains piece.old piece.new
        (23 ∷ fetched.spell (object, (label, (offset, count)))) 48
        (fetched.IsWide (object, (label, (offset, count)))) }
{
    piece.u8(FETCH);
    piece.u16(object);
    piece.u32(label);
    piece.u32(offset);
    piece.u32(count);
}

// ---- a reference that the program kept

#[tactic(auto, using(crate::proofs::Joins::gained))]
fn add_resolved(piece: &mut Piece, register: u16, reference: Ref)
    requires { length piece.old + 48 ≤ GREATEST_PIECE }
    ensures { Gains piece.old piece.new (24 ∷ resolved.spell (register, reference)) 48
        (resolved.IsWide (register, reference)) }
{
    piece.u8(RESOLVE);
    piece.u16(register);
    add_reference(piece, reference);
}

// ---- messages and acknowledgements

#[tactic(auto, unfolding(frames::specs::Formats::head), using(crate::proofs::Joins::gained))]
fn add_head(piece: &mut Piece, from: u8, to: u8, number: u64)
    requires { length piece.old + 10 ≤ GREATEST_PIECE }
    ensures { Adds head 10 piece.old piece.new (from, (to, number)) }
{
    piece.u8(from);
    piece.u8(to);
    piece.u64(number);
}

#[tactic(auto, unfolding(crate::specs::Entries::entry, frames::specs::Formats::sent), using(crate::proofs::Joins::gained))]
fn add_data(piece: &mut Piece, message: &Data)
    requires room { length piece.old + 48 ≤ GREATEST_PIECE }
    requires short { is_post message.now.body ≡ false }
    ensures { Adds entry 48 piece.old piece.new (received_of message.now) }
{
    piece.u8(DATA);
    add_head(piece, message.from, message.to, message.number);
    piece.u64(message.stamp);
    add_body(piece, &message.body);
}

#[tactic(auto, unfolding(crate::specs::Entries::entry, frames::specs::Formats::known), using(crate::proofs::Joins::gained))]
fn add_ack(piece: &mut Piece, ack: &Ack)
    requires { length piece.old + 48 ≤ GREATEST_PIECE }
    ensures { Adds entry 48 piece.old piece.new (acknowledged_of ack.now) }
{
    piece.u8(ACK);
    add_head(piece, ack.by, ack.of, ack.number);
}

// ---- an event

#[tactic(auto, unfolding(crate::specs::Entries::entry), using(crate::proofs::Joins::gained))]
fn add_start(piece: &mut Piece, event: &Event)
    requires room { length piece.old + 48 ≤ GREATEST_PIECE }
    requires short { is_letter event.now ≡ false }
    ensures { Gains piece.old piece.new (start_of event.now).bytes 48 (start_of event.now).is_wide }
{
    match *event {
        Event::Alloc { register, places } => add_placed(piece, ALLOC, register, places),
        Event::Copy { register, source } => add_two(piece, COPY, register, source),
        Event::Drop { register } => add_one(piece, DROP, register),
        Event::Load {
            register,
            object,
            place,
        } => add_loaded(piece, LOAD, register, object, place),
        Event::Store {
            object,
            place,
            register,
        } => add_stored(piece, STORE, object, place, register),
        Event::Clear { object, place } => add_placed(piece, CLEAR, object, place),
        Event::Word { object } => add_one(piece, WORD, object),
        Event::SetWord { object, word } => add_worded(piece, SET_WORD, object, word),
        Event::SetBytes { object, bytes } => add_filled(piece, object, bytes),
        Event::Patch {
            object,
            offset,
            bytes,
        } => add_patched(piece, object, offset, bytes),
        Event::Give {
            to,
            label,
            register,
        } => add_given(piece, GIVE, to, label, register),
        Event::Accept { register } => add_one(piece, ACCEPT, register),
        Event::Put {
            object,
            place,
            register,
        } => add_stored(piece, PUT, object, place, register),
        Event::Get {
            object,
            place,
            label,
        } => add_asked(piece, GET, object, place, label),
        Event::Post {
            to,
            label,
            first,
            count,
            bytes,
        } => add_posted(piece, to, label, first, count, bytes),
        Event::Fetch {
            object,
            label,
            offset,
            count,
        } => add_fetched(piece, object, label, offset, count),
        Event::Resolve {
            register,
            reference,
        } => add_resolved(piece, register, reference),
        Event::Reclaim { scope: Scope::All } => piece.u8(RECLAIM),
        Event::Reclaim {
            scope: Scope::Young,
        } => piece.u8(RECLAIM_YOUNG),
        Event::Begin => piece.u8(BEGIN),
        Event::Scan => piece.u8(SCAN),
        Event::Pass => piece.u8(PASS),
        Event::Sweep { count } => {
            piece.u8(SWEEP);
            piece.u32(count);
        }
        Event::Next { from } => {
            piece.u8(NEXT);
            piece.u8(from);
        }
        Event::Data(ref message) => add_data(piece, message),
        Event::Ack(ack) => add_ack(piece, &ack),
    }
}

/// Appends the bytes that spell the event to the piece, except for the event's own bytes, which
/// follow (see [`tail`]). The piece must have room for them. If the event has 2^32 bytes or more,
/// it has no spelling. For a letter that was received, see [`letter_of`].
pub fn add_event(piece: &mut Piece, event: &Event)
    requires room { length piece.old + 48 ≤ GREATEST_PIECE }
    requires short { is_letter event.now ≡ false }
    ensures start { length (tail_of event.now) < 2 ^ 32
        → AddsStart piece.old piece.new event.now }
    ensures few { length piece.new ≤ length piece.old + 48 }
{
    add_start(piece, event);
}

/// The bytes that the event brings, with which its spelling ends; none if it brings no bytes.
#[inline(always)]
pub fn tail<'a>(event: &Event<'a>) -> &'a [u8]
    ensures { result.now ≡ tail_of event.now }
{
    match *event {
        Event::SetBytes { object: _, bytes }
        | Event::Patch {
            object: _,
            offset: _,
            bytes,
        }
        | Event::Post {
            to: _,
            label: _,
            first: _,
            count: _,
            bytes,
        } => bytes,
        _ => &[],
    }
}

/// The message that the event is, if that is a letter with references and bytes; see
/// [`encode_letter`].
#[inline(always)]
pub fn letter_of<'a>(event: &'a Event) -> Option<&'a Data>
    ensures some { IfSome result (λ d. entry_of event.now ≡ received_of d.now) }
    ensures letter { IsSome result ↔ IsTrue (is_letter event.now) }
{
    match event {
        Event::Data(message) if is_post(&message.body) => Some(message),
        _ => None,
    }
}

fn is_post(body: &Body) -> bool
    ensures { result ≡ is_post body.now }
{
    matches!(body, Body::Post { .. })
}

#[tactic(auto, unfolding(frames::specs::Formats::head), using(crate::proofs::Joins::piece_written))]
fn put_head(out: &mut Writer, from: u8, to: u8, number: u64)
    ensures { Puts head out.old out.new (from, (to, number)) }
{
    let mut piece = Piece::new();
    add_head(&mut piece, from, to, number);
    out.piece(piece);
}

#[tactic(auto, unfolding(crate::specs::Entries::entry, frames::specs::Formats::sent), using(crate::proofs::Joins::behind, crate::proofs::Joins::both))]
fn put_data(out: &mut Writer, message: &Data)
    ensures { Puts entry out.old out.new (received_of message.now) }
{
    out.u8(DATA);
    put_head(out, message.from, message.to, message.number);
    out.u64(message.stamp);
    put_body(out, &message.body);
}

/// The bytes that spell the event that a message is. Fails with `Memory` if an allocation fails.
pub fn encode_letter(alloc: Global, message: &Data) -> Result<Vec<u8>, Refusal>
    ensures spelled { IfOk result (λ v. Fits entry (received_of message.now)
        × (v.items ≡ entry.spell (received_of message.now))) }
    ensures refused { IfErr result (λ e. e ≡ Memory) }
{
    let mut out = Writer::new(Vec::new(alloc), None, 0);
    put_data(&mut out, message);
    out.finish()
}
