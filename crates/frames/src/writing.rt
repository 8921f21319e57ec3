//! Writes frames as bytes. Each frame has one spelling. A frame without bytes is put together in a
//! piece, which allocates nothing. Frames with references and bytes go through a writer.
ghost use Rattle.std.specs.Prelude.{◌≡◌, ◌<◌, ◌≤◌, ◌+◌, ◌^◌, ◌∷◌, ◌++◌, [], length, IfOk, IfErr};
ghost use Rattle.std.specs.Prelude.{Bool, true, false, not};
ghost use Rattle.ids.specs.declared.refusal.Refusal.TheVariants.{Memory};
ghost use Rattle.codec.specs.Formats.{byte, number4, number8};
ghost use Rattle.codec.specs.Pieces.{Adds};
ghost use Rattle.codec.specs.Writing.{Puts, PutsAll, Writes};
ghost use Rattle.codec.specs.declared.piece.TheConstants.{GREATEST_PIECE};
ghost use Rattle.frames.specs.Formats.{reference, optional, colour, token, get, body_format, head};
ghost use Rattle.frames.specs.Formats.{IsCounted};
ghost use Rattle.frames.specs.declared.version.Version.TheVariants.{Second};
ghost use Rattle.frames.specs.Grammar.{Fits, spelling, frame, first_byte, is_letter};
ghost use Rattle.msg.specs.Frames.{plain_ack, plain_data_ref, plain_ref};
ghost use Rattle.msg.specs.Limits.{is_plain_body, is_post};
ghost use Rattle.msg.specs.declared.body.Body.TheVariants as body;

use crate::tags::{
    ABSENT, ACK, BEGIN, BLACK, DATA, ENDED, FETCH, GET, GIVE, MARK, POST, PRESENT, PUT, SWEPT,
    TOKEN, WHITE, WIDE_DATA,
};
use byteorder::{BigEndian, ByteOrder};
use codec::{Piece, Writer};
use ids::{Ref, Refusal};
use msg::{Ack, Body, Colour, DataRef, FrameRef, Token, is_plain_body};
use std::alloc::Global;

/// How many bytes a frame has at most that is no letter with references and bytes.
pub const GREATEST_SHORT: usize = 48;

// A reference after a tag.
#[tactic(auto, unfolding(crate::specs::Numbers::number4, crate::specs::Numbers::number8))]
#[inline(always)]
fn tagged_bytes(tag: u8, r: Ref) -> [u8; 14]
    ensures { result ≡ tag ∷ r.node ∷ (number4.spell r.slot ++ number8.spell r.generation) }
{
    let mut part = [0; 14];
    part[0] = tag;
    part[1] = r.node;
    BigEndian::write_u32(&mut part[2..], r.slot);
    BigEndian::write_u64(&mut part[6..], r.generation);
    part
}

/// Appends a reference.
pub fn put_reference(out: &mut Writer, r: Ref)
    ensures { Puts (reference Second) out.old out.new r }
{
    out.append(&tagged_bytes(0, r)[1..]);
}

// Appends a tag and a reference, in one piece.
#[inline(always)]
fn put_tagged(out: &mut Writer, tag: u8, r: Ref)
    ensures { Writes out.old out.new (tag ∷ (reference Second).spell r)
        ((reference Second).IsWide r) }
{
    out.array(tagged_bytes(tag, r));
}

/// Appends an optional reference.
#[tactic(auto, unfolding(crate::specs::Formats::optional))]
#[inline(always)]
pub fn put_optional(out: &mut Writer, o: Option<Ref>)
    ensures { Puts (optional Second) out.old out.new o }
{
    match o {
        None => out.u8(ABSENT),
        Some(r) => put_tagged(out, PRESENT, r),
    }
}

/// Appends a reference to the piece, which must have room for it.
#[tactic(auto, unfolding(crate::specs::Formats::reference), using(crate::proofs::Joins::gained))]
#[inline(always)]
pub fn add_reference(piece: &mut Piece, r: Ref)
    requires { length piece.old + 13 ≤ GREATEST_PIECE }
    ensures { Adds (reference Second) 13 piece.old piece.new r }
{
    piece.u8(r.node);
    piece.u32(r.slot);
    piece.u64(r.generation);
}

/// Appends an optional reference to the piece, which must have room for it.
#[tactic(auto, unfolding(crate::specs::Formats::optional), using(crate::proofs::Joins::gained))]
#[inline(always)]
pub fn add_optional(piece: &mut Piece, o: Option<Ref>)
    requires { length piece.old + 14 ≤ GREATEST_PIECE }
    ensures { Adds (optional Second) 14 piece.old piece.new o }
{
    match o {
        None => piece.u8(ABSENT),
        Some(r) => {
            piece.u8(PRESENT);
            add_reference(piece, r);
        }
    }
}

/// Appends a colour to the piece, which must have room for it.
#[tactic(auto, unfolding(crate::specs::Formats::colour), using(crate::proofs::Joins::gained))]
#[inline(always)]
pub fn add_colour(piece: &mut Piece, c: Colour)
    requires { length piece.old + 1 ≤ GREATEST_PIECE }
    ensures { Adds colour 1 piece.old piece.new c }
{
    piece.u8(match c {
        Colour::White => WHITE,
        Colour::Black => BLACK,
    });
}

/// Appends a token to the piece, which must have room for it.
#[tactic(auto, unfolding(crate::specs::Formats::token), using(crate::proofs::Joins::gained))]
#[inline(always)]
pub fn add_token(piece: &mut Piece, t: Token)
    requires { length piece.old + 9 ≤ GREATEST_PIECE }
    ensures { Adds token 9 piece.old piece.new t }
{
    add_colour(piece, t.colour);
    piece.i64(t.q);
}

// A token after its tag.
#[tactic(auto, unfolding(crate::specs::Formats::token, crate::specs::Formats::colour, crate::specs::Numbers::signed8))]
#[inline(always)]
fn token_bytes(t: Token) -> [u8; 10]
    ensures { result ≡ 2 ∷ token.spell t }
{
    let mut part = [0; 10];
    part[0] = TOKEN;
    part[1] = match t.colour {
        Colour::White => WHITE,
        Colour::Black => BLACK,
    };
    BigEndian::write_i64(&mut part[2..], t.q);
    part
}

// Appends a token after its tag.
#[tactic(auto, unfolding(crate::specs::Formats::token, crate::specs::Formats::colour, crate::specs::Numbers::signed8))]
#[inline(always)]
fn put_token(out: &mut Writer, t: Token)
    ensures { Writes out.old out.new (2 ∷ token.spell t) (token.IsWide t) }
{
    out.array(token_bytes(t));
}

// A label after the tag of a letter.
#[tactic(auto, unfolding(crate::specs::Numbers::number4))]
#[inline(always)]
fn label_bytes(label: u32) -> [u8; 5]
    ensures { result ≡ 4 ∷ number4.spell label }
{
    let mut part = [0; 5];
    part[0] = GIVE;
    BigEndian::write_u32(&mut part[1..], label);
    part
}

// Appends a label after the tag of a letter.
#[tactic(auto, unfolding(crate::specs::Numbers::number4))]
#[inline(always)]
fn put_label(out: &mut Writer, label: u32)
    ensures { Writes out.old out.new (4 ∷ number4.spell label) (number4.IsWide label) }
{
    out.array(label_bytes(label));
}

// An object and one of its places after the tag of a Put.
#[tactic(auto, unfolding(crate::specs::Formats::reference, crate::specs::Numbers::number4, crate::specs::Numbers::number8))]
#[inline(always)]
fn put_bytes(target: Ref, place: u8) -> [u8; 15]
    ensures { result ≡ 5 ∷ ((reference Second).spell target ++ place ∷ []) }
{
    let mut part = [0; 15];
    part[0] = PUT;
    part[1] = target.node;
    BigEndian::write_u32(&mut part[2..], target.slot);
    BigEndian::write_u64(&mut part[6..], target.generation);
    part[14] = place;
    part
}

// Appends an object and one of its places after the tag of a Put.
#[tactic(auto, unfolding(crate::specs::Formats::reference, crate::specs::Numbers::number4, crate::specs::Numbers::number8))]
#[inline(always)]
fn put_place(out: &mut Writer, target: Ref, place: u8)
    ensures { Writes out.old out.new (5 ∷ ((reference Second).spell target ++ place ∷ []))
        ((reference Second).IsWide target × byte.IsWide place) }
{
    out.array(put_bytes(target, place));
}

// An object, one of its places and a label after the tag of a Get.
#[tactic(auto, unfolding(crate::specs::Formats::reference, crate::specs::Numbers::number4, crate::specs::Numbers::number8))]
#[inline(always)]
fn get_bytes(target: Ref, place: u8, label: u32) -> [u8; 19]
    ensures { result ≡ 6 ∷ (get Second).spell (target, (place, label)) }
{
    let mut part = [0; 19];
    part[0] = GET;
    part[1] = target.node;
    BigEndian::write_u32(&mut part[2..], target.slot);
    BigEndian::write_u64(&mut part[6..], target.generation);
    part[14] = place;
    BigEndian::write_u32(&mut part[15..], label);
    part
}

// Appends an object, one of its places and a label after the tag of a Get.
#[tactic(auto, unfolding(crate::specs::Formats::reference, crate::specs::Numbers::number4, crate::specs::Numbers::number8))]
#[inline(always)]
fn put_get(out: &mut Writer, target: Ref, place: u8, label: u32)
    ensures { Writes out.old out.new (6 ∷ (get Second).spell (target, (place, label)))
        ((get Second).IsWide (target, (place, label))) }
{
    out.array(get_bytes(target, place, label));
}

// Appends optional references one after another.
#[tactic(auto, using(crate::proofs::Joins::unwritten, crate::proofs::Joins::written_more))]
fn put_references(out: &mut Writer, references: &[Option<Ref>])
    ensures { PutsAll (optional Second) out.old out.new references.now }
{
    for reference in references {
        put_optional(out, *reference);
    }
}

// Appends a tag and a letter with references and bytes. (The writer isn't borrowed, so in the
// caller it stays in registers.)
#[tactic(auto, unfolding(crate::specs::Formats::body_format), using(crate::proofs::Joins::behind, crate::proofs::Joins::both, crate::proofs::Joins::first))]
#[inline(never)]
fn put_post(out: Writer, label: u32, references: &[Option<Ref>], bytes: &[u8]) -> Writer
    requires { length references.now < 2 ^ 8 }
    ensures { Puts (body_format true Second) out result
        (body.Post label references.now bytes.now) }
{
    let mut out = out;
    out.u8(POST);
    out.u32(label);
    out.u8(references.len() as u8);
    put_references(&mut out, references);
    out.bytes(bytes);
    out
}

// Appends a tag and a Fetch. (As with a letter, the writer isn't borrowed.)
#[tactic(auto, unfolding(crate::specs::Formats::body_format), using(crate::proofs::Joins::behind, crate::proofs::Joins::both))]
#[inline(never)]
fn put_fetch(out: Writer, target: Ref, label: u32, offset: u32, count: u32) -> Writer
    ensures { Puts (body_format true Second) out result (body.Fetch target label offset count) }
{
    let mut out = out;
    put_tagged(&mut out, FETCH, target);
    out.u32(label);
    out.u32(offset);
    out.u32(count);
    out
}

/// Appends a tag and what the message says.
#[tactic(auto, unfolding(crate::specs::Formats::body_format), using(crate::proofs::Joins::both, crate::proofs::Placed::placed))]
#[inline(always)]
pub fn put_body(out: &mut Writer, body: &Body)
    requires { IsCounted body.now }
    ensures { (wide : Bool) → Puts (body_format wide Second) out.old out.new body.now }
{
    match *body {
        Body::Begin => out.u8(BEGIN),
        Body::Token(token) => put_token(out, token),
        Body::Mark { target } => put_tagged(out, MARK, target),
        Body::Give { label, reference } => {
            put_label(out, label);
            put_optional(out, reference);
        }
        Body::Put {
            target,
            place,
            reference,
        } => {
            put_place(out, target, place);
            put_optional(out, reference);
        }
        Body::Get {
            target,
            place,
            label,
        } => put_get(out, target, place, label),
        Body::Post {
            label,
            ref references,
            ref bytes,
        } => *out = put_post(out.take(), label, references.as_slice(), bytes.as_slice()),
        Body::Fetch {
            target,
            label,
            offset,
            count,
        } => *out = put_fetch(out.take(), target, label, offset, count),
        Body::Ended => out.u8(ENDED),
        Body::Swept => out.u8(SWEPT),
    }
}

/// Appends a tag and what the message says to the piece, which must have room for them. A letter
/// with references and bytes has none in a piece; see [`put_body`].
#[tactic(auto, unfolding(crate::specs::Formats::body_format), using(crate::proofs::Joins::gained))]
#[inline(always)]
pub fn add_body(piece: &mut Piece, body: &Body)
    requires room { length piece.old + 29 ≤ GREATEST_PIECE }
    requires short { is_post body.now ≡ false }
    ensures { (wide : Bool) → Adds (body_format wide Second) 29 piece.old piece.new body.now }
{
    match *body {
        Body::Begin => piece.u8(BEGIN),
        Body::Token(token) => {
            piece.u8(TOKEN);
            add_token(piece, token);
        }
        Body::Mark { target } => {
            piece.u8(MARK);
            add_reference(piece, target);
        }
        Body::Give { label, reference } => {
            piece.u8(GIVE);
            piece.u32(label);
            add_optional(piece, reference);
        }
        Body::Put {
            target,
            place,
            reference,
        } => {
            piece.u8(PUT);
            add_reference(piece, target);
            piece.u8(place);
            add_optional(piece, reference);
        }
        Body::Get {
            target,
            place,
            label,
        } => {
            piece.u8(GET);
            add_reference(piece, target);
            piece.u8(place);
            piece.u32(label);
        }
        Body::Post { .. } => unreachable!(),
        Body::Fetch {
            target,
            label,
            offset,
            count,
        } => {
            piece.u8(FETCH);
            add_reference(piece, target);
            piece.u32(label);
            piece.u32(offset);
            piece.u32(count);
        }
        Body::Ended => piece.u8(ENDED),
        Body::Swept => piece.u8(SWEPT),
    }
}

#[tactic(auto, unfolding(crate::specs::Formats::head), using(crate::proofs::Joins::gained))]
#[inline(always)]
fn add_head(piece: &mut Piece, from: u8, to: u8, number: u64)
    requires { length piece.old + 10 ≤ GREATEST_PIECE }
    ensures { Adds head 10 piece.old piece.new (from, (to, number)) }
{
    piece.u8(from);
    piece.u8(to);
    piece.u64(number);
}

// Whether the message is no letter with references and bytes.
fn is_short_body(body: &Body) -> bool
    ensures { result ≡ not (is_post body.now) }
{
    !matches!(body, Body::Post { .. })
}

/// Whether the frame has at most [`GREATEST_SHORT`] bytes, so that a piece has room for it: it is
/// no letter with references and bytes. All frames of plain spaces are short.
#[inline(always)]
pub fn is_short(f: &FrameRef) -> bool
    ensures { result ≡ not (is_letter (plain_ref f.now)) }
{
    match f {
        FrameRef::Data(message) => is_short_body(message.body),
        FrameRef::Ack(_) => true,
    }
}

// The first byte of a message.
#[inline(always)]
fn first_byte(body: &Body) -> u8
    ensures { result ≡ first_byte (is_plain_body body.now) }
{
    if is_plain_body(body) { DATA } else { WIDE_DATA }
}

#[inline(always)]
fn add_data(piece: &mut Piece, message: &DataRef)
    requires room { length piece.old + 48 ≤ GREATEST_PIECE }
    requires short { is_post message.now.body.now ≡ false }
    ensures { Adds frame 48 piece.old piece.new (plain_data_ref message.now) }
{
    piece.u8(first_byte(message.body));
    add_head(piece, message.from, message.to, message.number);
    piece.u64(message.stamp);
    add_body(piece, message.body);
}

#[tactic(auto, unfolding(crate::specs::Grammar::frame, crate::specs::Formats::known), using(crate::proofs::Joins::gained))]
fn add_ack(piece: &mut Piece, ack: &Ack)
    requires { length piece.old + 48 ≤ GREATEST_PIECE }
    ensures { Adds frame 48 piece.old piece.new (plain_ack ack.now) }
{
    piece.u8(ACK);
    add_head(piece, ack.by, ack.of, ack.number);
}

/// Appends the bytes that spell the frame to the piece, which must have room for them. The frame
/// must be short; see [`is_short`].
#[tactic(auto, unfolding(crate::specs::Grammar::spelling), using(crate::proofs::Written::frame_fits))]
#[inline(always)]
pub fn add_frame(piece: &mut Piece, f: &FrameRef)
    requires room { length piece.old + 48 ≤ GREATEST_PIECE }
    requires short { is_letter (plain_ref f.now) ≡ false }
    ensures spelled { piece.new ≡ piece.old ++ spelling (plain_ref f.now) }
    ensures fits { Fits (plain_ref f.now) }
{
    match f {
        FrameRef::Data(message) => add_data(piece, message),
        FrameRef::Ack(ack) => add_ack(piece, ack),
    }
}

#[tactic(auto, unfolding(crate::specs::Formats::head))]
fn put_head(out: &mut Writer, from: u8, to: u8, number: u64)
    ensures { Puts head out.old out.new (from, (to, number)) }
{
    let mut piece = Piece::new();
    add_head(&mut piece, from, to, number);
    out.piece(piece);
}

/// Appends the bytes that spell the frame of a message.
pub fn put_data(out: &mut Writer, message: &DataRef)
    ensures { Puts frame out.old out.new (plain_data_ref message.now) }
{
    out.u8(first_byte(message.body));
    put_head(out, message.from, message.to, message.number);
    out.u64(message.stamp);
    put_body(out, message.body);
}

// How many bytes a letter's frame has besides its references and bytes.
const LETTER_BYTES: usize = 29;

// How many bytes an optional reference has at most.
const REFERENCE_BYTES: usize = 14;

// How many bytes the message's frame has at most.
fn most_bytes(message: &DataRef) -> usize {
    match message.body {
        Body::Post {
            references,
            bytes,
            ..
        } => LETTER_BYTES + references.len() * REFERENCE_BYTES + bytes.len(),
        _ => GREATEST_SHORT,
    }
}

// The bytes that spell the frame of a message of any length.
#[inline(never)]
fn encode_data(alloc: Global, message: &DataRef) -> Result<Vec<u8>, Refusal>
    ensures spelled { IfOk result (λ v. Fits (plain_data_ref message.now)
        × (v.items ≡ spelling (plain_data_ref message.now))) }
    ensures refused { IfErr result (λ e. e ≡ Memory) }
{
    let mut out = Writer::new(Vec::new(alloc), None, most_bytes(message));
    put_data(&mut out, message);
    out.finish()
}

/// The bytes that spell the frame.
///
/// # Errors
///
/// [`Refusal::Memory`] if an allocation fails; there are no other errors.
pub fn encode(alloc: Global, f: &FrameRef) -> Result<Vec<u8>, Refusal>
    ensures spelled { IfOk result
        (λ v. Fits (plain_ref f.now) × (v.items ≡ spelling (plain_ref f.now))) }
    ensures refused { IfErr result (λ e. e ≡ Memory) }
{
    if let FrameRef::Data(message) = f
        && !is_short_body(message.body)
    {
        return encode_data(alloc, message);
    }
    let mut piece = Piece::new();
    add_frame(&mut piece, f);
    Ok(Vec::from_slice(alloc, piece.as_slice())?)
}
