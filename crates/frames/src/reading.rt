//! Parses frames from bytes. Each call reads a value from the front of what is left. If the bytes
//! there don't spell one, the reader fails, or the call returns no value.
ghost use Rattle.std.specs.Prelude.{◌≡◌, ◌≢◌, ◌≤◌, ℕ, List, length, take, Option, Some, IfOk, IfErr, true, false};
ghost use Rattle.std.specs.List.{list_all};
ghost use Rattle.std.specs.Option.{option_map};
ghost use Rattle.ids.specs.declared.refusal.Refusal.TheVariants.{BadFrame, Memory};
ghost use Rattle.frames.specs.Formats.{generation, reference, optional, colour, token};
ghost use Rattle.frames.specs.Formats.{give_at, put_at, get_at, post, post_at, fetch_at};
ghost use Rattle.frames.specs.Formats.{plain_bodies, bodies, body_format, head, is_framed};
ghost use Rattle.frames.specs.Grammar.{Fits, spelling, data_at, ack_at, frame, frames};
ghost use Rattle.frames.specs.Decoding.{Decodes, DecodesBehind, IsDecoded, SpellLetter};
ghost use Rattle.frames.specs.Decoding.{ack_of, message_of};
ghost use Rattle.frames.specs.Heads.{IsHead};
ghost use Rattle.codec.specs.Formats.{behind, byte, counted, many, whole_at};
ghost use Rattle.std.specs.Result.{result_ok};
ghost use Rattle.codec.specs.Readers.{Reads, Takes};
ghost use Rattle.msg.specs.Frames.{Plain, data_frame, plain, plain_ack};
ghost use Rattle.msg.specs.Limits.{data_fits, letter_fits, optional_fits};
ghost use Rattle.msg.specs.declared.body.Body.TheVariants as body;

use crate::tags::{
    ABSENT, ACK, BEGIN, BLACK, DATA, ENDED, FETCH, GET, GIVE, MARK, POST, PRESENT, PUT, SWEPT,
    TOKEN, WHITE, WIDE_DATA,
};
use crate::version::Version;
use codec::Reader;
use ids::{GREATEST_LETTER, GREATEST_PLACES, Generation, Ref, Refusal};
use msg::{
    Ack, Body, Colour, Data, Frame, Frozen, Token, data_fits, is_plain_body, optional_fits,
    plain_data_fits,
};
use std::alloc::Global;

/// Reads a generation.
#[inline(always)]
pub fn read_generation(reader: &mut Reader, version: Version) -> Generation
    ensures { Reads (generation version) reader.old reader.new result }
{
    match version {
        Version::First => Generation::from(reader.u32()),
        Version::Second => reader.u64(),
    }
}

/// Reads a reference; its numbers are not limited.
#[tactic(auto, unfolding(crate::specs::Formats::reference), using(crate::proofs::Joins::both_read, crate::proofs::Joins::made))]
#[inline(always)]
pub fn read_reference(reader: &mut Reader, version: Version) -> Ref
    ensures { Reads (reference version) reader.old reader.new result }
{
    let node = reader.u8();
    let slot = reader.u32();
    let generation = read_generation(reader, version);
    Ref {
        node,
        slot,
        generation,
    }
}

/// Reads an optional reference; its numbers are not limited.
#[tactic(auto, unfolding(crate::specs::Formats::optional), using(crate::proofs::Joins::tags))]
#[inline(always)]
pub fn read_optional(reader: &mut Reader, version: Version) -> Option<Ref>
    ensures { Reads (optional version) reader.old reader.new result }
{
    match reader.u8() {
        ABSENT => None,
        PRESENT => Some(read_reference(reader, version)),
        _ => {
            reader.fail();
            None
        }
    }
}

/// Reads a colour.
#[tactic(auto, unfolding(crate::specs::Formats::colour), using(crate::proofs::Joins::tags))]
#[inline(always)]
pub fn read_colour(reader: &mut Reader) -> Colour
    ensures { Reads colour reader.old reader.new result }
{
    match reader.u8() {
        WHITE => Colour::White,
        BLACK => Colour::Black,
        _ => {
            reader.fail();
            Colour::White
        }
    }
}

/// Reads a token.
#[tactic(auto, unfolding(crate::specs::Formats::token), using(crate::proofs::Joins::both_read, crate::proofs::Joins::made))]
#[inline(always)]
pub fn read_token(reader: &mut Reader) -> Token
    ensures { Reads token reader.old reader.new result }
{
    let colour = read_colour(reader);
    let q = reader.i64();
    Token { colour, q }
}

#[tactic(auto, unfolding(crate::specs::Formats::give_at), using(crate::proofs::Joins::both_read, crate::proofs::Joins::made_of))]
#[inline(always)]
fn read_give(reader: &mut Reader, version: Version) -> Body
    ensures { Takes (give_at version) reader.old reader.new (Some result) }
{
    let label = reader.u32();
    let reference = read_optional(reader, version);
    Body::Give { label, reference }
}

#[tactic(auto, unfolding(crate::specs::Formats::put_at), using(crate::proofs::Joins::both_read, crate::proofs::Joins::made_of))]
#[inline(always)]
fn read_put(reader: &mut Reader, version: Version) -> Body
    ensures { Takes (put_at version) reader.old reader.new (Some result) }
{
    let target = read_reference(reader, version);
    let place = reader.u8();
    let reference = read_optional(reader, version);
    Body::Put {
        target,
        place,
        reference,
    }
}

#[tactic(auto, unfolding(crate::specs::Formats::get_at), using(crate::proofs::Joins::both_read, crate::proofs::Joins::made_of))]
#[inline(always)]
fn read_get(reader: &mut Reader, version: Version) -> Body
    ensures { Takes (get_at version) reader.old reader.new (Some result) }
{
    let target = read_reference(reader, version);
    let place = reader.u8();
    let label = reader.u32();
    Body::Get {
        target,
        place,
        label,
    }
}

#[tactic(auto, unfolding(crate::specs::Formats::fetch_at), using(crate::proofs::Joins::both_read, crate::proofs::Joins::made_of))]
#[inline(never)]
fn read_fetch(reader: &mut Reader, version: Version) -> Body
    ensures { Takes (fetch_at version) reader.old reader.new (Some result) }
{
    let target = read_reference(reader, version);
    let label = reader.u32();
    let offset = reader.u32();
    let count = reader.u32();
    Body::Fetch {
        target,
        label,
        offset,
        count,
    }
}

// What a message says behind this tag, if plain spaces have such messages.
#[inline(always)]
#[tactic(auto, using(crate::proofs::Joins::tags))]
fn read_behind(tag: u8, reader: &mut Reader, version: Version) -> Body
    ensures { Takes (behind (plain_bodies version) tag) reader.old reader.new (Some result) }
{
    match tag {
        BEGIN => Body::Begin,
        TOKEN => Body::Token(read_token(reader)),
        MARK => Body::Mark {
            target: read_reference(reader, version),
        },
        GIVE => read_give(reader, version),
        PUT => read_put(reader, version),
        GET => read_get(reader, version),
        ENDED => Body::Ended,
        SWEPT => Body::Swept,
        _ => {
            reader.fail();
            Body::Begin
        }
    }
}

/// Reads a tag and what a message of a plain space says; its references and places are not limited.
#[inline(always)]
#[tactic(auto, unfolding(crate::specs::Formats::body_format), using(crate::proofs::Joins::tags))]
pub fn read_body(reader: &mut Reader, version: Version) -> Body
    ensures { Reads (body_format false version) reader.old reader.new result }
{
    let tag = reader.u8();
    read_behind(tag, reader, version)
}

// What a message says behind this tag, which isn't that of a letter with references and bytes.
#[tactic(auto, using(crate::proofs::Bodies::wide_tags))]
#[inline(always)]
fn read_short(tag: u8, reader: &mut Reader, version: Version) -> Body
    requires { tag ≢ 9 }
    ensures { Takes (behind (bodies true version) tag) reader.old reader.new (Some result) }
{
    if tag == FETCH {
        read_fetch(reader, version)
    } else {
        read_behind(tag, reader, version)
    }
}

// ---- letters with references and bytes

// How many references a letter may have.
const MOST: usize = GREATEST_PLACES as usize;

// This many optional references, up to the first one that isn't there, and how many were read. They
// are put into the first places of `row`. If there are fewer bytes than references, the reader
// fails.
#[tactic(auto, using(crate::proofs::Joins::lists))]
fn read_each(count: usize, reader: &mut Reader, version: Version, row: &mut [Option<Ref>]) -> usize
    requires { count ≤ length row.old }
    ensures value { Reads (many (optional version) count) reader.old reader.new
        (take result row.new) }
    ensures within { result ≤ length row.new }
{
    reader.require(count);
    if !reader.is_open() {
        return 0;
    }
    for place in 0..count {
        if !reader.is_open() {
            return place;
        }
        row[place] = read_optional(reader, version);
    }
    count
}

// How many references there are, in one byte, and these, which are put into the first places of
// `row`.
#[tactic(auto, using(crate::proofs::Joins::counted_read))]
fn read_references(reader: &mut Reader, version: Version, row: &mut [Option<Ref>]) -> usize
    requires { length row.old ≡ 255 }
    ensures value { Reads (counted byte (optional version)) reader.old reader.new
        (take result row.new) }
    ensures within { result ≤ length row.new }
{
    let count = usize::from(reader.u8());
    read_each(count, reader, version, row)
}

// A label, references and bytes. The references are put into the first places of `row`, and the
// result says how many there are. Nothing is allocated.
#[tactic(auto, using(crate::proofs::Joins::both_read))]
fn read_letter<'a>(
    reader: &mut Reader<'a>,
    version: Version,
    row: &mut [Option<Ref>],
) -> (u32, (usize, &'a [u8]))
    requires { length row.old ≡ 255 }
    ensures value { Reads (post version) reader.old reader.new
        (result.0, (take result.1.0 row.new, result.1.1.now)) }
    ensures within { result.1.0 ≤ length row.new }
{
    let label = reader.u32();
    let count = read_references(reader, version, row);
    let bytes = reader.bytes();
    (label, (count, bytes))
}

// The body of a letter with these references and bytes.
fn new_post(
    alloc: Global,
    label: u32,
    references: &[Option<Ref>],
    bytes: &[u8],
) -> Result<Body, Refusal>
    ensures made { IfOk result (λ b. b ≡ body.Post label references.now bytes.now) }
    ensures refused { IfErr result (λ e. e ≡ Memory) }
{
    let references = Frozen::new(alloc, references)?;
    let bytes = Frozen::new(alloc, bytes)?;
    Ok(Body::Post {
        label,
        references,
        bytes,
    })
}

#[tactic(auto, unfolding(crate::specs::Formats::post_at), using(crate::proofs::Joins::made_of))]
#[inline(never)]
fn read_post(alloc: Global, reader: &mut Reader, version: Version) -> Result<Body, Refusal>
    ensures value { IfOk result
        (λ b. Takes (post_at version) reader.old reader.new (Some b)) }
    ensures refused { IfErr result (λ e. e ≡ Memory) }
{
    let mut row = [None; MOST];
    let (label, (count, bytes)) = read_letter(reader, version, &mut row);
    new_post(alloc, label, &row[..count], bytes)
}

/// Reads a tag and what a message of a wide space says; its references and places are not limited.
/// Fails with `Memory` if an allocation fails. Only the references and bytes of a letter are
/// allocated, and only once the letter is there.
#[tactic(auto, unfolding(crate::specs::Formats::body_format), using(crate::proofs::Bodies::wide_tags, crate::proofs::Joins::tags))]
pub fn read_wide_body(alloc: Global, reader: &mut Reader, version: Version) -> Result<Body, Refusal>
    ensures value { IfOk result (Reads (body_format true version) reader.old reader.new) }
    ensures refused { IfErr result (λ e. e ≡ Memory) }
{
    let tag = reader.u8();
    if tag == POST {
        read_post(alloc, reader, version)
    } else {
        Ok(read_short(tag, reader, version))
    }
}

#[tactic(auto, unfolding(crate::specs::Formats::head), using(crate::proofs::Joins::both_read))]
#[inline(always)]
fn read_head(reader: &mut Reader) -> (u8, (u8, u64))
    ensures { Reads head reader.old reader.new result }
{
    let from = reader.u8();
    let to = reader.u8();
    let number = reader.u64();
    (from, (to, number))
}

// The message that all of the bytes spell, behind its first byte, if plain spaces have room for it.
// (It is put together once, in its place.)
#[inline(never)]
fn whole_data(start: Reader) -> Result<Frame, Refusal>
    ensures { Decodes result (message_of true start.entry) }
{
    let mut rest = start;
    let (from, (to, number)) = read_head(&mut rest);
    let stamp = rest.u64();
    let body = read_body(&mut rest, Version::Second);
    if !rest.finish() {
        return Err(Refusal::BadFrame);
    }
    if !plain_data_fits(from, to, number, stamp, &body) {
        return Err(Refusal::BadFrame);
    }
    Ok(Frame::Data(Data {
        from,
        to,
        number,
        stamp,
        body,
    }))
}

// ---- messages for which plain spaces have no room

// Whether a message of these parts is within the limits, and plain spaces have no room for it.
fn wide_data_fits(from: u8, to: u8, number: u64, stamp: u64, body: &Body) -> bool
    ensures { result ≡ is_framed false ((from, (to, number)), (stamp, body.now)) }
{
    data_fits(from, to, number, stamp, body) && !is_plain_body(body)
}

fn all_fit(references: &[Option<Ref>]) -> bool
    ensures { result ≡ list_all optional_fits references.now }
{
    references.iter().all(|reference| optional_fits(*reference))
}

// Whether a letter may have these references, and this many bytes.
fn letter_fits(references: &[Option<Ref>], bytes: usize) -> bool
    ensures { result ≡ letter_fits references.now bytes }
{
    references.len() <= MOST && (bytes <= GREATEST_LETTER as usize && all_fit(references))
}

// The message with these parts, if it is within the limits and plain spaces have no room for it.
fn wide_message(from: u8, to: u8, number: u64, stamp: u64, body: Body) -> Result<Frame, Refusal>
    ensures made { IfOk result (λ f. plain f ≡ data_frame from to number stamp body) }
    ensures fits { IfOk result
        (λ f. is_framed false ((from, (to, number)), (stamp, body)) ≡ true) }
    ensures refused { IfErr result (λ e. (e ≡ BadFrame)
        × (is_framed false ((from, (to, number)), (stamp, body)) ≡ false)) }
{
    if !wide_data_fits(from, to, number, stamp, &body) {
        return Err(Refusal::BadFrame);
    }
    Ok(Frame::Data(Data {
        from,
        to,
        number,
        stamp,
        body,
    }))
}

// Whether a letter of these parts is within the limits.
fn post_fits(
    from: u8,
    to: u8,
    number: u64,
    stamp: u64,
    references: &[Option<Ref>],
    bytes: &[u8],
) -> bool
    ensures { (label : ℕ) → result
        ≡ data_fits from to number stamp (body.Post label references.now bytes.now) }
{
    data_fits(from, to, number, stamp, &Body::Begin) && letter_fits(references, bytes.len())
}

// The letter whose tag was read, with these parts before it. It is copied only if all of the bytes
// are a frame.
#[inline(never)]
fn whole_letter(
    alloc: Global,
    from: u8,
    to: u8,
    number: u64,
    stamp: u64,
    start: Reader,
) -> Result<Frame, Refusal>
    ensures { DecodesBehind (from, (to, number)) stamp 9 start.entry result }
{
    let mut rest = start;
    let mut row = [None; MOST];
    let (label, (count, bytes)) = read_letter(&mut rest, Version::Second, &mut row);
    if !rest.finish() {
        return Err(Refusal::BadFrame);
    }
    let references = &row[..count];
    if !post_fits(from, to, number, stamp, references, bytes) {
        return Err(Refusal::BadFrame);
    }
    let body = match new_post(alloc, label, references, bytes) {
        Ok(body) => body,
        Err(refusal) => return Err(refusal),
    };
    Ok(Frame::Data(Data {
        from,
        to,
        number,
        stamp,
        body,
    }))
}

// The message that all of the bytes spell, behind its first byte.
#[inline(never)]
fn whole_wide(alloc: Global, start: Reader) -> Result<Frame, Refusal>
    ensures { Decodes result (message_of false start.entry) }
{
    let mut rest = start;
    let (from, (to, number)) = read_head(&mut rest);
    let stamp = rest.u64();
    let tag = rest.u8();
    if tag == POST {
        return whole_letter(alloc, from, to, number, stamp, rest);
    }
    let body = read_short(tag, &mut rest, Version::Second);
    if !rest.finish() {
        return Err(Refusal::BadFrame);
    }
    wide_message(from, to, number, stamp, body)
}

#[tactic(auto, unfolding(crate::specs::Grammar::ack_at, crate::specs::Formats::known), using(crate::proofs::Joins::tested))]
#[inline(always)]
fn read_ack(reader: &mut Reader) -> Option<Ack>
    ensures { Takes ack_at reader.old reader.new (option_map plain_ack result) }
{
    let (by, (of, number)) = read_head(reader);
    Ack::new(by, of, number)
}

// The acknowledgement that all of the bytes spell, behind its first byte.
#[tactic(auto, using(crate::proofs::Wholes::left_taken))]
fn whole_ack(start: Reader) -> Result<Frame, Refusal>
    ensures value { ack_of start.entry ≡ option_map plain (result_ok result) }
    ensures refused { IfErr result (λ e. e ≡ BadFrame) }
{
    let mut reader = start;
    let ack = read_ack(&mut reader);
    if !reader.finish() {
        return Err(Refusal::BadFrame);
    }
    match ack {
        Some(ack) => Ok(Frame::Ack(ack)),
        None => Err(Refusal::BadFrame),
    }
}

// The frame that all of the bytes spell.
#[inline(always)]
fn whole(alloc: Global, bytes: &[u8]) -> Result<Frame, Refusal>
    ensures { Decodes result (whole_at frame.read bytes.now) }
{
    let mut reader = Reader::new(bytes);
    match reader.u8() {
        DATA => whole_data(reader),
        ACK => whole_ack(reader),
        WIDE_DATA => whole_wide(alloc, reader),
        _ => Err(Refusal::BadFrame),
    }
}

/// What a letter with references and bytes says before them, and how many it has.
#[derive(Clone, Copy)]
pub struct LetterHead {
    pub from: u8,
    pub to: u8,
    pub number: u64,
    pub stamp: u64,
    /// How many references it has.
    pub references: usize,
    /// How many bytes it has.
    pub bytes: usize,
}

/// What the letter that the bytes spell says, without its label and its bytes. Its references are
/// put into the first places of `row`. Nothing is allocated, so this is for a letter for which
/// memory ran out. If the bytes spell no letter, the result means nothing.
pub fn read_letter_head(bytes: &[u8], row: &mut [Option<Ref>]) -> LetterHead
    requires { length row.old ≡ 255 }
    ensures value { (from to number stamp label : ℕ) (references : List (Option Ref))
        (text : List ℕ) → let f = data_frame from to number stamp
        (body.Post label references text) in
        Fits f → bytes.now ≡ spelling f
        → IsHead result from to number stamp (length references) (length text)
        × (take result.references row.new ≡ references) }
    ensures within { result.references ≤ length row.new }
{
    let mut reader = Reader::new(bytes);
    let _first = reader.u8();
    let (from, (to, number)) = read_head(&mut reader);
    let stamp = reader.u64();
    let _tag = reader.u8();
    let (_label, (count, text)) = read_letter(&mut reader, Version::Second, row);
    LetterHead {
        from,
        to,
        number,
        stamp,
        references: count,
        bytes: text.len(),
    }
}

/// The frame that the bytes spell, all of them. Only the references and bytes of a letter are
/// allocated, after everything else was checked.
///
/// # Errors
///
/// [`Refusal::BadFrame`] if the bytes spell no frame: something is missing or left over, or a byte
/// or a number isn't allowed there. [`Refusal::Memory`] if they spell a letter with references and
/// bytes, and an allocation fails.
#[inline(always)]
pub fn decode(alloc: Global, bytes: &[u8]) -> Result<Frame, Refusal>
    // What is read has that spelling.
    ensures found { IfOk result (λ f. Fits (plain f) × (bytes.now ≡ spelling (plain f))) }
    // What has a spelling is read.
    ensures only { (f : Plain) → Fits f → bytes.now ≡ spelling f → IsDecoded f result }
    ensures refused { IfErr result (λ e. e ≢ Memory → e ≡ BadFrame) }
    ensures last { IfErr result (λ e. e ≡ Memory → SpellLetter bytes.now) }
{
    whole(alloc, bytes)
}
