//! Parses bytes into the parts of a node. Each value is checked against the limits of its kind;
//! whether the parts fit together is checked later.
ghost use Rattle.std.specs.Prelude.{◌≡◌, ◌≤◌, ◌==◌, ◌&&◌, true, false, drop, length, Some, IfOk, IfErr, ◌↔◌, IsTrue};
ghost use Rattle.ids.specs.declared.refusal.Refusal.TheVariants.{BadImage, Memory};
ghost use Rattle.ids.specs.declared.limits.TheConstants.{GREATEST_BYTES, GREATEST_PLACES};
ghost use Rattle.codec.specs.Formats.{byte, number4, bytes4, ◌&◌, behind, many, whole_at};
ghost use Rattle.frames.specs.Formats.{body_format};
ghost use Rattle.codec.specs.Reading.{Gives};
ghost use Rattle.codec.specs.Readers.{Reads, Takes};
ghost use Rattle.image_parts.specs.Grammar.{reports_told, layouts, layout_format, start_format, most_nodes};
ghost use Rattle.image_parts.specs.Grammar.{nodes_fit, nodes_format};
ghost use Rattle.image_parts.specs.Grammar.{head_format, phases_format, held_format, ring_format, near};
ghost use Rattle.image_parts.specs.Grammar.{near_optional, width_format, places_format, bytes_format};
ghost use Rattle.image_parts.specs.Grammar.{only_wide_at, parts_format, parts_of};
ghost use Rattle.image_parts.specs.Grammar.{occupied_at, slot_format, letter_format, message_format, more_format};
ghost use Rattle.image_parts.specs.Grammar.{link_format, front_format, told_format, slots_format};
ghost use Rattle.image_parts.specs.Grammar.{others_format, stored_format, image_format};
ghost use Rattle.image_parts.specs.Logs.{begins_logged, logged_at, version_in};
ghost use Rattle.image_parts.specs.Layouts.{IsTooLong, says_wide};
ghost use Rattle.image_parts.specs.Parts.{stored_of};

use crate::layout::Layout;
use crate::lists::{Readable, counted, many};
use crate::parts::{Head, PhasesParts, StoredLink, StoredNode};
use crate::tags::{
    ABSENT, FIRST, FREE, LOGGED, OCCUPIED, PRESENT, PRIVATE, REMEMBERED, RETIRED, SECOND,
    SHARED_REMEMBERED, SHARED_YOUNG, START, WIDE, WIDE_LOGGED, YOUNG,
};
use codec::Reader;
use cycles::Ring;
use frames::Version;
use frames::reading::{
    read_body, read_colour, read_generation, read_optional, read_reference, read_token,
    read_wide_body,
};
use heap::{HeapParts, Object, Slot, Slots};
use ids::{
    FIRST_VERSION_NODES, GREATEST_BYTES, GREATEST_IMAGE, GREATEST_NODES, GREATEST_PLACES, Ref,
    Refusal,
};
use model::{Age, Letter};
use msg::{Body, Frozen, Message, Token, body_fits, optional_fits};
use std::alloc::Global;
use std::collections::VecDeque;

// ---- what comes before the lists

// How many places and bytes an object has at most.
#[tactic(auto, using(crate::proofs::Joins::both_read))]
fn read_most(reader: &mut Reader) -> (u8, u32)
    ensures { Reads (byte & number4) reader.old reader.new result }
{
    let places = reader.u8();
    let bytes = reader.u32();
    (places, bytes)
}

// The layout of the version with this number.
#[tactic(auto, using(crate::proofs::Joins::tags))]
fn read_behind(number: u8, reader: &mut Reader) -> Layout
    ensures { Takes (behind layouts number) reader.old reader.new (Some result) }
{
    match number {
        FIRST => Layout::First,
        SECOND => Layout::Second,
        WIDE => {
            let (places, bytes) = read_most(reader);
            Layout::Wide { places, bytes }
        }
        _ => {
            reader.fail();
            Layout::First
        }
    }
}

#[tactic(auto, unfolding(crate::specs::Grammar::layout_format), using(crate::proofs::Joins::tags))]
fn read_layout(reader: &mut Reader) -> Layout
    ensures { Reads layout_format reader.old reader.new result }
{
    let number = reader.u8();
    read_behind(number, reader)
}

fn is_start(first: u8, second: u8) -> bool
    ensures { result ≡ (first == 0x4D && second == 0x52) }
{
    first == START[0] && second == START[1]
}

#[tactic(auto, unfolding(crate::specs::Grammar::start_format), using(crate::proofs::Joins::both_read, crate::proofs::Joins::passed, crate::proofs::Joins::made))]
fn read_start(reader: &mut Reader) -> Layout
    ensures { Reads start_format reader.old reader.new result }
{
    let first = reader.u8();
    let second = reader.u8();
    let layout = read_layout(reader);
    reader.check(is_start(first, second));
    layout
}

// How many nodes a space has at most.
fn most_nodes(version: Version) -> u8
    ensures { result ≡ most_nodes version }
{
    match version {
        Version::First => FIRST_VERSION_NODES,
        Version::Second => GREATEST_NODES,
    }
}

fn nodes_fit(version: Version, nodes: u8, own: u8) -> bool
    ensures { result ≡ nodes_fit version (nodes, own) }
{
    own < nodes && nodes <= most_nodes(version)
}

#[tactic(auto, unfolding(crate::specs::Grammar::nodes_format), using(crate::proofs::Joins::both_read, crate::proofs::Joins::passed))]
fn read_nodes(version: Version, reader: &mut Reader) -> (u8, u8)
    ensures { Reads (nodes_format version) reader.old reader.new result }
{
    let nodes = reader.u8();
    let own = reader.u8();
    reader.check(nodes_fit(version, nodes, own));
    (nodes, own)
}

#[tactic(auto, unfolding(crate::specs::Grammar::head_format), using(crate::proofs::Joins::both_read, crate::proofs::Joins::made))]
fn read_head(version: Version, reader: &mut Reader) -> Head
    ensures { Reads (head_format version) reader.old reader.new result }
{
    let (nodes, own) = read_nodes(version, reader);
    let registers = reader.u16();
    let slots = reader.u32();
    Head {
        nodes,
        own,
        registers,
        slots,
    }
}

#[tactic(auto, unfolding(crate::specs::Grammar::phases_format), using(crate::proofs::Joins::both_read, crate::proofs::Joins::made))]
fn read_phases(reader: &mut Reader) -> PhasesParts
    ensures { Reads phases_format reader.old reader.new result }
{
    let cycle = reader.u64();
    let ended = reader.u64();
    let swept = reader.u64();
    let cursor = reader.u32();
    PhasesParts {
        cycle,
        ended,
        swept,
        cursor,
    }
}

#[tactic(auto, unfolding(crate::specs::Grammar::held_format), using(crate::proofs::Joins::tags))]
fn read_held(reader: &mut Reader) -> Option<Token>
    ensures { Reads held_format reader.old reader.new result }
{
    match reader.u8() {
        ABSENT => None,
        PRESENT => Some(read_token(reader)),
        _ => {
            reader.fail();
            None
        }
    }
}

#[tactic(auto, unfolding(crate::specs::Grammar::ring_format), using(crate::proofs::Joins::both_read, crate::proofs::Joins::made))]
fn read_ring(reader: &mut Reader) -> Ring
    ensures { Reads ring_format reader.old reader.new result }
{
    let colour = read_colour(reader);
    let earlier = reader.i64();
    let recent = reader.i64();
    let token = read_held(reader);
    Ring::from_parts(colour, earlier, recent, token)
}

// ---- what the lists contain

#[tactic(auto, using(crate::proofs::Joins::passed))]
#[inline(always)]
fn read_near_optional(version: Version, reader: &mut Reader) -> Option<Ref>
    ensures { Reads (near_optional version) reader.old reader.new result }
{
    let reference = read_optional(reader, version);
    reader.check(optional_fits(reference));
    reference
}

#[tactic(auto, unfolding(crate::specs::Grammar::width_format), using(crate::proofs::Joins::tests))]
#[inline(always)]
fn read_width(reader: &mut Reader) -> u8
    ensures value { Reads width_format reader.old reader.new result }
    ensures within { result ≤ GREATEST_PLACES }
{
    let width = reader.u8();
    if width <= GREATEST_PLACES {
        return width;
    }
    reader.fail();
    0
}

#[tactic(auto, unfolding(crate::specs::Grammar::places_format), using(crate::proofs::Joins::counted_read))]
#[inline(always)]
fn read_places(
    alloc: Global,
    version: Version,
    reader: &mut Reader,
) -> Result<Vec<Option<Ref>>, Refusal>
    ensures value { IfOk result
        (λ v. Reads (places_format version) reader.old reader.new v.items) }
    ensures count { IfOk result (λ v. length v.items ≤ GREATEST_PLACES) }
    ensures refused { IfErr result (λ e. e ≡ Memory) }
{
    let width = read_width(reader);
    many(alloc, false, version, width as usize, reader)
}

// The bytes of an object of a wide space, which aren't copied yet.
#[tactic(auto, using(crate::proofs::Joins::tests))]
fn read_run<'a>(reader: &mut Reader<'a>) -> &'a [u8]
    ensures value { Reads (bytes_format true) reader.old reader.new result.now }
    ensures within { length result.now ≤ GREATEST_BYTES }
{
    let bytes = reader.bytes();
    if bytes.len() <= GREATEST_BYTES as usize {
        return bytes;
    }
    reader.fail();
    &[]
}

// The bytes of an object. Only in wide spaces are objects spelled with bytes.
#[tactic(auto, using(crate::proofs::Joins::none_read))]
#[inline(always)]
fn read_bytes(alloc: Global, wide: bool, reader: &mut Reader) -> Result<Vec<u8>, Refusal>
    ensures value { IfOk result (λ v. Reads (bytes_format wide) reader.old reader.new v.items) }
    ensures within { IfOk result (λ v. length v.items ≤ GREATEST_BYTES) }
    ensures refused { IfErr result (λ e. e ≡ Memory) }
{
    if !wide {
        return Ok(Vec::new(alloc));
    }
    Ok(Vec::from_slice(alloc, read_run(reader))?)
}

#[tactic(auto, unfolding(crate::specs::Grammar::parts_format), using(crate::proofs::Joins::both_read))]
#[inline(always)]
fn read_object(
    alloc: Global,
    wide: bool,
    version: Version,
    shared: bool,
    age: Age,
    reader: &mut Reader,
) -> Result<Object, Refusal>
    ensures value { IfOk result (λ o.
        Reads (parts_format wide version) reader.old reader.new (parts_of o)) }
    ensures kind { IfOk result (λ o. (o.shared ≡ shared) × (o.age ≡ age)) }
    ensures refused { IfErr result (λ e. e ≡ Memory) }
{
    let mark = reader.u64();
    let word = reader.u64();
    let bytes = read_bytes(alloc, wide, reader)?;
    let places = read_places(alloc, version, reader)?;
    match Object::from_parts(word, bytes, mark, places, shared, age) {
        Some(object) => Ok(object),
        None => unreachable!(),
    }
}

#[tactic(auto, unfolding(crate::specs::Grammar::occupied_at), using(crate::proofs::Joins::both_read, crate::proofs::Joins::made_of))]
#[inline(always)]
fn read_occupied(
    alloc: Global,
    wide: bool,
    version: Version,
    shared: bool,
    age: Age,
    reader: &mut Reader,
) -> Result<Slot<Object>, Refusal>
    ensures value { IfOk result
        (λ s. Takes (occupied_at wide version shared age) reader.old reader.new (Some s)) }
    ensures refused { IfErr result (λ e. e ≡ Memory) }
{
    let generation = read_generation(reader, version);
    let object = read_object(alloc, wide, version, shared, age, reader)?;
    Ok(Slot::Occupied(generation, object))
}

// A slot with an object that isn't both shared and old. Only wide spaces have such slots.
#[inline(always)]
fn read_only_wide(
    alloc: Global,
    wide: bool,
    version: Version,
    shared: bool,
    age: Age,
    reader: &mut Reader,
) -> Result<Slot<Object>, Refusal>
    ensures value { IfOk result
        (λ s. Takes (only_wide_at wide version shared age) reader.old reader.new (Some s)) }
    ensures refused { IfErr result (λ e. e ≡ Memory) }
{
    if wide {
        return read_occupied(alloc, true, version, shared, age, reader);
    }
    reader.fail();
    Ok(Slot::Retired)
}

// The same. It isn't inlined, since most objects are old.
#[inline(never)]
fn read_recent(
    alloc: Global,
    wide: bool,
    version: Version,
    shared: bool,
    age: Age,
    reader: &mut Reader,
) -> Result<Slot<Object>, Refusal>
    ensures value { IfOk result
        (λ s. Takes (only_wide_at wide version shared age) reader.old reader.new (Some s)) }
    ensures refused { IfErr result (λ e. e ≡ Memory) }
{
    read_only_wide(alloc, wide, version, shared, age, reader)
}

#[tactic(auto, unfolding(crate::specs::Grammar::slot_format), using(crate::proofs::Joins::tags))]
#[inline(always)]
fn read_slot(
    alloc: Global,
    wide: bool,
    version: Version,
    reader: &mut Reader,
) -> Result<Slot<Object>, Refusal>
    ensures value { IfOk result (Reads (slot_format wide version) reader.old reader.new) }
    ensures refused { IfErr result (λ e. e ≡ Memory) }
{
    match reader.u8() {
        FREE => Ok(Slot::Free(read_generation(reader, version))),
        OCCUPIED => read_occupied(alloc, wide, version, true, Age::Old, reader),
        RETIRED => Ok(Slot::Retired),
        PRIVATE => read_only_wide(alloc, wide, version, false, Age::Old, reader),
        YOUNG => read_recent(alloc, wide, version, false, Age::Young, reader),
        REMEMBERED => read_recent(alloc, wide, version, false, Age::Remembered, reader),
        SHARED_YOUNG => read_recent(alloc, wide, version, true, Age::Young, reader),
        SHARED_REMEMBERED => read_recent(alloc, wide, version, true, Age::Remembered, reader),
        _ => {
            reader.fail();
            Ok(Slot::Retired)
        }
    }
}

impl Readable for Ref {
    ghost format = { λ _. near };

    #[tactic(auto, using(crate::proofs::Joins::passed))]
    fn read(
        _alloc: Global,
        _wide: bool,
        version: Version,
        reader: &mut Reader,
    ) -> Result<Ref, Refusal> {
        let reference = read_reference(reader, version);
        reader.check(reference.fits());
        Ok(reference)
    }
}

impl Readable for Option<Ref> {
    ghost format = { λ _. near_optional };

    fn read(
        _alloc: Global,
        _wide: bool,
        version: Version,
        reader: &mut Reader,
    ) -> Result<Option<Ref>, Refusal> {
        Ok(read_near_optional(version, reader))
    }
}

// The bytes of a letter.
fn read_letter_bytes(alloc: Global, reader: &mut Reader) -> Result<Frozen<u8>, Refusal>
    ensures value { IfOk result (Reads bytes4 reader.old reader.new) }
    ensures refused { IfErr result (λ e. e ≡ Memory) }
{
    Ok(Frozen::new(alloc, reader.bytes())?)
}

// How many more references of a letter follow, and its bytes. Only in wide spaces are letters
// spelled with them.
#[tactic(auto, using(crate::proofs::Joins::both_read, crate::proofs::Joins::none_read))]
fn read_more(alloc: Global, wide: bool, reader: &mut Reader) -> Result<(u8, Frozen<u8>), Refusal>
    ensures value { IfOk result
        (λ x. Reads (more_format wide) reader.old reader.new (x.0, x.1)) }
    ensures refused { IfErr result (λ e. e ≡ Memory) }
{
    if !wide {
        return Ok((0, Frozen::empty()));
    }
    let more = reader.u8();
    let bytes = read_letter_bytes(alloc, reader)?;
    Ok((more, bytes))
}

impl Readable for Letter {
    ghost format = { letter_format };

    #[tactic(auto, unfolding(crate::specs::Grammar::letter_format), using(crate::proofs::Joins::both_read, crate::proofs::Joins::made))]
    fn read(
        alloc: Global,
        wide: bool,
        version: Version,
        reader: &mut Reader,
    ) -> Result<Letter, Refusal> {
        let from = reader.u8();
        let label = reader.u32();
        let reference = read_near_optional(version, reader);
        let (more, bytes) = read_more(alloc, wide, reader)?;
        Ok(Letter {
            from,
            label,
            reference,
            more,
            bytes,
        })
    }
}

// What a message says, in a wide space or a plain one.
#[inline(always)]
fn read_any_body(
    alloc: Global,
    wide: bool,
    version: Version,
    reader: &mut Reader,
) -> Result<Body, Refusal>
    ensures value { IfOk result (Reads (body_format wide version) reader.old reader.new) }
    ensures refused { IfErr result (λ e. e ≡ Memory) }
{
    if wide {
        return read_wide_body(alloc, reader, version);
    }
    Ok(read_body(reader, version))
}

impl Readable for Message {
    ghost format = { message_format };

    fn read(
        alloc: Global,
        wide: bool,
        version: Version,
        reader: &mut Reader,
    ) -> Result<Message, Refusal> {
        let stamp = reader.u64();
        let body = read_any_body(alloc, wide, version, reader)?;
        reader.check(body_fits(&body));
        Ok(Message { stamp, body })
    }
}

impl Readable for StoredLink {
    ghost format = { link_format };

    #[tactic(auto, unfolding(crate::specs::Grammar::link_format), using(crate::proofs::Joins::both_read, crate::proofs::Joins::made))]
    fn read(
        alloc: Global,
        wide: bool,
        version: Version,
        reader: &mut Reader,
    ) -> Result<StoredLink, Refusal> {
        let base = reader.u64();
        let unacknowledged = counted(alloc, wide, version, reader)?;
        let received = reader.u64();
        Ok(StoredLink {
            base,
            unacknowledged,
            received,
        })
    }
}

// ---- the whole

fn reports_told(head: Head) -> usize
    ensures { result ≡ reports_told head }
{
    if head.own == 0 {
        usize::from(head.nodes.saturating_sub(1))
    } else {
        0
    }
}

#[tactic(auto, unfolding(crate::specs::Grammar::front_format), using(crate::proofs::Joins::both_read))]
fn read_front(version: Version, reader: &mut Reader) -> (Head, (PhasesParts, Ring))
    ensures { Reads (front_format version) reader.old reader.new result }
{
    let head = read_head(version, reader);
    let phases = read_phases(reader);
    let ring = read_ring(reader);
    (head, (phases, ring))
}

// What the other nodes reported, and the registers.
#[tactic(auto, unfolding(crate::specs::Grammar::told_format), using(crate::proofs::Joins::both_read))]
fn read_told(
    alloc: Global,
    version: Version,
    head: Head,
    reader: &mut Reader,
) -> Result<(Vec<u64>, Vec<Option<Ref>>), Refusal>
    ensures value { IfOk result (λ x. Reads (told_format version head) reader.old reader.new
        (x.0.items, x.1.items)) }
    ensures refused { IfErr result (λ e. e ≡ Memory) }
{
    let reports = many(alloc, false, version, reports_told(head), reader)?;
    let registers = many(alloc, false, version, usize::from(head.registers), reader)?;
    Ok((reports, registers))
}

// This many slots, up to the first one that isn't there. If there are fewer bytes than slots, the
// reader fails and nothing is allocated.
#[tactic(auto, using(crate::proofs::Joins::lists))]
#[inline(always)]
fn read_each_slot(
    alloc: Global,
    wide: bool,
    version: Version,
    count: u32,
    reader: &mut Reader,
) -> Result<Slots<Object>, Refusal>
    ensures value { IfOk result
        (λ s. Reads (many (slot_format wide version) count) reader.old reader.new s.items) }
    ensures refused { IfErr result (λ e. e ≡ Memory) }
{
    let mut slots = Slots::new(alloc, count);
    reader.require(count as usize);
    // (a local copy, which nothing else refers to, stays in machine registers)
    let mut ahead = *reader;
    for _slot in 0..count {
        if !ahead.is_open() {
            break;
        }
        slots.push(read_slot(alloc, wide, version, &mut ahead)?)?;
    }
    *reader = ahead;
    Ok(slots)
}

// The same slots. The loop is there for each kind of space, which spares a test for each object.
fn read_slot_list(
    alloc: Global,
    wide: bool,
    version: Version,
    count: u32,
    reader: &mut Reader,
) -> Result<Slots<Object>, Refusal>
    ensures value { IfOk result
        (λ s. Reads (many (slot_format wide version) count) reader.old reader.new s.items) }
    ensures refused { IfErr result (λ e. e ≡ Memory) }
{
    if wide {
        read_each_slot(alloc, true, version, count, reader)
    } else {
        read_each_slot(alloc, false, version, count, reader)
    }
}

// The slots, and which of them are free and which grey.
fn read_slots(
    alloc: Global,
    wide: bool,
    version: Version,
    reader: &mut Reader,
) -> Result<(Slots<Object>, (Vec<u32>, Vec<u32>)), Refusal>
    ensures value { IfOk result (λ x. Reads (slots_format wide version) reader.old reader.new
        (x.0.items, (x.1.0.items, x.1.1.items))) }
    ensures refused { IfErr result (λ e. e ≡ Memory) }
{
    let count = reader.u32();
    let slots = read_slot_list(alloc, wide, version, count, reader)?;
    let free = counted(alloc, wide, version, reader)?;
    let grey = counted(alloc, wide, version, reader)?;
    Ok((slots, (free, grey)))
}

// The references that were asked for, the letters and the links.
#[tactic(auto, unfolding(crate::specs::Grammar::others_format), using(crate::proofs::Joins::both_read))]
fn read_others(
    alloc: Global,
    wide: bool,
    version: Version,
    head: Head,
    reader: &mut Reader,
) -> Result<(Vec<Ref>, (Vec<Letter>, Vec<StoredLink>)), Refusal>
    ensures value { IfOk result (λ x. Reads (others_format wide version head) reader.old reader.new
        (x.0.items, (x.1.0.items, x.1.1.items))) }
    ensures refused { IfErr result (λ e. e ≡ Memory) }
{
    let asked = counted(alloc, wide, version, reader)?;
    let letters = counted(alloc, wide, version, reader)?;
    let others = usize::from(head.nodes.saturating_sub(1));
    let links = many(alloc, wide, version, others, reader)?;
    Ok((asked, (letters, links)))
}

fn read_stored(
    alloc: Global,
    wide: bool,
    version: Version,
    reader: &mut Reader,
) -> Result<StoredNode, Refusal>
    ensures value { IfOk result
        (λ x. Reads (stored_format wide version) reader.old reader.new (stored_of x)) }
    ensures refused { IfErr result (λ e. e ≡ Memory) }
{
    let (head, (phases, ring)) = read_front(version, reader);
    let (reports, registers) = read_told(alloc, version, head, reader)?;
    let (slots, (free, grey)) = read_slots(alloc, wide, version, reader)?;
    let (asked, (letters, links)) = read_others(alloc, wide, version, head, reader)?;
    let heap = HeapParts {
        slots,
        free,
        registers,
        letters: VecDeque::from_vec(letters),
        grey,
    };
    Ok(StoredNode {
        head,
        phases,
        ring,
        reports,
        heap,
        asked,
        links,
    })
}

fn read_image(alloc: Global, reader: &mut Reader) -> Result<(Layout, StoredNode), Refusal>
    ensures value { IfOk result
        (λ x. Reads image_format reader.old reader.new (x.0, stored_of x.1)) }
    ensures refused { IfErr result (λ e. e ≡ Memory) }
{
    let layout = read_start(reader);
    let parts = read_stored(alloc, layout.is_wide(), layout.widths(), reader)?;
    Ok((layout, parts))
}

/// The layout of the bytes, and the parts that all of the bytes together say. The parts may
/// contradict each other, and then no node has them. Fails with `BadImage` if the bytes spell no
/// parts, and with `Memory` if an allocation fails. Memory and time are proportional to the number
/// of bytes.
pub fn whole(alloc: Global, bytes: &[u8]) -> Result<(Layout, StoredNode), Refusal>
    ensures { Gives (λ x. (x.0, stored_of x.1)) result (whole_at image_format.read bytes.now) }
{
    let mut reader = Reader::new(bytes);
    let image = read_image(alloc, &mut reader)?;
    if reader.finish() {
        Ok(image)
    } else {
        Err(Refusal::BadImage)
    }
}

/// Whether the bytes begin as the image of a node does behind which a log of events follows.
pub fn begins_logged(bytes: &[u8]) -> bool
    ensures { result ≡ begins_logged bytes.now }
{
    match bytes {
        [first, second, version, ..] => {
            *first == START[0]
                && (*second == START[1] && (*version == LOGGED || *version == WIDE_LOGGED))
        }
        _ => false,
    }
}

// Whether bytes that are an image are that of a node of a wide space.
fn says_wide(bytes: &[u8]) -> bool
    ensures { result ≡ says_wide bytes.now }
{
    match bytes {
        [_, _, version, ..] => *version == WIDE || *version == WIDE_LOGGED,
        _ => false,
    }
}

/// Whether these are more than [`GREATEST_IMAGE`] bytes, and not the image of a node of a wide
/// space.
pub fn is_too_long(bytes: &[u8]) -> bool
    ensures { IsTrue result ↔ IsTooLong (says_wide bytes.now) (length bytes.now) }
{
    bytes.len() as u64 > GREATEST_IMAGE && !says_wide(bytes)
}

// The version that the bytes would have if no log followed.
fn version_in(bytes: &[u8]) -> u8
    ensures { result ≡ version_in bytes.now }
{
    match bytes {
        [_, _, version, ..] => version.saturating_sub(1),
        _ => 0,
    }
}

/// The layout and the parts that all of the bytes together say, if they begin as [`begins_logged`]
/// tests. It fails as [`whole`] does.
pub fn whole_logged(alloc: Global, bytes: &[u8]) -> Result<(Layout, StoredNode), Refusal>
    ensures { Gives (λ x. (x.0, stored_of x.1)) result (logged_at bytes.now) }
{
    if !begins_logged(bytes) {
        return Err(Refusal::BadImage);
    }
    let mut reader = Reader::new(behind_start(bytes));
    let layout = read_behind(version_in(bytes), &mut reader);
    let parts = read_stored(alloc, layout.is_wide(), layout.widths(), &mut reader)?;
    if !reader.finish() {
        return Err(Refusal::BadImage);
    }
    Ok((layout, parts))
}

// What follows the start of an image.
fn behind_start(bytes: &[u8]) -> &[u8]
    ensures { result.now ≡ drop 3 bytes.now }
{
    if bytes.len() < 3 {
        return &[];
    }
    &bytes[3..]
}
