//! Lists of values of one format. A list whose count exceeds the number of bytes left is rejected
//! before anything is allocated.
ghost use Rattle.std.specs.Prelude.{◌≡◌, ◌<◌, ◌≤◌, ◌+◌, ◌-◌, Bool, true, length, take, drop, is_none, IfOk, IfErr};
ghost use Rattle.std.specs.List.{list_all};
ghost use Rattle.ids.specs.declared.refusal.Refusal.TheVariants.{Memory};
ghost use Rattle.codec.specs.Formats.{Format, number4, number8, many, counted};
ghost use Rattle.codec.specs.Pieces.{AddsAll};
ghost use Rattle.codec.specs.declared.piece.TheConstants.{GREATEST_PIECE};
ghost use Rattle.codec.specs.Readers.{Reads};
ghost use Rattle.codec.specs.Reading.{IsLong};
ghost use Rattle.codec.specs.Writing.{Puts, PutsAll};
ghost use Rattle.codec.specs.Lengths.{number4_long, number8_long};
ghost use Rattle.frames.specs.declared.version.Version.{Version};
ghost use Rattle.frames.specs.declared.version.Version.TheVariants.{Second};
ghost use Rattle.frames.specs.Formats.{reference, optional};
ghost use Rattle.frames.specs.Lengths.{reference_long, optional_long};

use crate::tags::ABSENT;
use codec::{Piece, Reader, Writer};
use frames::Version;
use frames::writing::{add_optional, put_optional, put_reference};
use ids::{Ref, Refusal};
use std::alloc::Global;

/// An element of a list that is written.
pub(crate) trait Writable {
    /// How it is spelled.
    ghost written: { Format Self };

    /// Appends its spelling.
    fn put(&self, out: &mut Writer)
        ensures { Puts written out.old out.new self.now };

    ghost long: { IsLong written };
}

/// An element of a list that is read.
pub(crate) trait Readable: Sized + Drop {
    /// How it is spelled in each version, in wide spaces and in plain ones.
    ghost format: { Bool → Version → Format Self };

    /// The value at the front of what is left. Fails only with `Memory`, if an allocation fails. If
    /// there is no such value, the reader has failed.
    fn read(
        alloc: Global,
        wide: bool,
        version: Version,
        reader: &mut Reader,
    ) -> Result<Self, Refusal>
        ensures value { IfOk result (Reads (format wide version) reader.old reader.new) }
        ensures refused { IfErr result (λ e. e ≡ Memory) };
}

/// Appends the values one after another.
#[tactic(auto, using(crate::proofs::Joins::unwritten, crate::proofs::Joins::written_more))]
#[inline(always)]
pub(crate) fn put_all<T: Writable>(out: &mut Writer, parts: &[T])
    ensures { PutsAll T.written out.old out.new parts.now }
{
    for part in parts {
        part.put(out);
    }
}

/// Appends how many values there are, in four bytes, and the values.
#[tactic(auto, using(crate::proofs::Joins::both))]
pub(crate) fn put_counted<T: Writable>(out: &mut Writer, parts: &[T])
    ensures { Puts (counted number4 T.written) out.old out.new parts.now }
{
    if out.count(parts.len()) {
        put_all(out, parts);
    }
}

// How many registers are put together in one piece.
const AT_ONCE: usize = 8;

// How many empty registers are written at once.
const EMPTY_AT_ONCE: usize = 16;

#[inline(always)]
fn add_few(piece: &mut Piece, registers: &[Option<Ref>])
    requires few { length registers.now ≤ 8 }
    requires room { length piece.old + 112 ≤ GREATEST_PIECE }
    ensures { AddsAll (optional Second) 112 piece.old piece.new registers.now }
{
    for register in registers {
        add_optional(piece, *register);
    }
}

fn all_empty(registers: &[Option<Ref>]) -> bool
    ensures { result ≡ list_all is_none registers.now }
{
    registers.iter().all(|register| register.is_none())
}

#[tactic(auto, using(crate::proofs::Joins::piece_written))]
fn put_few(out: &mut Writer, registers: &[Option<Ref>])
    requires { length registers.now ≤ 8 }
    ensures { PutsAll (optional Second) out.old out.new registers.now }
{
    if registers.len() == AT_ONCE && all_empty(registers) {
        out.array([ABSENT; AT_ONCE]);
        return;
    }
    let mut piece = Piece::new();
    add_few(&mut piece, registers);
    out.append(piece.as_slice());
}

// Appends registers that are all empty.
fn put_empty(out: &mut Writer, registers: &[Option<Ref>])
    requires count { length registers.now ≡ 16 }
    requires empty { list_all is_none registers.now ≡ true }
    ensures { PutsAll (optional Second) out.old out.new registers.now }
{
    out.array([ABSENT; EMPTY_AT_ONCE]);
}

// Appends some registers from one on, and returns how many are then done.
#[inline(always)]
fn put_some(out: &mut Writer, registers: &[Option<Ref>], done: usize) -> usize
    requires { done < length registers.now }
    ensures more { done < result }
    ensures within { result ≤ length registers.now }
    ensures written { PutsAll (optional Second) out.old out.new
        (take (result - done) (drop done registers.now)) }
{
    let left = &registers[done..];
    if left.len() >= EMPTY_AT_ONCE && all_empty(&left[..EMPTY_AT_ONCE]) {
        put_empty(out, &left[..EMPTY_AT_ONCE]);
        return done + EMPTY_AT_ONCE;
    }
    let count = left.len().min(AT_ONCE);
    put_few(out, &left[..count]);
    done + count
}

/// Appends registers one after another. Most are empty, so a few are put together in one piece.
pub fn put_registers(out: &mut Writer, registers: &[Option<Ref>])
    ensures { PutsAll (optional Second) out.old out.new registers.now }
{
    let mut done = 0;
    while done < registers.len() {
        done = put_some(out, registers, done);
    }
}

impl Writable for u32 {
    ghost written = { number4 };

    fn put(&self, out: &mut Writer) {
        out.u32(*self);
    }

    ghost long = { number4_long };
}

impl Writable for u64 {
    ghost written = { number8 };

    fn put(&self, out: &mut Writer) {
        out.u64(*self);
    }

    ghost long = { number8_long };
}

impl Writable for Ref {
    ghost written = { reference Second };

    fn put(&self, out: &mut Writer) {
        put_reference(out, *self);
    }

    ghost long = { reference_long Second };
}

impl Writable for Option<Ref> {
    ghost written = { optional Second };

    #[inline(always)]
    fn put(&self, out: &mut Writer) {
        put_optional(out, *self);
    }

    ghost long = { optional_long Second };
}

impl Readable for u32 {
    ghost format = { λ _ _. number4 };

    fn read(
        _alloc: Global,
        _wide: bool,
        _version: Version,
        reader: &mut Reader,
    ) -> Result<u32, Refusal> {
        Ok(reader.u32())
    }
}

impl Readable for u64 {
    ghost format = { λ _ _. number8 };

    fn read(
        _alloc: Global,
        _wide: bool,
        _version: Version,
        reader: &mut Reader,
    ) -> Result<u64, Refusal> {
        Ok(reader.u64())
    }
}

/// This many values from the front of what is left, up to the first one that isn't there. If there
/// are fewer bytes than values, the reader fails and nothing is allocated. Fails with `Memory` if
/// an allocation fails.
#[tactic(auto, using(crate::proofs::Joins::lists))]
#[inline(always)]
pub(crate) fn many<T: Readable>(
    alloc: Global,
    wide: bool,
    version: Version,
    count: usize,
    reader: &mut Reader,
) -> Result<Vec<T>, Refusal>
    ensures value { IfOk result
        (λ v. Reads (many (T.format wide version) count) reader.old reader.new v.items) }
    ensures few { IfOk result (λ v. length v.items ≤ count) }
    ensures refused { IfErr result (λ e. e ≡ Memory) }
{
    reader.require(count);
    if !reader.is_open() {
        return Ok(Vec::new(alloc));
    }
    let mut parts = Vec::with_capacity(alloc, count)?;
    for _part in 0..count {
        if !reader.is_open() {
            break;
        }
        parts.push(T::read(alloc, wide, version, reader)?)?;
    }
    Ok(parts)
}

/// A number in four bytes, and that many values. It fails as [`many`] does.
#[tactic(auto, using(crate::proofs::Joins::counted_read))]
pub(crate) fn counted<T: Readable>(
    alloc: Global,
    wide: bool,
    version: Version,
    reader: &mut Reader,
) -> Result<Vec<T>, Refusal>
    ensures value { IfOk result
        (λ v. Reads (counted number4 (T.format wide version)) reader.old reader.new v.items) }
    ensures refused { IfErr result (λ e. e ≡ Memory) }
{
    let count = reader.u32();
    many(alloc, wide, version, count as usize, reader)
}
