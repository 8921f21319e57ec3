//! Lines of `run` about bytes of objects and of letters. Only wide spaces have them.
ghost use Rattle.std.specs.Prelude.{◌≡◌, IfOk, string_bytes, vec_len};
ghost use Rattle.commands.specs.Script.{hex_bytes};
ghost use Rattle.markring.specs.Told.{IsLetter, IsSpelled, IsWritten, Spells, SpellsSome};

use crate::asking::act;
use crate::running::{Told, told_of};
use commands::{Writing, bytes_spelled, text_of_bytes};
use disk::Disk;
use hex::FromHexError;
use ids::Refusal;
use std::alloc::Global;
use std::sync::Wait;
use supervisor::Space;

/// What lines about bytes need: memory, and whether the space is wide.
#[derive(Clone, Copy)]
pub(crate) struct Bytes {
    pub(crate) alloc: Global,
    pub(crate) wide: bool,
}

/// Gives a node the event that writes or sends the bytes that the word spells.
pub(crate) fn write<R: Wait, D: Disk + Drop>(
    rt: &R,
    space: &Space<D>,
    alloc: Global,
    node: u8,
    writing: Writing,
    word: &str,
) -> Told
    ensures { IsWritten (hex_bytes word.now) result }
{
    match bytes_spelled(alloc, word) {
        Ok(spelled) => told_of(act(rt, space, node, &writing.event(spelled.as_slice()))),
        Err(FromHexError::OutOfMemory) => Told::Refused(Refusal::Memory),
        Err(_) => Told::NoCommand,
    }
}

/// The text of a count of bytes of an object, from an offset on, or why it can't be read.
pub(crate) fn read<R: Wait, D: Disk + Drop>(
    rt: &R,
    space: &Space<D>,
    alloc: Global,
    node: u8,
    object: u16,
    offset: u32,
    count: u32,
) -> Told
    ensures { IsSpelled count result }
{
    match text(rt, space, alloc, node, object, offset, count) {
        Ok(text) => Told::Bytes(text),
        Err(refusal) => Told::Refused(refusal),
    }
}

fn text<R: Wait, D: Disk + Drop>(
    rt: &R,
    space: &Space<D>,
    alloc: Global,
    node: u8,
    object: u16,
    offset: u32,
    count: u32,
) -> Result<String, Refusal>
    ensures { IfOk result (λ text. Spells count (string_bytes text)) }
{
    let Some(program) = space.program(node) else {
        return Err(Refusal::NoNode);
    };
    // No buffer is made for more bytes than there are.
    if count > program.bytes_len(rt, object)? {
        return Err(Refusal::NoBytes);
    }
    let mut buffer = zeros(alloc, count as usize)?;
    program.bytes(rt, object, offset, buffer.as_mut_slice())?;
    Ok(text_of_bytes(alloc, buffer.as_slice())?)
}

// This many zeros.
fn zeros(alloc: Global, count: usize) -> Result<Vec<u8>, Refusal>
    ensures { IfOk result (λ bytes. vec_len bytes ≡ count) }
{
    let mut bytes = Vec::new(alloc);
    bytes.resize(count, 0)?;
    Ok(bytes)
}

/// The text of the bytes of a node's oldest letter, or why they can't be read.
pub(crate) fn letter<R: Wait, D: Disk + Drop>(
    rt: &R,
    space: &Space<D>,
    alloc: Global,
    node: u8,
) -> Told
    ensures { IsLetter result }
{
    match letter_text(rt, space, alloc, node) {
        Ok(text) => Told::Bytes(text),
        Err(refusal) => Told::Refused(refusal),
    }
}

fn letter_text<R: Wait, D: Disk + Drop>(
    rt: &R,
    space: &Space<D>,
    alloc: Global,
    node: u8,
) -> Result<String, Refusal>
    ensures { IfOk result (λ text. SpellsSome (string_bytes text)) }
{
    let Some(program) = space.program(node) else {
        return Err(Refusal::NoNode);
    };
    // No other thread accepts letters, so the oldest one is the same in both calls.
    let letter = program.letter(rt)?;
    let mut buffer = zeros(alloc, letter.length)?;
    program.letter_bytes(rt, buffer.as_mut_slice())?;
    Ok(text_of_bytes(alloc, buffer.as_slice())?)
}
