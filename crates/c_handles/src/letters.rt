//! The oldest letter of a node, before the program accepts it.
ghost use Rattle.std.specs.Prelude.{◌≡◌};
ghost use Rattle.c_handles.specs.Reads.{letter_bytes, letter_of};
ghost use Rattle.c_values.specs.Bytes.{WroteIf};

use c_values::{Fault, put};
use model::Accepted;
use node::Node;

/// What the program will be told of the oldest letter. Fails with `NoLetter`.
pub(crate) fn letter_of(node: &Node) -> Result<Accepted, Fault>
    ensures { result ≡ letter_of node.now.core.local }
{
    let letter = node.letter()?;
    Ok(letter)
}

/// Writes the bytes of the oldest letter. Fails with `NoLetter`, and with `ShortBuffer`.
pub(crate) fn letter_bytes(node: &Node, buffer: &mut [u8], needed: &mut usize) -> Result<(), Fault>
    ensures { WroteIf (letter_bytes node.now.core.local) result buffer.old buffer.new needed.old
        needed.new }
{
    let bytes = node.letter_bytes()?;
    put(bytes, buffer, needed)
}
