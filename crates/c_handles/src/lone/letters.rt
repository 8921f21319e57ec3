//! The oldest letter of a node, before the program accepts it.
ghost use Rattle.std.specs.Prelude.{◌≡◌};
ghost use Rattle.c_handles.specs.Reads.{letter_bytes, letter_of};
ghost use Rattle.c_values.specs.Bytes.{WroteIf};

use super::LoneNode;
use crate::letters::{letter_bytes, letter_of};
use c_values::Fault;
use model::Accepted;

impl LoneNode {
    /// What the program will be told of the oldest letter. Fails with `NoLetter`.
    pub fn letter(&self) -> Result<Accepted, Fault>
        ensures { result ≡ letter_of self.now.node.core.local }
    {
        letter_of(&self.logged.node)
    }

    /// Writes the bytes of the oldest letter. Fails with `NoLetter`, and with `ShortBuffer`.
    pub fn letter_bytes(&self, buffer: &mut [u8], needed: &mut usize) -> Result<(), Fault>
        ensures { WroteIf (letter_bytes self.now.node.core.local) result buffer.old buffer.new
            needed.old needed.new }
    {
        letter_bytes(&self.logged.node, buffer, needed)
    }
}
