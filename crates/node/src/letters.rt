//! Reading the oldest letter, before the program accepts it. That is no event.
ghost use Rattle.std.specs.Prelude.{◌≡◌, Ok, Err, IfOk, IfErr};
ghost use Rattle.model.specs.Heaps.{heap_letter, heap_letter_bytes, heap_letter_part};

use crate::node::Node;
use ids::Refusal;
use model::Accepted;

impl Node {
    /// What the program is told when it accepts the oldest letter.
    ///
    /// It fails with [`Refusal::NoLetter`] if no letter waits.
    pub fn letter(&self) -> Result<Accepted, Refusal>
        ensures { result ≡ heap_letter self.now.core.local.heap }
    {
        self.core().letter()
    }

    /// The bytes of the oldest letter. It fails as [`Node::letter`] does.
    pub fn letter_bytes(&self) -> Result<&[u8], Refusal>
        ensures value { IfOk result (λ b. heap_letter_bytes self.now.core.local.heap ≡ Ok b.now) }
        ensures refused { IfErr result (λ e. heap_letter_bytes self.now.core.local.heap ≡ Err e) }
    {
        self.core().letter_bytes()
    }

    /// The first bytes of the oldest letter, this many of them. It fails as [`Node::letter`] does,
    /// and with [`Refusal::NoBytes`] if the letter has fewer bytes.
    pub fn letter_part(&self, count: usize) -> Result<&[u8], Refusal>
        ensures value { IfOk result
            (λ b. heap_letter_part self.now.core.local.heap count ≡ Ok b.now) }
        ensures refused { IfErr result
            (λ e. heap_letter_part self.now.core.local.heap count ≡ Err e) }
    {
        self.core().letter_part(count)
    }
}
