//! Letters for whose references and bytes memory ran out, so that they never became messages. What
//! their frames say is tested as it is for a message, since a refusal comes before the lack of
//! memory.
ghost use Rattle.std.specs.Prelude.{◌≡◌, List, ℕ, length};
ghost use Rattle.model.specs.Steps.{may_take};
ghost use Rattle.msg.specs.declared.body.Body.TheVariants as body;
ghost use Rattle.msg.specs.declared.frame.Data.{Data};
ghost use Rattle.node.specs.Lacking.{IsOfLetter, Lacks};

use super::Core;
use super::parts::is_letter_size;
use super::taking::are_within;
use ids::{Ref, Refusal};
use link_ends::Offer;
use model::Answer;

/// What a node tests of a letter with references and bytes.
#[derive(Clone, Copy)]
pub struct LetterRef<'a> {
    pub from: u8,
    pub to: u8,
    pub number: u64,
    pub stamp: u64,
    pub references: &'a [Option<Ref>],
    /// How many bytes it has.
    pub bytes: usize,
}

impl Core {
    /// The answer to a letter for whose references and bytes memory ran out, which is what
    /// [`Node::act`](crate::Node::act) answers to its message if an allocation fails: the refusal
    /// of the first test that fails, or else `Memory`. A repeat needs no memory. Nothing changes.
    pub fn lack(&self, letter: &LetterRef) -> Result<Answer, Refusal>
        ensures { (d : Data) → IsOfLetter letter.now d → Lacks self.now d result }
    {
        if !self.is_addressed(letter.from, letter.to) {
            return Err(Refusal::WrongNode);
        }
        match self.links.offer(letter.from, letter.number)? {
            Offer::Repeat => return Ok(Answer::Repeat),
            Offer::Early => return Err(Refusal::Memory),
            Offer::Next => {}
        }
        if !self.may_take_letter(letter) {
            return Err(Refusal::WrongNode);
        }
        Err(Refusal::Memory)
    }

    fn may_take_letter(&self, letter: &LetterRef) -> bool
        ensures { (label : ℕ) (bytes : List ℕ) → length bytes ≡ letter.now.bytes
            → result ≡ may_take self.now.local letter.now.from letter.now.stamp
            (body.Post label letter.now.references.now bytes) }
    {
        self.may_reach(letter.stamp)
            && (are_within(self.shape, letter.references)
                && (self.shape.is_wide()
                    && is_letter_size(self.shape, letter.references.len(), letter.bytes)))
    }
}
