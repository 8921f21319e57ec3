//! Makes the ends of links from their parts. As after a save, all messages of such ends count as
//! released, and everything received may be acknowledged.
ghost use Rattle.std.specs.Prelude.{◌≡◌, ◌≢◌, ◌+◌, ◌≤◌, ◌↔◌, length, IsSome, IfSome, IfOk, IfErr, OnOk};
ghost use Rattle.ids.specs.declared.limits.TheConstants.{GREATEST_NUMBER};
ghost use Rattle.ids.specs.declared.refusal.Refusal.TheVariants.{BadImage, Memory};
ghost use Rattle.link.specs.Links.{IsLinks};
ghost use Rattle.link.specs.Parts.{links_given};

use crate::links::{Ends, Links};
use ids::Refusal;
use msg::Message;
use std::alloc::Global;
use std::collections::VecDeque;

/// What a saved node holds of the links between it and one node.
#[derive(Drop)]
pub struct LinkParts {
    /// The highest number that the node acknowledged.
    pub base: u64,
    /// The messages to the node after that one, the first one first.
    pub messages: VecDeque<Message>,
    /// The number of the last message received from the node.
    pub taken: u64,
}

impl Links {
    /// Makes the links of a saved node. For each node of its space, including itself, `parts` has
    /// what it holds of the links to and from that node, in order of the nodes' numbers. All of it
    /// counts as held by a saved state: the messages as released, and what was received as
    /// acknowledged. It takes time linear in the number of nodes, whatever the number of messages.
    ///
    /// It fails with [`Refusal::BadImage`] if there are more nodes than their numbers allow, or if
    /// a message or what was received has a number above [`GREATEST_NUMBER`](ids::GREATEST_NUMBER).
    /// It fails with [`Refusal::Memory`] if there is no memory for the links, whatever the parts
    /// are. Parts that are refused are dropped.
    pub fn from_parts(alloc: Global, parts: Vec<LinkParts>) -> Result<Links, Refusal>
        ensures made { IfOk result (λ l. l ≡ links_given parts.items) }
        ensures sound { OnOk result (IsLinks (links_given parts.items)) }
        ensures refused { IfErr result (λ e.
            e ≢ Memory → (e ≡ BadImage) × (IsLinks (links_given parts.items) → ⊥)) }
    {
        if parts.len() > usize::from(u8::MAX) {
            return Err(Refusal::BadImage);
        }
        let mut by_node = Vec::with_capacity(alloc, parts.len())?;
        for part in parts {
            let Some(ends) = Ends::from_parts(part) else {
                return Err(Refusal::BadImage);
            };
            by_node.push(ends)?;
        }
        Ok(Links { by_node })
    }
}
