//! Makes a node of its image and the batches that its caller stored behind it.
ghost use Rattle.std.specs.Prelude.{◌≡◌, ◌≢◌, ◌≤◌, ◌+◌, List, ℕ, drop, length, IfErr, IfOk, IfSome, OnOk};
ghost use Rattle.std.specs.Option.{option_map};
ghost use Rattle.disk_shelf.specs.Shelf.{recorded};
ghost use Rattle.node.specs.Keeping.{WholeNode};
ghost use Rattle.node_store.specs.Values.{IsAlone};
ghost use Rattle.c_handles.specs.Batches.{IsStored, LogLeads, Reopened};

use super::LoneNode;
use c_values::Fault;
use disk_shelf::{GREATEST_SAVED, HEAD, Persist};
use ids::Refusal;
use node::Node;
use node_store::Images;
use std::alloc::Global;

/// An image and batches are those of at most one node. The function does nothing; its contract
/// states the law.
pub fn stored_once()
    ensures { (image batches : List ℕ) (m n : WholeNode) → IsStored image batches m
        → IsStored image batches n → m ≡ n }
{}

impl LoneNode {
    /// The node of an image and of the batches that follow it, which keeps a log from then on.
    /// Fails with `BadImage` if the bytes are those of no node, and with `Memory`.
    pub fn reopen(
        alloc: Global,
        image: &[u8],
        batches: &[u8],
        limit: u64,
    ) -> Result<LoneNode, Fault>
        ensures { Reopened image.now batches.now limit result }
    {
        let node = stored(alloc, image, batches)?;
        let mut lone = LoneNode::of(alloc, node, limit);
        lone.logged.logs = true;
        lone.is_kept = Images::has_log(image);
        Ok(lone)
    }
}

// The node of an image and of the batches that follow it.
fn stored(alloc: Global, image: &[u8], batches: &[u8]) -> Result<Node, Refusal>
    ensures stored { IfOk result (λ n. IsStored image.now batches.now n) }
    ensures refused { IfErr result (λ e. e ≢ Refusal.Memory → (e ≡ Refusal.BadImage)
        × ((n : WholeNode) → IsStored image.now batches.now n → ⊥)) }
{
    let mut node = Images::from_bytes(alloc, image)?;
    if batches.len() == 0 {
        return Ok(node);
    }
    if !Images::has_log(image) {
        return Err(Refusal::BadImage);
    }
    redo_all(&mut node, batches)?;
    Ok(node)
}

// Performs the batches.
fn redo_all(node: &mut Node, batches: &[u8]) -> Result<(), Refusal>
    requires { IsAlone node.old }
    ensures led { OnOk result (LogLeads batches.now node.old node.new) }
    ensures refused { IfErr result (λ e. e ≢ Refusal.Memory → (e ≡ Refusal.BadImage)
        × ((last : WholeNode) → LogLeads batches.now node.old last → ⊥)) }
{
    let mut rest = batches;
    while rest.len() > 0 {
        let Some(batch) = first_batch(rest) else {
            return Err(Refusal::BadImage);
        };
        Images::redo(node, batch)?;
        rest = behind(rest, HEAD + batch.len());
    }
    Ok(())
}

// What follows the first bytes.
fn behind(bytes: &[u8], count: usize) -> &[u8]
    requires { count ≤ length bytes.now }
    ensures { result.now ≡ drop count bytes.now }
{
    &bytes[count..]
}

// The first of these batches, which comes after its length. None if there is no whole one.
fn first_batch(bytes: &[u8]) -> Option<&[u8]>
    ensures found { option_map (λ b. b.now) result ≡ recorded bytes.now }
    ensures within { IfSome result (λ b. 8 + length b.now ≤ length bytes.now) }
{
    if bytes.len() < HEAD {
        return None;
    }
    let mut head = [0; HEAD];
    head.copy_from_slice(&bytes[..HEAD]);
    let len = u64::from_be_bytes(head);
    if len > GREATEST_SAVED {
        return None;
    }
    let left = bytes.len() as u64 - HEAD as u64;
    if left < len {
        return None;
    }
    Some(&bytes[HEAD..HEAD + len as usize])
}
