//! Whether nodes that are to share a wire can be the saved states of one moment. What each node has
//! received from each other one has to fit what that one keeps and what it has dropped.
ghost use Rattle.std.specs.Prelude.{◌≡◌, ◌<◌, ℕ, false, IfNone, IfSome, IsTrue, length};
ghost use Rattle.model.specs.State.{got_from};
ghost use Rattle.model.specs.View.{link_to};
ghost use Rattle.wire.specs.OneAge.{AreApart, AreOfOneAge, Fit, IsBetween};

use node::Node;

// The number of messages for the node `to` that were acknowledged and dropped. 0 if there is no
// such node.
fn dropped(sender: &Node, to: u8) -> u64
    ensures { result ≡ (link_to sender.now.core to).base }
{
    let links = sender.core().links();
    if to < links.width() {
        links.base(to)
    } else {
        0
    }
}

// Whether what the node `to` has received from the node `from` fits what that one keeps for it.
fn fit(sender: &Node, from: u8, receiver: &Node, to: u8) -> bool
    ensures fits { IsTrue result →
        IsBetween (link_to sender.now.core to) (got_from receiver.now.core.local from) }
    ensures apart { result ≡ false →
        IsBetween (link_to sender.now.core to) (got_from receiver.now.core.local from) → ⊥ }
{
    let got = receiver.core().taken_from(from);
    let base = dropped(sender, to);
    base <= got && got <= sender.core().appended(to)
}

// The first node that has received something from the node `from` that doesn't fit.
fn apart_from(nodes: &[Node], count: u8, from: u8) -> Option<u8>
    requires count { length nodes.now ≡ count }
    requires inside { from < count }
    ensures apart { IfSome result (λ to. AreApart nodes.now from to) }
    ensures fit { IfNone result ((to : ℕ) → Fit nodes.now from to) }
{
    for to in 0..count {
        let sender = &nodes[usize::from(from)];
        let receiver = &nodes[usize::from(to)];
        if !fit(sender, from, receiver, to) {
            return Some(to);
        }
    }
    None
}

/// The first two nodes that aren't of one moment, by their numbers: the sender of some messages and
/// their receiver.
pub fn first_apart(nodes: &[Node], count: u8) -> Option<(u8, u8)>
    requires count { length nodes.now ≡ count }
    ensures apart { IfSome result (λ p. AreApart nodes.now p.0 p.1) }
    ensures fit { IfNone result (AreOfOneAge nodes.now) }
{
    for from in 0..count {
        if let Some(to) = apart_from(nodes, count, from) {
            return Some((from, to));
        }
    }
    None
}
