//! Marks on links, appended for all of some references or for none. Those that were appended last
//! can be retracted; this is how a refused event leaves the links as they were.
ghost use Rattle.std.specs.Prelude.{◌≡◌, ℕ, true, [], ◌∷◌, ◌<◌, length, map, IfErr, OnOk, OnErr};
ghost use Rattle.std.specs.List.{AllByRecursion};
ghost use Rattle.model.specs.Shading.{mark_for, marks_for};
ghost use Rattle.model.specs.Steps.{fits};
ghost use Rattle.model.specs.View.{used};
ghost use Rattle.link.specs.Links.{LinksView, IsLinks, retracted_to};
ghost use Rattle.remote_marks.specs.Asked.{AreSent, IsRefused, all_appended};

use ids::{Ref, Refusal};
use link::Links;
use msg::{Body, Message};

/// Appends a Mark of this cycle for each of these references, in order: it comes last on the link
/// to the reference's node.
///
/// It fails with [`Refusal::Memory`] if an allocation fails, and with [`Refusal::LinkSpent`] if a
/// Mark gets no number, which may show only after memory was needed for others. The links are then
/// as they were, without any of these Marks.
pub fn append_marks(links: &mut Links, cycle: u64, targets: &[Ref]) -> Result<(), Refusal>
    requires nodes { AllByRecursion (λ r. r.node < length links.old.links) targets.now }
    ensures done { OnOk result (AreSent (marks_for cycle targets.now) links.old links.new) }
    ensures refused { IfErr result (IsRefused links.old (marks_for cycle targets.now)) }
    ensures unchanged { OnErr result (links.new ≡ links.old) }
    ensures width { length links.new.links ≡ length links.old.links }
    ensures sound { IsLinks links.new }
{
    let width = links.width();
    for sent in 0..targets.len() {
        let target = targets[sent];
        prove!(target.node < width);
        if let Err(refusal) = append_mark(links, cycle, target) {
            retract_marks(links, &targets[..sent]);
            return Err(refusal);
        }
    }
    Ok(())
}

fn append_mark(links: &mut Links, cycle: u64, target: Ref) -> Result<(), Refusal>
    requires { target.node < length links.old.links }
    ensures done { OnOk result (AreSent (mark_for cycle target ∷ []) links.old links.new) }
    ensures refused { IfErr result (IsRefused links.old (mark_for cycle target ∷ [])) }
    ensures unchanged { OnErr result (links.new ≡ links.old) }
    ensures sound { IsLinks links.new }
{
    let mark = Message {
        stamp: cycle,
        body: Body::Mark { target },
    };
    links.append(target.node, mark)?;
    Ok(())
}

/// Retracts the Marks of these references, provided that they were appended last, in this order. It
/// needs no memory.
pub fn retract_marks(links: &mut Links, targets: &[Ref])
    ensures back { (cycle : ℕ) (was : LinksView) → IsLinks was →
        links.old ≡ all_appended was (marks_for cycle targets.now) → links.new ≡ was }
    ensures width { length links.new.links ≡ length links.old.links }
    ensures sound { IsLinks links.new }
{
    let width = links.width();
    let mut left = targets.len();
    while left > 0 {
        left -= 1;
        retract_mark(links, width, targets[left].node);
    }
}

// A node that has no link is skipped.
#[tactic(auto, using(crate::proofs::Sent::retracted_past))]
fn retract_mark(links: &mut Links, width: u8, node: u8)
    requires width { width ≡ length links.old.links }
    requires sound { IsLinks links.old }
    ensures done { links.new ≡ retracted_to links.old node }
    ensures sound { IsLinks links.new }
{
    if node < width {
        links.retract(node);
    }
}
