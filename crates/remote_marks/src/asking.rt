//! References that their owners are asked to mark. What was asked for is in one ordered set, so a
//! node sends one Mark of an object in a cycle. The end of the set records what to undo after a
//! failure.
ghost use Rattle.std.specs.Prelude.{◌≡◌, ℕ, List, [], ◌++◌, ◌+◌, ◌<◌, ◌≤◌, cond, length, option_to_list, IsTrue, IfOk, IfErr, OnOk, OnErr};
ghost use Rattle.std.specs.List.{AllByRecursion};
ghost use Rattle.ids.specs.declared.limits.TheConstants.{GREATEST_NODES, GREATEST_SENT};
ghost use Rattle.ids.specs.declared.names.Ref.{Ref as Reference};
ghost use Rattle.ids.specs.declared.refusal.Refusal.TheVariants.{Memory};
ghost use Rattle.model.specs.Shading.{filled, unasked, marks_for};
ghost use Rattle.link.specs.Links.{LinksView, IsLinks};
ghost use Rattle.remote_marks.specs.Asked.{IsAsked, IsRefused, IsSeen};

use crate::marks::{append_marks, retract_marks};
use crate::ref_set::RefSet;
use ids::{Ref, Refusal};
use link::Links;

/// Asks the owners of these references to mark them. Each that is another node's and wasn't asked
/// for before comes last in `asked`, once, and a Mark of this cycle comes last on the link to its
/// node, in the same order. The node's own are skipped. It returns how many were in `asked` before:
/// those after them have the new Marks.
///
/// It fails with [`Refusal::Memory`] if an allocation fails, and with [`Refusal::LinkSpent`] if a
/// Mark gets no number, which may show only after memory was needed for others. Everything is then
/// as it was.
#[inline(always)]
pub(crate) fn ask(
    asked: &mut RefSet,
    links: &mut Links,
    own: u8,
    cycle: u64,
    references: &[Option<Ref>],
) -> Result<usize, Refusal>
    requires nodes { AllByRecursion (λ r. r.node < length links.old.links)
        (filled references.now) }
    ensures before { IfOk result (λ before. before ≡ length asked.old.keys) }
    ensures done { let new = unasked own asked.old.keys (filled references.now) in
        OnOk result (IsAsked asked.old.keys new cycle links.old asked.new.keys links.new) }
    ensures few { length links.old.links ≤ GREATEST_NODES →
        OnOk result (length asked.new.keys ≤ length asked.old.keys + GREATEST_SENT) }
    ensures refused { let new = unasked own asked.old.keys (filled references.now) in
        IfErr result (IsRefused links.old (marks_for cycle new)) }
    ensures unchanged { OnErr result
        ((asked.new.keys ≡ asked.old.keys) × (links.new ≡ links.old)) }
    ensures width { length links.new.links ≡ length links.old.links }
    ensures sound { OnOk result (IsLinks links.new) }
{
    let before = vouch(asked, own, references)?;
    if let Err(refusal) = append_marks(links, cycle, &asked.as_slice()[before..]) {
        asked.truncate(before);
        return Err(refusal);
    }
    Ok(before)
}

/// Undoes what [`ask`] did, or several calls of it in a row: the references after the first
/// `before` are no longer asked for, and the Mark of each, which was appended last for its node, is
/// retracted. All of them must have Marks. It needs no memory, and its running time grows with the
/// number of references removed.
pub fn unask(asked: &mut RefSet, links: &mut Links, before: usize)
    ensures back { (keys new : List Reference) (cycle : ℕ) (was : LinksView) →
        before ≡ length keys → IsLinks was →
        IsAsked keys new cycle was asked.old.keys links.old →
        (asked.new.keys ≡ keys) × (links.new ≡ was) }
    ensures width { length links.new.links ≡ length links.old.links }
    ensures sound { IsLinks links.new }
{
    let kept = before.min(asked.len());
    retract_marks(links, &asked.as_slice()[kept..]);
    asked.truncate(kept);
}

/// Counts these references as asked for without asking, since the node that they came from has seen
/// to their Marks. Each that is another node's and wasn't asked for before comes last in `asked`,
/// once. The node's own are skipped. It returns how many were in `asked` before.
///
/// It fails with [`Refusal::Memory`] if an allocation fails; `asked` is then as it was.
#[inline(always)]
pub(crate) fn vouch(
    asked: &mut RefSet,
    own: u8,
    references: &[Option<Ref>],
) -> Result<usize, Refusal>
    ensures before { IfOk result (λ before. before ≡ length asked.old.keys) }
    ensures done { let new = unasked own asked.old.keys (filled references.now) in
        OnOk result (asked.new.keys ≡ asked.old.keys ++ new) }
    ensures refused { IfErr result (λ e. e ≡ Memory) }
    ensures unchanged { OnErr result (asked.new.keys ≡ asked.old.keys) }
{
    let known = asked.len();
    for reference in references {
        if let Err(refusal) = include(asked, own, *reference) {
            asked.truncate(known);
            return Err(refusal);
        }
    }
    Ok(known)
}

/// Counts a reference as asked for without asking: it comes last in `asked` if it is another node's
/// and wasn't asked for before. Otherwise, and without a reference, nothing changes.
///
/// It fails with [`Refusal::Memory`] if an allocation fails; `asked` is then as it was.
pub fn include(asked: &mut RefSet, own: u8, reference: Option<Ref>) -> Result<(), Refusal>
    ensures done { let new = unasked own asked.old.keys (option_to_list reference) in
        OnOk result (asked.new.keys ≡ asked.old.keys ++ new) }
    ensures refused { IfErr result (λ e. e ≡ Memory) }
    ensures unchanged { OnErr result (asked.new.keys ≡ asked.old.keys) }
{
    if let Some(reference) = reference
        && reference.node != own
    {
        asked.insert(reference)?;
    }
    Ok(())
}

/// Sees to these references: asks for them if Marks are due, as [`ask`] does, and otherwise vouches
/// for them, as [`vouch`] does. It returns how many were in `asked` before.
///
/// It fails with [`Refusal::Memory`] if an allocation fails, and with [`Refusal::LinkSpent`] if a
/// Mark gets no number, which may show only after memory was needed for others. Everything is then
/// as it was.
#[inline(always)]
pub fn see(
    asked: &mut RefSet,
    links: &mut Links,
    own: u8,
    cycle: u64,
    due: bool,
    references: &[Option<Ref>],
) -> Result<usize, Refusal>
    requires nodes { AllByRecursion (λ r. r.node < length links.old.links)
        (filled references.now) }
    ensures before { IfOk result (λ before. before ≡ length asked.old.keys) }
    ensures done { let new = unasked own asked.old.keys (filled references.now) in
        OnOk result (IsSeen due asked.old.keys new cycle links.old asked.new.keys links.new) }
    ensures few { length links.old.links ≤ GREATEST_NODES → IsTrue due →
        OnOk result (length asked.new.keys ≤ length asked.old.keys + GREATEST_SENT) }
    ensures refused { let new = unasked own asked.old.keys (filled references.now) in
        IfErr result (IsRefused links.old (marks_for cycle (cond due new []))) }
    ensures unchanged { OnErr result
        ((asked.new.keys ≡ asked.old.keys) × (links.new ≡ links.old)) }
    ensures width { length links.new.links ≡ length links.old.links }
    ensures sound { OnOk result (IsLinks links.new) }
{
    if due {
        ask(asked, links, own, cycle, references)
    } else {
        // (Called for its contract, which says that links are sound.)
        links.width();
        vouch(asked, own, references)
    }
}

/// Undoes what [`see`] did: the references after the first `before` are no longer asked for, and if
/// Marks were due, the Mark of each, which was appended last for its node, is retracted. It needs
/// no memory, and its running time grows with the number of references removed.
pub fn unsee(asked: &mut RefSet, links: &mut Links, due: bool, before: usize)
    ensures back { (keys new : List Reference) (cycle : ℕ) (was : LinksView) →
        before ≡ length keys → IsLinks was →
        IsSeen due keys new cycle was asked.old.keys links.old →
        (asked.new.keys ≡ keys) × (links.new ≡ was) }
    ensures width { length links.new.links ≡ length links.old.links }
{
    if due {
        unask(asked, links, before);
    } else {
        asked.truncate(before);
    }
}
