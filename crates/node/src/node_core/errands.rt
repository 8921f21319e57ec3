//! What an event asks of other nodes. An errand is the only part of an event that can run out of
//! memory or of a link's numbers. So it comes first, and all of it or nothing is done: an event
//! that is refused changes nothing.
//!
//! An errand asks before it marks. Room on the heap, the Marks and what else is sent can fail, and
//! can be undone. Marking objects, adding a letter and counting messages can't.
ghost use Rattle.std.specs.Prelude.{◌≡◌, ◌≢◌, ◌==◌, false, ◌+◌, ◌<◌, ◌≤◌, [], ◌∷◌, ◌++◌, true, cond, length, map, slice_index_or, IfOk, IfErr, OnOk, OnErr};
ghost use Rattle.std.specs.List.{AllByRecursion};
ghost use Rattle.ids.specs.declared.limits.TheConstants.{
  GREATEST_COUNTED,
  GREATEST_NODES,
  GREATEST_PLACES,
  GREATEST_SENT,
};
ghost use Rattle.ids.specs.declared.refusal.Refusal.TheVariants.{LinkSpent, Memory};
ghost use Rattle.model.specs.Collecting.{new_token};
ghost use Rattle.model.specs.Counting.{counted_marks, stamped};
ghost use Rattle.model.specs.References.{IsSendable, IsWithin};
ghost use Rattle.model.specs.Shading.{filled, make_all_grey, marks_for, unasked};
ghost use Rattle.model.specs.Steps.{fits};
ghost use Rattle.model.specs.View.{append_to, used};
ghost use Rattle.link.specs.Links.{IsLinks};
ghost use Rattle.cycles.specs.Balances.{IsBounded};
ghost use Rattle.remote_marks.specs.Asked.{AreSent, IsRefused, all_appended};
ghost use Rattle.node.specs.Cycles.{begins};
ghost use Rattle.node.specs.Errands.{
  HasEnds,
  HasFew,
  IsFit,
  MayJoin,
  Runs,
  bytes_in,
  errand,
  extra_ring,
  extra_sends,
  is_nothing,
  letters_in,
  listed,
  with_extra,
};
ghost use Rattle.node.specs.Sending.{report, told, with_sent};

use super::Core;
use cycles::{NEW_TOKEN, Ring, balance_of};
use heap::Heap;
use ids::{Ref, Refusal};
use link::Links;
use model::Letter;
use msg::{Body, Frozen, Message};
use remote_marks::{RefSet, see, unsee};
use std::alloc::AllocError;

/// What an errand does besides seeing to references.
#[derive(Clone, Copy)]
pub(super) enum Extra<'a> {
    Nothing,
    /// The object that turned grey last leaves the list, before the references are seen to.
    Scanned,
    /// A letter with at most one reference, and without bytes, is added.
    Letter {
        from: u8,
        label: u32,
        reference: Option<Ref>,
    },
    /// A letter with these references and bytes is added.
    Letters {
        from: u8,
        label: u32,
        references: &'a [Option<Ref>],
        bytes: &'a Frozen<u8>,
    },
    /// A Give is sent to a node, in answer to its Get.
    Answer {
        to: u8,
        label: u32,
        reference: Option<Ref>,
    },
    /// A Post without references is sent to a node, in answer to its Fetch.
    Report {
        to: u8,
        label: u32,
        bytes: &'a Frozen<u8>,
    },
    /// Node 0 sends the token of a new probe, and Begin to all others.
    Begins,
}

impl Core {
    /// Runs an errand, all of it or nothing. The node joins the cycle, unless it is in it or past
    /// it. It sees to the references: it sends Marks if they are `due`, and otherwise vouches for
    /// them. Then it does the `extra`.
    ///
    /// It fails with `Memory` if an allocation fails, and with `LinkSpent` if a message gets no
    /// number, which may show only after memory was needed for others. The node is then as it was.
    #[inline(always)]
    pub(super) fn run(
        &mut self,
        cycle: u64,
        due: bool,
        references: &[Option<Ref>],
        extra: Extra,
    ) -> Result<(), Refusal>
        requires joins { self.old.local.phases.cycle < cycle
            → MayJoin cycle self.old.local.phases }
        requires within { AllByRecursion (IsWithin self.old.local.shape) (filled references.now) }
        requires few { length references.now ≤ GREATEST_PLACES }
        requires extra { IsFit self.old.local.shape self.old.local.own extra }
        ensures { let w = errand cycle due (filled references.now) extra.entry self.old.local in
            Runs result w self.old self.new }
    {
        let own = self.own;
        let current = self.phases.cycle();
        if cycle > current {
            return self.run_joining(cycle, due, references, extra);
        }
        let met = while_marking(current, self.phases.ended(), references);
        if met.is_empty() && is_nothing(extra) {
            return Ok(());
        }
        let bytes = bytes_in(extra)?;
        self.heap.make_room(met.len(), letters_in(extra))?;
        let marks = send_out(
            &mut self.asked,
            &mut self.links,
            own,
            current,
            due,
            met,
            extra,
        )?;
        // From here on nothing can fail.
        mark(&mut self.heap, own, current, met, extra, bytes);
        count(&mut self.ring, current, marks, extra);
        Ok(())
    }

    /// Appends a message for the node `to`, counts it, and returns its number. It fails with
    /// `LinkSpent` if no number is left, and after that with `Memory` if an allocation fails. The
    /// node is then as it was.
    #[inline(always)]
    pub(crate) fn send(&mut self, to: u8, body: Body) -> Result<u64, Refusal>
        requires there { to < self.old.local.shape.nodes }
        requires other { to ≢ self.old.local.own }
        requires sendable { IsSendable self.old.local.shape (stamped self.old.local body) }
        ensures fits { IfOk result (λ n.
            fits (map used self.old.links) ((to, stamped self.old.local body) ∷ []) ≡ true) }
        ensures done { IfOk result (λ n. self.new ≡ with_sent self.old to body) }
        ensures number { IfOk result (λ n. n ≡ slice_index_or (map used self.old.links) to 0 + 1) }
        ensures refused { IfErr result (λ e. e ≢ Memory → (e ≡ LinkSpent)
            × (fits (map used self.old.links) ((to, stamped self.old.local body) ∷ []) ≡ false)) }
        ensures last { IfErr result (λ e. e ≡ Memory
            → fits (map used self.old.links) ((to, stamped self.old.local body) ∷ []) ≡ true) }
        ensures unchanged { OnErr result (self.new ≡ self.old) }
    {
        let cycle = self.phases.cycle();
        let balance = balance_of(cycle, cycle, &body);
        let message = Message { stamp: cycle, body };
        let number = self.links.append(to, message)?;
        self.ring.count_sent(balance);
        Ok(number)
    }

    /// Appends the same message, which isn't counted, for all other nodes: for all or for none. It
    /// fails with `LinkSpent` if one of them gets no number, and after that with `Memory` if an
    /// allocation fails. The node is then as it was.
    pub(super) fn tell(&mut self, body: Body) -> Result<(), Refusal>
        requires { IsSendable self.old.local.shape (stamped self.old.local body) }
        ensures fits { let sends = told self.old body in
            OnOk result (fits (map used self.old.links) sends ≡ true) }
        ensures done { let links = append_to self.old.links (told self.old body) in
            OnOk result (self.new ≡ record self.old { links = links }) }
        ensures refused { IfErr result (λ e. e ≢ Memory → (e ≡ LinkSpent)
            × (fits (map used self.old.links) (told self.old body) ≡ false)) }
        ensures last { IfErr result (λ e. e ≡ Memory
            → fits (map used self.old.links) (told self.old body) ≡ true) }
        ensures unchanged { OnErr result (self.new ≡ self.old) }
        ensures width { length self.old.links ≡ self.old.local.shape.nodes }
    {
        let stamp = self.phases.cycle();
        self.links.announce(self.own, &Message { stamp, body })?;
        Ok(())
    }
}

/// The references that are to be seen to: all of these, or none once marking has ended.
#[inline(always)]
fn while_marking(cycle: u64, ended: u64, references: &[Option<Ref>]) -> &[Option<Ref>]
    ensures { result.now ≡ cond (ended == cycle) [] references.now }
{
    if ended == cycle {
        &references[..0]
    } else {
        references
    }
}

/// Whether an errand only sees to references.
#[inline(always)]
fn is_nothing(extra: Extra) -> bool
    ensures { result ≡ is_nothing extra.entry }
{
    matches!(extra, Extra::Nothing)
}

/// How many letters the errand adds. One with several references counts once for each.
#[inline(always)]
pub(super) fn letters_in(extra: Extra) -> usize
    ensures { result ≡ letters_in extra.entry }
{
    match extra {
        Extra::Letter { .. } => 1,
        Extra::Letters { references, .. } => references.len().max(1),
        Extra::Nothing
        | Extra::Scanned
        | Extra::Answer { .. }
        | Extra::Report { .. }
        | Extra::Begins => 0,
    }
}

/// The bytes of the letter that the errand adds. It can fail as [`Frozen::share`] can.
#[inline(always)]
pub(super) fn bytes_in(extra: Extra) -> Result<Frozen<u8>, AllocError>
    ensures { IfOk result (λ b. b ≡ bytes_in extra.entry) }
{
    match extra {
        Extra::Letters { bytes, .. } => bytes.share(),
        Extra::Nothing
        | Extra::Scanned
        | Extra::Letter { .. }
        | Extra::Answer { .. }
        | Extra::Report { .. }
        | Extra::Begins => Ok(Frozen::empty()),
    }
}

/// The part of an errand that can fail: asks for the references or vouches for them, and then sends
/// what the extra says. All of it or nothing is done. It returns the number of Marks sent.
#[inline(always)]
#[tactic(auto, using(crate::proofs::Sends::sending))]
pub(super) fn send_out(
    asked: &mut RefSet,
    links: &mut Links,
    own: u8,
    cycle: u64,
    due: bool,
    references: &[Option<Ref>],
    extra: Extra,
) -> Result<usize, Refusal>
    requires nodes { AllByRecursion (λ r. r.node < length links.old.links)
        (filled references.now) }
    requires ends { HasEnds (length links.old.links) extra }
    requires many { length links.old.links ≤ GREATEST_NODES }
    ensures keys { let new = unasked own asked.old.keys (filled references.now) in
        OnOk result (asked.new.keys ≡ asked.old.keys ++ new) }
    ensures count { let new = unasked own asked.old.keys (filled references.now) in
        IfOk result (λ n. n ≡ length (cond due new [])) }
    ensures few { IfOk result (λ n. n ≤ GREATEST_SENT) }
    ensures done { let new = unasked own asked.old.keys (filled references.now) in
        let marks = marks_for cycle (cond due new []) in
        let sends = extra_sends own (length links.old.links) cycle extra.entry in
        OnOk result (AreSent (marks ++ sends) links.old links.new) }
    ensures marked { let new = unasked own asked.old.keys (filled references.now) in
        OnOk result (IsLinks (all_appended links.old (marks_for cycle (cond due new [])))) }
    ensures refused { let new = unasked own asked.old.keys (filled references.now) in
        let marks = marks_for cycle (cond due new []) in
        let sends = extra_sends own (length links.old.links) cycle extra.entry in
        IfErr result (IsRefused links.old (marks ++ sends)) }
    ensures unchanged { OnErr result
        ((asked.new.keys ≡ asked.old.keys) × (links.new ≡ links.old)) }
    ensures sound { OnOk result (IsLinks links.new) }
{
    // (Called for its contract, which says that links are sound.)
    links.width();
    let before = see(asked, links, own, cycle, due, references)?;
    if let Err(refusal) = send_extra(links, own, cycle, extra) {
        unsee(asked, links, due, before);
        return Err(refusal);
    }
    Ok(if due { asked.len() - before } else { 0 })
}

/// Sends what the extra says, all of it or nothing.
#[inline(always)]
fn send_extra(links: &mut Links, own: u8, cycle: u64, extra: Extra) -> Result<(), Refusal>
    requires { HasEnds (length links.old.links) extra }
    ensures done { OnOk result
        (AreSent (extra_sends own (length links.old.links) cycle extra.entry) links.old links.new) }
    ensures refused { IfErr result
        (IsRefused links.old (extra_sends own (length links.old.links) cycle extra.entry)) }
    ensures unchanged { OnErr result (links.new ≡ links.old) }
    ensures sound { IsLinks links.new }
{
    match extra {
        Extra::Answer {
            to,
            label,
            reference,
        } => {
            let body = Body::Give { label, reference };
            send_message(links, to, Message { stamp: cycle, body })
        }
        Extra::Report { to, label, bytes } => send_report(links, to, cycle, label, bytes),
        Extra::Begins => send_begins(links, own, cycle),
        Extra::Nothing | Extra::Scanned | Extra::Letter { .. } | Extra::Letters { .. } => {
            // (Called for its contract, which says that links are sound.)
            links.width();
            Ok(())
        }
    }
}

fn send_message(links: &mut Links, to: u8, message: Message) -> Result<(), Refusal>
    requires { to < length links.old.links }
    ensures done { OnOk result (AreSent ((to, message) ∷ []) links.old links.new) }
    ensures refused { IfErr result (IsRefused links.old ((to, message) ∷ [])) }
    ensures unchanged { OnErr result (links.new ≡ links.old) }
    ensures sound { IsLinks links.new }
{
    links.append(to, message)?;
    Ok(())
}

/// Sends a Post without references, with these bytes.
#[inline(never)]
fn send_report(
    links: &mut Links,
    to: u8,
    cycle: u64,
    label: u32,
    bytes: &Frozen<u8>,
) -> Result<(), Refusal>
    requires { to < length links.old.links }
    ensures done { OnOk result
        (AreSent ((to, report cycle label bytes.now) ∷ []) links.old links.new) }
    ensures refused { IfErr result
        (IsRefused links.old ((to, report cycle label bytes.now) ∷ [])) }
    ensures unchanged { OnErr result (links.new ≡ links.old) }
    ensures sound { IsLinks links.new }
{
    // (Called for its contract, which says that links are sound.)
    links.width();
    let body = Body::Post {
        label,
        references: Frozen::empty(),
        bytes: bytes.share()?,
    };
    send_message(links, to, Message { stamp: cycle, body })
}

/// Sends the token of a new probe to the last node, and announces the cycle to all nodes except
/// `own`: all of it or nothing.
#[tactic(auto, using(crate::proofs::Sends::sending))]
fn send_begins(links: &mut Links, own: u8, cycle: u64) -> Result<(), Refusal>
    requires { 0 < length links.old.links }
    ensures done { OnOk result (AreSent
        (begins own (length links.old.links) cycle new_token) links.old links.new) }
    ensures refused { IfErr result
        (IsRefused links.old (begins own (length links.old.links) cycle new_token)) }
    ensures unchanged { OnErr result (links.new ≡ links.old) }
    ensures sound { IsLinks links.new }
{
    let last = links.width() - 1;
    let token = Message {
        stamp: cycle,
        body: Body::Token(NEW_TOKEN),
    };
    links.append(last, token)?;
    let begin = Message {
        stamp: cycle,
        body: Body::Begin,
    };
    if let Err(refusal) = links.announce(own, &begin) {
        links.retract(last);
        return Err(refusal);
    }
    Ok(())
}

/// The part of an errand that is done on the heap, for which room was made.
#[inline(always)]
pub(super) fn mark(
    heap: &mut Heap,
    own: u8,
    cycle: u64,
    references: &[Option<Ref>],
    extra: Extra,
    bytes: Frozen<u8>,
)
    requires room { length references.now ≤ heap.old.room }
    requires letter_room { letters_in extra ≤ heap.old.letter_room }
    requires few { HasFew extra }
    requires bytes { bytes ≡ bytes_in extra }
    ensures heap { heap.new.heap ≡ with_extra extra.entry
        (make_all_grey own cycle (listed extra.entry heap.old.heap) (filled references.now)) }
    ensures limit { heap.new.limit ≡ heap.old.limit }
{
    leave_list(heap, extra);
    heap.shade(own, cycle, references);
    match extra {
        Extra::Letter {
            from,
            label,
            reference,
        } => heap.add_letter(Letter {
            from,
            label,
            reference,
            more: 0,
            bytes,
        }),
        Extra::Letters {
            from,
            label,
            references,
            ..
        } => heap.add_letters(from, label, references, bytes),
        Extra::Nothing
        | Extra::Scanned
        | Extra::Answer { .. }
        | Extra::Report { .. }
        | Extra::Begins => {}
    }
}

/// Takes the object that is scanned off the list of grey ones.
#[inline(always)]
fn leave_list(heap: &mut Heap, extra: Extra)
    ensures heap { heap.new.heap ≡ listed extra.entry heap.old.heap }
    ensures limit { heap.new.limit ≡ heap.old.limit }
    ensures room { heap.old.room ≤ heap.new.room }
    ensures letter_room { heap.new.letter_room ≡ heap.old.letter_room }
{
    match extra {
        Extra::Scanned => heap.pop_grey(),
        Extra::Nothing
        | Extra::Letter { .. }
        | Extra::Letters { .. }
        | Extra::Answer { .. }
        | Extra::Report { .. }
        | Extra::Begins => {}
    }
}

/// The part of an errand that is done on the ring: the messages sent are counted.
#[inline(always)]
pub(super) fn count(ring: &mut Ring, cycle: u64, marks: usize, extra: Extra)
    requires small { IsBounded GREATEST_COUNTED ring.old }
    requires few { marks ≤ GREATEST_SENT }
    requires counted { IsBounded GREATEST_COUNTED (counted_marks marks ring.old) }
    ensures { ring.new ≡ extra_ring cycle extra.entry (counted_marks marks ring.old) }
{
    ring.count_marks(marks as u64);
    match extra {
        Extra::Answer {
            label,
            reference,
            ..
        } => ring.count_sent(balance_of(cycle, cycle, &Body::Give { label, reference })),
        Extra::Report { label, .. } => {
            let reference = None;
            ring.count_sent(balance_of(cycle, cycle, &Body::Give { label, reference }));
        }
        Extra::Begins => {
            ring.probe();
        }
        Extra::Nothing | Extra::Scanned | Extra::Letter { .. } | Extra::Letters { .. } => {}
    }
}
