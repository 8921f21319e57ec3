//! A node with the log of its events since the last save, if it keeps one.
ghost use Rattle.std.specs.Prelude.{◌≡◌, ◌&&◌, nat_le, false, true, unwrap_or, Ok, IfOk, OnErr};
ghost use Rattle.std.specs.Option.{option_map};
ghost use Rattle.model.specs.Collecting.{scanned_reference};
ghost use Rattle.model.specs.View.{NodeView, link_to};
ghost use Rattle.model.specs.declared.event.Answer.TheVariants as answers;
ghost use Rattle.model.specs.declared.event.Event.TheVariants as events;
ghost use Rattle.node.specs.Keeping.{AreKeptIn, met};
ghost use Rattle.node_log.specs.Noted.{Noted};
ghost use Rattle.node_store.specs.Acting.{Acted, is_old_ack, log_of};
ghost use Rattle.node_store.specs.Logs.{is_turn};
ghost use Rattle.node_store.specs.Noted.{IsLogged};

use ids::Refusal;
use model::{Answer, Event};
use node::Node;
use node_log::Log;
use std::alloc::AllocError;

/// A node, and the events since its last save if it keeps a log of them.
pub struct LoggedNode {
    /// The node. It is given its events by the calls below, which note them.
    pub node: Node,
    /// Whether a log is kept. If none is, what `log` holds means nothing.
    pub logs: bool,
    pub log: Log,
}

// Written out, so that the crates above need not prove again how each field is dropped.
impl Drop for LoggedNode {
    fn drop(self) {
        let LoggedNode {
            node: _,
            logs: _,
            log: _,
        } = self;
    }
}

/// Whether an event is `Next`. To the node's core each other event is itself.
#[inline(always)]
pub fn is_turn(event: &Event) -> bool
    ensures { result ≡ is_turn event.now }
{
    matches!(event, Event::Next { .. })
}

// What an event is to the node's core, if that is another event: `Next` of a message that waits is
// that message. It fails if the message is a letter with references and bytes that can't be
// copied.
fn turned<'a>(node: &Node, event: &Event<'a>) -> Result<Option<Event<'a>>, AllocError>
    ensures met { IfOk result (λ t. unwrap_or t event.now ≡ met node.now.early event.now) }
    ensures message { OnErr result
        (is_old_ack node.now.core (met node.now.early event.now) ≡ false) }
{
    let Event::Next { from } = *event else {
        return Ok(None);
    };
    let Some(frame) = node.waiting(from) else {
        return Ok(None);
    };
    let copy = frame.copy()?;
    Ok(Some(Event::Data(copy)))
}

// What an event is to the node's core, by what `turned` said of it.
fn meant<'a, 'b>(turned: &'b Option<Event<'a>>, event: &'b Event<'a>) -> &'b Event<'a>
    ensures { result.now ≡ unwrap_or turned.now event.now }
{
    match turned {
        Some(other) => other,
        None => event,
    }
}

// Whether an event is an acknowledgement of messages that were all acknowledged before. It changes
// nothing that is saved.
fn is_old_ack(node: &Node, event: &Event) -> bool
    ensures { result ≡ is_old_ack node.now.core event.now }
{
    match event {
        Event::Ack(ack) => is_acknowledged(node, ack.by, ack.number),
        _ => false,
    }
}

// Whether a node has acknowledged the messages up to this number.
fn is_acknowledged(node: &Node, by: u8, number: u64) -> bool
    ensures { result ≡ nat_le number (link_to node.now.core by).base }
{
    let links = node.core().links();
    let base = if by < links.width() {
        links.base(by)
    } else {
        0
    };
    number <= base
}

impl LoggedNode {
    /// The events that were noted. None if no log is kept, or if it is lost.
    pub fn events(&self) -> Option<&[u8]>
        ensures { option_map (λ b. b.now) result ≡ log_of self.now }
    {
        if self.logs { self.log.bytes() } else { None }
    }

    /// Gives the node an event, as [`Node::act`] does, and notes it if a log is kept, and the event
    /// is answered and changes what is saved. The log may be lost (see [`Log::note`]); no event is
    /// refused for that. If it is lost already, nothing is noted.
    #[tactic(auto, using(crate::proofs::Noting::logged_on))]
    pub fn act(&mut self, event: &Event) -> Result<Answer, Refusal>
        ensures acted { Acted self.old self.new event.now result }
        ensures kept { AreKeptIn self.new.node }
        ensures old { is_old_ack self.old.node.core (met self.old.node.early event.now) ≡ true
            → self.new.log ≡ self.old.log }
        ensures logged { (first : NodeView) → IsLogged (log_of self.old) first self.old.node.core
            → IsLogged (log_of self.new) first self.new.node.core }
    {
        if self.logs && self.log.is_kept() {
            self.act_noting(event)
        } else {
            self.node.act(event)
        }
    }

    /// The same for calls that are inlined, except for `Next` if a log is kept. An acknowledgement
    /// is noted even if it is of nothing new.
    #[inline(always)]
    pub fn act_plain(&mut self, event: Event) -> Result<Answer, Refusal>
        requires { (is_turn event && self.old.logs) ≡ false }
        ensures { Acted self.old self.new event.entry result }
    {
        let answer = self.node.act(&event)?;
        if answer.is_change() && self.logs {
            self.note(event);
        } else {
            drop(event);
        }
        Ok(answer)
    }

    /// Scans an object as [`Node::scan_own`] does, and notes that if a log is kept.
    #[inline(always)]
    pub fn scan_own(&mut self) -> bool
        ensures done { result ≡ true → Acted self.old self.new events.Scan
            (Ok (answers.Scanned (scanned_reference self.old.node.core.local))) }
        ensures unchanged { result ≡ false → self.new ≡ self.old }
    {
        if !self.node.scan_own() {
            return false;
        }
        if self.logs {
            self.note(Event::Scan);
        }
        true
    }

    // Notes an event, after a move, so that without a log the event need not be in memory.
    #[inline(always)]
    fn note(&mut self, event: Event)
        ensures stays { self.new ≡ record self.old { log = self.new.log } }
        ensures noted { Noted self.old.log self.new.log event.entry }
    {
        let noted = event;
        let _lost = self.log.note(&noted);
    }

    // Gives the node an event, with a log that isn't lost. It is a function of its own, so that a
    // node without a log doesn't pay for it.
    #[inline(never)]
    fn act_noting(&mut self, event: &Event) -> Result<Answer, Refusal>
        ensures acted { Acted self.old self.new event.now result }
        ensures kept { AreKeptIn self.new.node }
        ensures old { is_old_ack self.old.node.core (met self.old.node.early event.now) ≡ true
            → self.new.log ≡ self.old.log }
    {
        match turned(&self.node, event) {
            Ok(turned) => self.act_meaning(event, meant(&turned, event)),
            Err(AllocError) => self.act_losing(event),
        }
    }

    // The same, with what the event is to the node's core.
    fn act_meaning(&mut self, event: &Event, meant: &Event) -> Result<Answer, Refusal>
        requires { meant.now ≡ met self.old.node.early event.now }
        ensures acted { Acted self.old self.new event.now result }
        ensures kept { AreKeptIn self.new.node }
        ensures old { is_old_ack self.old.node.core (met self.old.node.early event.now) ≡ true
            → self.new.log ≡ self.old.log }
    {
        let is_old = is_old_ack(&self.node, meant);
        let answer = self.node.act(event)?;
        if is_old {
            return Ok(answer);
        }
        if answer.is_change() {
            let _lost = self.log.note(meant);
        }
        Ok(answer)
    }

    // The same if there is no memory for what the event is to the core. The log is lost if the
    // event changes what is saved.
    #[inline(never)]
    fn act_losing(&mut self, event: &Event) -> Result<Answer, Refusal>
        requires { is_old_ack self.old.node.core (met self.old.node.early event.now) ≡ false }
        ensures acted { Acted self.old self.new event.now result }
        ensures kept { AreKeptIn self.new.node }
        ensures old { is_old_ack self.old.node.core (met self.old.node.early event.now) ≡ true
            → self.new.log ≡ self.old.log }
    {
        let answer = self.node.act(event)?;
        if answer.is_change() {
            self.log.lose();
        }
        Ok(answer)
    }
}
