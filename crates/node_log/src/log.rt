//! The events of a node since its last save, as bytes. A log that would become too long, or for
//! which there is no memory, is lost; the node's next save then writes its image.
ghost use Rattle.std.specs.Prelude.{◌≡◌, ◌≢◌, ◌≤◌, ◌+◌, ◌++◌, List, ℕ, [], length, None, OnOk, Some, IfErr, true, false};
ghost use Rattle.std.specs.Option.{option_map};
ghost use Rattle.std.specs.Prelude.{is_some};
ghost use Rattle.ids.specs.declared.refusal.Refusal.TheVariants.{Memory};
ghost use Rattle.event_bytes.specs.Entries.{entry};
ghost use Rattle.event_bytes.specs.Events.{entry_of, received_of};
ghost use Rattle.model.specs.declared.event.Event.{Event};
ghost use Rattle.node_log.specs.Noted.{Noted};

use codec::Piece;
use event_bytes::{add_event, encode_letter, letter_of, tail};
use ids::Refusal;
use model::Event;
use msg::Data;
use std::alloc::Global;
use std::marker::Model;

/// How long a log may become between two saves, in bytes.
pub const GREATEST_LOG: usize = 1 << 20;

/// The events of a node since its last save, one after another; or nothing, if they were lost.
pub struct Log {
    alloc: Global,
    bytes: Option<Vec<u8>>,
}

// Written out, so that the crates above need not prove again how each field is dropped.
impl Drop for Log {
    fn drop(self) {
        let Log { alloc: _, bytes: _ } = self;
    }
}

impl Model for Log {
    ghost use Rattle.std.specs.Prelude.{Option, List, ℕ};
    ghost use Rattle.std.specs.Option.{option_map};

    ghost Value = { Option (List ℕ) };

    ghost view = { λ l. option_map (λ v. v.items) l.bytes };
}

// Appends the start of an event's spelling, and its tail, which is empty for most events.
fn extend(bytes: &mut Vec<u8>, start: &[u8], tail: &[u8]) -> Result<(), Refusal>
    ensures extended { OnOk result
        (bytes.new.items ≡ bytes.old.items ++ (start.now ++ tail.now)) }
{
    if bytes.extend_from_slice(start).is_err() {
        return Err(Refusal::Memory);
    }
    if !tail.is_empty() && bytes.extend_from_slice(tail).is_err() {
        return Err(Refusal::Memory);
    }
    Ok(())
}

impl Log {
    /// An empty log. Nothing is allocated.
    pub fn new(alloc: Global) -> Log
        ensures { result ≡ Some [] }
    {
        Log {
            alloc,
            bytes: Some(Vec::new(alloc)),
        }
    }

    /// Whether the log has the events, so that they aren't lost.
    #[inline(always)]
    pub fn is_kept(&self) -> bool
        ensures { result ≡ is_some self.now }
    {
        self.bytes.is_some()
    }

    /// The bytes of the events, unless they were lost.
    pub fn bytes(&self) -> Option<&[u8]>
        ensures { option_map (λ b. b.now) result ≡ self.now }
    {
        match &self.bytes {
            Some(bytes) => Some(bytes.as_slice()),
            None => None,
        }
    }

    /// Adds an event. The log is lost if it would become longer than [`GREATEST_LOG`]. An event
    /// that brings more than 1 MiB always has that effect, so that the next save
    /// writes the image. Fails with `Memory` if an allocation fails; the log is lost then, and
    /// nothing else happens.
    // (It isn't inlined, so that without a log the event need not be in memory.)
    #[inline(never)]
    pub fn note(&mut self, event: &Event) -> Result<(), Refusal>
        ensures noted { Noted self.old self.new event.now }
        ensures added { OnOk result ((before : List ℕ) → self.old ≡ Some before
            → length before + length (entry.spell (entry_of event.now)) ≤ GREATEST_LOG
            → self.new ≡ Some (before ++ entry.spell (entry_of event.now))) }
        ensures refused { IfErr result (λ e. e ≡ Memory) }
    {
        if let Some(message) = letter_of(event) {
            return self.note_letter(message);
        }
        let Some(bytes) = &mut self.bytes else {
            return Ok(());
        };
        let mut piece = Piece::new();
        add_event(&mut piece, event);
        let start = piece.as_slice();
        let tail = tail(event);
        if start.len() + tail.len() > GREATEST_LOG - bytes.len().min(GREATEST_LOG) {
            self.bytes = None;
            return Ok(());
        }
        if extend(bytes, start, tail).is_err() {
            self.bytes = None;
            return Err(Refusal::Memory);
        }
        Ok(())
    }

    // Adds a letter with references and bytes that was received; see `note`.
    #[inline(never)]
    fn note_letter(&mut self, message: &Data) -> Result<(), Refusal>
        ensures noted { (e : Event) → entry_of e ≡ received_of message.now
            → Noted self.old self.new e }
        ensures added { OnOk result ((before : List ℕ) → self.old ≡ Some before
            → length before + length (entry.spell (received_of message.now)) ≤ GREATEST_LOG
            → self.new ≡ Some (before ++ entry.spell (received_of message.now))) }
        ensures refused { IfErr result (λ e. e ≡ Memory) }
    {
        let alloc = self.alloc;
        let Some(bytes) = &mut self.bytes else {
            return Ok(());
        };
        let Ok(spelled) = encode_letter(alloc, message) else {
            self.bytes = None;
            return Err(Refusal::Memory);
        };
        if spelled.len() > GREATEST_LOG - bytes.len().min(GREATEST_LOG) {
            self.bytes = None;
            return Ok(());
        }
        if extend(bytes, &spelled, &[]).is_err() {
            self.bytes = None;
            return Err(Refusal::Memory);
        }
        Ok(())
    }

    /// Loses the log. Call it after a change of the node that isn't one of its events.
    pub fn lose(&mut self)
        ensures { self.new ≡ None }
    {
        self.bytes = None;
    }

    /// Begins a new log, after a save; or loses the log, if none is to be kept.
    pub fn begin(&mut self, is_kept: bool)
        ensures kept { is_kept ≡ true → self.new ≡ Some [] }
        ensures lost { is_kept ≡ false → self.new ≡ None }
    {
        if is_kept {
            self.clear();
        } else {
            self.lose();
        }
    }

    /// Empties the log, also one that was lost. Call it after a save.
    pub fn clear(&mut self)
        ensures { self.new ≡ Some [] }
    {
        match self.bytes.take() {
            Some(bytes) => {
                let mut bytes = bytes;
                bytes.clear();
                self.bytes = Some(bytes);
            }
            None => self.bytes = Some(Vec::new(self.alloc)),
        }
    }
}
