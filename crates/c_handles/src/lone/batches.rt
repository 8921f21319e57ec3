//! Batches of a node's events, which its caller stores behind an image.
ghost use Rattle.std.specs.Prelude.{◌≡◌};
ghost use Rattle.std.specs.Option.{option_map};
ghost use Rattle.disk_shelf.specs.Shelf.{record_of};
ghost use Rattle.c_values.specs.Bytes.{Wrote};
ghost use Rattle.c_handles.specs.Batches.{Batched, batch_of, size_of};
ghost use Rattle.c_handles.specs.Logs.{logging};

use super::LoneNode;
use super::images::counts_of;
use crate::Marked;
use c_values::Fault;
use disk_shelf::HEAD;
use node_store::GREATEST_LOG;
use std::alloc::Global;

impl LoneNode {
    /// Keeps the events from the next image on, or no more. If they are kept already, nothing
    /// changes. Memory is allocated only as events come.
    pub fn log(&mut self, on: bool)
        ensures { self.new ≡ logging on self.old }
    {
        if on && !self.logged.logs {
            self.logged.log.lose();
        }
        self.logged.logs = on;
    }

    // The events of the next batch. None if there is no log, if it is lost, or if what the last
    // image or batch holds doesn't count as saved.
    fn events(&self) -> Option<&[u8]>
        ensures { option_map (λ b. b.now) result ≡ batch_of self.now }
    {
        if !self.is_kept {
            return None;
        }
        let bytes = self.logged.events()?;
        if bytes.len() > GREATEST_LOG {
            return None;
        }
        Some(bytes)
    }

    /// The number of bytes of the next batch. Fails with `NoLog`.
    pub fn batch_size(&self) -> Result<usize, Fault>
        ensures { result ≡ size_of (batch_of self.now) }
    {
        match self.events() {
            Some(events) => Ok(HEAD + events.len()),
            None => Err(Fault::NoLog),
        }
    }

    /// Writes the events since the last image or batch as a batch, and returns its mark. Fails with
    /// `NoLog` if there is no log of them, or what that holds doesn't count as saved; with
    /// `Memory`; and with `ShortBuffer`.
    pub fn batch(&mut self, alloc: Global, buffer: &mut [u8], needed: &mut usize) -> Marked
        ensures { Batched self.old self.new result buffer.old buffer.new needed.old needed.new }
    {
        let Some(events) = self.events() else {
            return Err(Fault::NoLog);
        };
        let counts = counts_of(alloc, self.logged.node.core())?;
        put_batch(events, buffer, needed)?;
        // (called for its contract: no more counts as saved than was sent)
        let _summary = self.logged.node.state();
        self.counts = Some(counts);
        self.mark = self.mark.wrapping_add(1);
        self.is_changed = false;
        self.logged.log.clear();
        self.is_kept = false;
        self.gone.cover();
        Ok(self.mark)
    }
}

// Copies a batch to the front of the buffer: its length, and its events. Fails with `ShortBuffer`
// if they don't fit, and the buffer stays as it was. Either way `needed` is the number of bytes.
#[tactic(auto, unfolding(disk_shelf::specs::Shelf::record_of))]
fn put_batch(events: &[u8], buffer: &mut [u8], needed: &mut usize) -> Result<(), Fault>
    ensures { Wrote (record_of events.now) result buffer.old buffer.new needed.new }
{
    let end = HEAD + events.len();
    *needed = end;
    if buffer.len() < end {
        return Err(Fault::ShortBuffer);
    }
    buffer[..HEAD].copy_from_slice(&(events.len() as u64).to_be_bytes());
    buffer[HEAD..end].copy_from_slice(events);
    Ok(())
}
