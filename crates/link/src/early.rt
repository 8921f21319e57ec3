//! Early messages, in places by their numbers. All room for them is allocated at the beginning, so
//! keeping one never fails.
ghost use Rattle.std.specs.Prelude.{◌≡◌, ◌<◌, length, option_copied, replicate, is_none, IfOk, IfErr};
ghost use Rattle.std.specs.List.{list_all};
ghost use Rattle.ids.specs.declared.limits.TheConstants.{WINDOW};
ghost use Rattle.ids.specs.declared.refusal.Refusal.TheVariants.{Memory};
ghost use Rattle.link.specs.Early.{no_early, place_at, placed, shifted, emptied};

use circular_buffer::HeapCircularBuffer;
use ids::{Refusal, WINDOW};
use msg::Data;
use std::alloc::Global;
use std::marker::Model;

/// The frames of one node's early messages: [`WINDOW`] places, each with a frame or empty. The
/// first place is that of the message to be received next, and the others are those of the messages
/// after it. Only making it allocates memory.
#[derive(Drop)]
pub struct EarlyFrames {
    places: HeapCircularBuffer<Option<Data>, Global>,
    // If it is true, no place has a frame, so removing the first one changes nothing.
    empty: bool,
}

impl Model for EarlyFrames {
    ghost use Rattle.std.specs.Prelude.{◌≡◌, List, Option, length, IsTrue};
    ghost use Rattle.ids.specs.declared.limits.TheConstants.{WINDOW};
    ghost use Rattle.msg.specs.declared.frame.Data.{Data};
    ghost use Rattle.link.specs.Early.{no_early};

    ghost Value = { List (Option Data) };

    ghost view = { λ e. e.places.items };

    ghost invariant = { λ e. (e.places.capacity ≡ WINDOW)
        × (length e.places.items ≡ WINDOW)
        × (IsTrue e.empty → e.places.items ≡ no_early) };
}

impl EarlyFrames {
    /// Makes empty places. It fails with [`Refusal::Memory`] if the room for them can't be
    /// allocated.
    pub fn new(alloc: Global) -> Result<EarlyFrames, Refusal>
        ensures made { IfOk result (λ e. e ≡ no_early) }
        ensures refused { IfErr result (λ e. e ≡ Memory) }
    {
        let mut places = HeapCircularBuffer::with_capacity(alloc, usize::from(WINDOW))?;
        for _place in 0..WINDOW {
            places.push_back(None);
        }
        Ok(EarlyFrames {
            places,
            empty: true,
        })
    }

    /// The same for each node of a space of `width` nodes.
    pub fn for_nodes(alloc: Global, width: u8) -> Result<Vec<EarlyFrames>, Refusal>
        ensures made { IfOk result (λ v. v.items ≡ replicate width no_early) }
        ensures refused { IfErr result (λ e. e ≡ Memory) }
    {
        let mut by_node = Vec::with_capacity(alloc, usize::from(width))?;
        for _node in 0..width {
            by_node.push(EarlyFrames::new(alloc)?)?;
        }
        Ok(by_node)
    }

    /// The frame in this place; `None` past the last place.
    #[tactic(auto, using(crate::proofs::Places::read_there, crate::proofs::Places::read_past))]
    pub fn at(&self, place: usize) -> Option<&Data>
        ensures { option_copied result ≡ place_at self.now place }
    {
        match self.places.get(place) {
            Some(entry) => entry.as_ref(),
            None => None,
        }
    }

    /// Puts a frame into its place. If a frame is there already, that one stays.
    #[tactic(auto, using(crate::proofs::Places::set_none))]
    pub fn put(&mut self, place: usize, frame: Data)
        ensures { self.new ≡ placed self.old place frame }
    {
        if self.at(place).is_some() {
            return;
        }
        self.empty = false;
        if let Some(free) = self.places.get_mut(place) {
            *free = Some(frame);
        }
    }

    /// Removes the first place and adds an empty one at the end, after the next message was
    /// received.
    #[inline(always)]
    pub fn shift(&mut self)
        ensures { self.new ≡ shifted self.old }
    {
        if !self.empty {
            self.shift_frames();
        }
    }

    // The same, if some place may have a frame.
    #[inline(never)]
    fn shift_frames(&mut self)
        ensures { self.new ≡ shifted self.old }
    {
        self.places.push_back(None);
        self.empty = are_empty(&self.places);
    }

    /// Empties the first place.
    pub fn drop_front(&mut self)
        ensures { self.new ≡ emptied self.old }
    {
        if let Some(front) = self.places.get_mut(0) {
            *front = None;
        }
    }
}

fn are_empty(places: &HeapCircularBuffer<Option<Data>, Global>) -> bool
    ensures { result ≡ list_all is_none places.now.items }
{
    places.iter().all(|place| place.is_none())
}
