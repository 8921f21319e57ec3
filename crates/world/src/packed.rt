//! Frames one after another in one buffer, each found by its index. All frames of a link are kept
//! forever, so no frame has an allocation of its own.
ghost use Rattle.std.specs.Prelude.{◌≡◌, ◌++◌, ◌<◌, ◌≤◌, [], ◌∷◌, length, take, slice_get, slice_index, Some, IfErr, OnOk, OnErr};
ghost use Rattle.ids.specs.declared.refusal.Refusal.TheVariants.{Memory};

use ids::Refusal;
use std::alloc::Global;
use std::marker::Model;

/// Frames one after another in one buffer, each found by its index.
#[derive(Drop)]
pub struct Frames {
    bytes: Vec<u8>,
    // The end of each frame in `bytes`.
    ends: Vec<usize>,
}

impl Model for Frames {
    ghost use Rattle.std.specs.Prelude.{List, ℕ};

    ghost Value = { List (List ℕ) };

    ghost use Rattle.world.specs.InsideFrames.{view_of, IsCut};

    ghost view = { view_of };

    ghost invariant = { IsCut };
}

impl Frames {
    /// Makes an empty list of frames.
    pub fn new(alloc: Global) -> Frames
        ensures { result ≡ [] }
    {
        Frames {
            bytes: Vec::new(alloc),
            ends: Vec::new(alloc),
        }
    }

    /// What allocates memory for them.
    pub fn allocator(&self) -> Global {
        *self.bytes.allocator()
    }

    /// The number of frames.
    #[tactic(auto, using(crate::proofs::Cuts::cut_length))]
    pub fn len(&self) -> usize
        ensures { result ≡ length self.now }
    {
        self.ends.len()
    }

    /// The bytes of the frame with this index, counted from 0.
    #[tactic(auto, using(crate::proofs::Cuts::cut_length))]
    pub fn get(&self, place: usize) -> &[u8]
        requires { place < length self.now }
        ensures { slice_get self.now place ≡ Some result.now }
    {
        let end = self.ends[place];
        &self.bytes[start(&self.ends, place)..end]
    }

    /// Appends a frame. Fails with `Memory` if allocation fails; then nothing changes.
    #[tactic(auto, using(crate::proofs::Cuts::cut_push, crate::proofs::Cuts::ends_push))]
    pub fn push(&mut self, frame: &[u8]) -> Result<(), Refusal>
        ensures done { OnOk result (self.new ≡ self.old ++ frame.now ∷ []) }
        ensures unchanged { OnErr result (self.new ≡ self.old) }
        ensures refused { IfErr result (λ e. e ≡ Memory) }
    {
        self.ends.reserve(1)?;
        self.bytes.extend_from_slice(frame)?;
        self.ends.push_reserved(self.bytes.len());
        Ok(())
    }

    /// Drops all frames except the first `count`.
    #[tactic(auto, using(crate::proofs::Cuts::fronts, crate::proofs::Cuts::all_kept))]
    pub fn truncate(&mut self, count: usize)
        requires { count ≤ length self.old }
        ensures { self.new ≡ take count self.old }
    {
        // Most often there is nothing to drop.
        if count < self.ends.len() {
            self.bytes.truncate(start(&self.ends, count));
            self.ends.truncate(count);
        }
    }
}

/// The offset at which the frame with this index begins, which is the end of the one before it.
fn start(ends: &[usize], place: usize) -> usize
    requires { place ≤ length ends.now }
    ensures { result ≡ slice_index (0 ∷ ends.now) place }
{
    match place.checked_sub(1) {
        Some(before) => ends[before],
        None => 0,
    }
}
