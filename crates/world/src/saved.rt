//! A node as it was saved: the bytes of its image, and memory for the next image. For proofs, a
//! snapshot without bytes says which node the image spells.
ghost use Rattle.std.specs.Prelude.{◌≡◌, IfOk, IfErr};
ghost use Rattle.ids.specs.declared.refusal.Refusal.TheVariants.{Memory};
ghost use Rattle.image.specs.Nodes.{IsImageOf};

use ids::Refusal;
use image::core_from_bytes;
use node::Core;
use std::alloc::Global;
use std::marker::Model;
use std::mem;
use std::snapshot::Snapshot;

// The most memory of an image that is kept for the next one. A larger image is freed: for a large
// node, a second image would be memory that nobody needs between its saves.
const GREATEST_SPARE: usize = 1_048_576;

/// A node as it was saved: the bytes of its image, and memory for the next image.
#[derive(Drop)]
pub struct SavedNode {
    image: Vec<u8>,
    // The image before this one if it is small, else no bytes. The next image reuses its memory.
    spare: Vec<u8>,
    // The node that the image spells. It is only for proofs and has no bytes.
    says: Snapshot<Core>,
}

impl Model for SavedNode {
    ghost use Rattle.model.specs.View.{NodeView};

    ghost Value = { NodeView };

    ghost use Rattle.world.specs.InsideSaved.{view_of, IsSpelled};

    ghost view = { view_of };

    ghost invariant = { IsSpelled };
}

impl SavedNode {
    /// Makes the saved form of this node, whose image this is.
    pub fn new(image: Vec<u8>, node: &Core) -> SavedNode
        requires { IsImageOf image.items node.now }
        ensures { result ≡ node.now }
    {
        SavedNode {
            spare: Vec::new(*image.allocator()),
            image,
            says: Snapshot::of(node),
        }
    }

    /// Takes the memory for the next image. Its bytes have no meaning.
    pub fn take_spare(&mut self, alloc: Global) -> Vec<u8>
        ensures { self.new ≡ self.old }
    {
        mem::replace(&mut self.spare, Vec::new(alloc))
    }

    /// Notes that this node has now been saved as this image.
    pub fn renew(&mut self, image: Vec<u8>, node: &Core)
        requires { IsImageOf image.items node.now }
        ensures { self.new ≡ node.now }
    {
        let before = mem::replace(&mut self.image, image);
        if before.capacity() <= GREATEST_SPARE {
            self.spare = before;
        }
        self.says = Snapshot::of(node);
    }

    /// Makes the saved node from its image. Fails with `Memory` if allocation fails.
    pub fn read(&self, alloc: Global) -> Result<Core, Refusal>
        ensures same { IfOk result (λ n. n ≡ self.now) }
        ensures refused { IfErr result (λ e. e ≡ Memory) }
    {
        core_from_bytes(alloc, &self.image)
    }
}
