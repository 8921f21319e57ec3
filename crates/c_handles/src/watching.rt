//! A watch with its wire, for one thread of the caller's.
ghost use Rattle.std.specs.Prelude.{◌≡◌};
ghost use Rattle.std.specs.Arc.{arc_value};
ghost use Rattle.wire.specs.Readers.{IsWatchOf};

use std::sync::Arc;
use wire::{Watch, Wire};

/// A watch with its wire.
#[derive(Drop)]
pub struct SeatedWatch {
    watch: Watch,
    wire: Arc<Wire>,
    ghost of: { IsWatchOf (arc_value wire) watch },
}

impl SeatedWatch {
    ghost use Rattle.c_handles.specs.Watches.{Looked};

    /// A watch of the wire.
    pub(crate) fn new(watch: Watch, wire: Arc<Wire>) -> SeatedWatch
        requires { IsWatchOf (arc_value wire) watch }
        ensures watch { result.watch ≡ watch }
        ensures wire { result.wire ≡ wire }
    {
        SeatedWatch { watch, wire }
    }

    /// The number of the last cycle that node 0 has shown; see [`Wire::look`].
    pub fn look(&mut self) -> u64
        ensures { Looked self.old self.new result }
    {
        self.wire.look(&mut self.watch).number
    }
}
