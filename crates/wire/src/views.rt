//! What a seat knows of what was done with it, for proofs only. No value of it is ever made, so the
//! history takes no bytes.
ghost use Rattle.std.specs.Prelude.{◌≡◌};
ghost use Rattle.wire.specs.Views.{Known};
ghost use Rattle.model.specs.World.{World};

use std::marker::Model;

// What a seat knows. No value of it is ever made.
pub struct View {
    ghost knows: { Known },
}

impl Model for View {
    ghost use Rattle.wire.specs.Views.{Known};
    ghost use base.Fml.{ftrue};

    ghost Value = { Known };

    ghost view = { λ s. s.knows };

    ghost also_owns = { λ s. ftrue };
}

// Names the world that a wire begins in, for proofs only.
#[derive(Drop)]
pub struct Opening {
    pub ghost world: { World },
}

impl Model for Opening {
    ghost use base.Fml.{ftrue};

    ghost also_owns = { λ _. ftrue };
}

impl Opening {
    pub(crate) fn named() -> Opening
        ghost it: { World }
        ensures { result.world ≡ it }
    {
        Opening {}
    }
}
