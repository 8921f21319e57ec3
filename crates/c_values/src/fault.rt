//! Why a call from C did nothing: one of the refusals, or a fault of the library's own. C sees the
//! number.
ghost use Rattle.std.specs.Prelude.{◌≡◌};
ghost use Rattle.ids.specs.declared.refusal.Refusal.TheVariants.{Memory};
ghost use Rattle.c_values.specs.Faults.{status_of};
ghost use Rattle.c_values.specs.declared.fault.Fault.TheVariants.{Refused};

use ids::Refusal;
use std::alloc::AllocFailed;

/// The status of a call that did what it was to do.
pub const OK: i32 = 0;

/// Why a call from C did nothing.
#[derive(Clone, Copy, Debug, PartialEq, Eq)]
pub enum Fault {
    /// The node refused, or there was no memory.
    Refused(Refusal),
    /// The handle is empty.
    NoHandle,
    /// The handle to be filled isn't empty, or the space is open already.
    InUse,
    /// The buffer is too short.
    ShortBuffer,
    /// An argument is out of range.
    BadArgument,
    /// An image is of another node or of a space of another shape.
    WrongDisks,
    /// The mark isn't that of the last image or batch.
    WrongMark,
    /// As many messages on the link as the limit allows aren't acknowledged.
    Congested,
    /// There is no such frame, message, cell or the like.
    Nothing,
    /// The images of these two nodes are not of one moment.
    Ages {
        /// The number of the node that sent some messages.
        sender: u8,
        /// The number of the node that they are for.
        receiver: u8,
    },
    /// There is no log of the events since the last image or batch.
    NoLog,
}

impl Fault {
    /// The number of the fault, which is the status of the call.
    pub fn status(self) -> i32
        ensures { result ≡ status_of self }
    {
        match self {
            Fault::Refused(refusal) => i32::from(refusal.number()),
            Fault::NoHandle => 101,
            Fault::InUse => 102,
            Fault::ShortBuffer => 103,
            Fault::BadArgument => 104,
            Fault::WrongDisks => 105,
            Fault::WrongMark => 106,
            Fault::Congested => 107,
            Fault::Nothing => 108,
            Fault::Ages { .. } => 109,
            Fault::NoLog => 110,
        }
    }
}

impl From<Refusal> for Fault {
    ghost from_gives = { λ r e. e ≡ Refused r };

    fn from(refusal: Refusal) -> Fault {
        Fault::Refused(refusal)
    }
}

impl<T: Drop> From<AllocFailed<T>> for Fault {
    ghost from_gives = { λ _ e. e ≡ Refused Memory };

    fn from(_error: AllocFailed<T>) -> Fault {
        Fault::Refused(Refusal::Memory)
    }
}
