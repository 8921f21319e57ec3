//! The reasons for a refusal: one list for all crates, with the numbers and names that texts print.
//! So the crates pass a refusal up unchanged.
ghost use Rattle.std.specs.Prelude.{◌≡◌, Some};
ghost use Rattle.ids.specs.Refusals.{name_of, number_of, refusal_text};
ghost use Rattle.ids.specs.declared.refusal.Refusal.TheVariants.{Memory};

use std::alloc::{AllocError, AllocFailed};
use std::fmt;

/// Why a call was refused. A refused call leaves its value unchanged, unless its own documentation
/// says otherwise.
#[derive(Clone, Copy, Debug, PartialEq, Eq)]
pub enum Refusal {
    /// An allocation failed.
    Memory,
    /// The node has no free slot and no fresh one.
    ArenaFull,
    /// There is no register with that number.
    NoRegister,
    /// The register is empty, but a reference is needed.
    EmptyRegister,
    /// The object is on another node.
    Remote,
    /// The object is on this node.
    Local,
    /// There is no node with that number.
    NoNode,
    /// No letter waits.
    NoLetter,
    /// The object has no such place, or no object can have it, or the object isn't live.
    NoField,
    /// The object would have more places than allowed.
    TooManyFields,
    /// The message is for the node itself.
    SelfSend,
    /// The link has no number left for the message.
    LinkSpent,
    /// No cycle number is left.
    CyclesSpent,
    /// Only node 0 may do this.
    NotDirector,
    /// The last cycle is not swept and reported everywhere.
    CycleRunning,
    /// There is nothing for this step to do.
    NothingToDo,
    /// The message is more than a window past the last one received.
    OutOfOrder,
    /// The acknowledged message was never released.
    AckBeyond,
    /// The bytes don't encode a frame.
    BadFrame,
    /// The frame is not for this node, not for this space, or not for this moment.
    WrongNode,
    /// The bytes don't encode a saved node.
    BadImage,
    /// The saved node would be too large.
    ImageTooLarge,
    /// The device failed.
    Disk,
    /// The device failed, or a reopening was refused, and no reopening has succeeded since.
    Closed,
    /// An object would have more bytes than the space allows. In a plain space, objects have none.
    TooManyBytes,
    /// The object doesn't have all of these bytes.
    NoBytes,
    /// The object isn't marked yet, and its node marks: try again once marking has ended.
    NotNow,
}

impl Refusal {
    /// The number of the refusal in printed texts, 1 to 27.
    pub fn number(self) -> u8
        ensures { result ≡ number_of self }
    {
        match self {
            Refusal::Memory => 1,
            Refusal::ArenaFull => 2,
            Refusal::NoRegister => 3,
            Refusal::EmptyRegister => 4,
            Refusal::Remote => 5,
            Refusal::Local => 6,
            Refusal::NoNode => 7,
            Refusal::NoLetter => 8,
            Refusal::NoField => 9,
            Refusal::TooManyFields => 10,
            Refusal::SelfSend => 11,
            Refusal::LinkSpent => 12,
            Refusal::CyclesSpent => 13,
            Refusal::NotDirector => 14,
            Refusal::CycleRunning => 15,
            Refusal::NothingToDo => 16,
            Refusal::OutOfOrder => 17,
            Refusal::AckBeyond => 18,
            Refusal::BadFrame => 19,
            Refusal::WrongNode => 20,
            Refusal::BadImage => 21,
            Refusal::ImageTooLarge => 22,
            Refusal::Disk => 23,
            Refusal::Closed => 24,
            Refusal::TooManyBytes => 25,
            Refusal::NoBytes => 26,
            Refusal::NotNow => 27,
        }
    }

    /// The name of the refusal in printed texts.
    pub fn name(self) -> &'static str
        ensures { result.now ≡ name_of self }
    {
        match self {
            Refusal::Memory => "Memory",
            Refusal::ArenaFull => "ArenaFull",
            Refusal::NoRegister => "NoRegister",
            Refusal::EmptyRegister => "EmptyRegister",
            Refusal::Remote => "Remote",
            Refusal::Local => "Local",
            Refusal::NoNode => "NoNode",
            Refusal::NoLetter => "NoLetter",
            Refusal::NoField => "NoField",
            Refusal::TooManyFields => "TooManyFields",
            Refusal::SelfSend => "SelfSend",
            Refusal::LinkSpent => "LinkSpent",
            Refusal::CyclesSpent => "CyclesSpent",
            Refusal::NotDirector => "NotDirector",
            Refusal::CycleRunning => "CycleRunning",
            Refusal::NothingToDo => "NothingToDo",
            Refusal::OutOfOrder => "OutOfOrder",
            Refusal::AckBeyond => "AckBeyond",
            Refusal::BadFrame => "BadFrame",
            Refusal::WrongNode => "WrongNode",
            Refusal::BadImage => "BadImage",
            Refusal::ImageTooLarge => "ImageTooLarge",
            Refusal::Disk => "Disk",
            Refusal::Closed => "Closed",
            Refusal::TooManyBytes => "TooManyBytes",
            Refusal::NoBytes => "NoBytes",
            Refusal::NotNow => "NotNow",
        }
    }
}

/// Writes its number and its name, with a space between them.
impl fmt::Display for Refusal {
    ghost output = { λ e. Some (refusal_text e) };

    fn fmt<W: fmt::Write>(&self, f: &mut fmt::Formatter<W>) -> fmt::Result {
        write!(f, "{} {}", self.number(), self.name())
    }
}

impl From<AllocError> for Refusal {
    ghost from_gives = { λ _ e. e ≡ Memory };

    fn from(_error: AllocError) -> Refusal {
        Refusal::Memory
    }
}

impl<T: Drop> From<AllocFailed<T>> for Refusal {
    ghost from_gives = { λ _ e. e ≡ Memory };

    fn from(_error: AllocFailed<T>) -> Refusal {
        Refusal::Memory
    }
}
