//! How long private objects have been there, which says whether a Reclaim has to look at them.

/// Whether an object was made since the last Reclaim of its node.
#[derive(Clone, Copy, Debug, PartialEq)]
pub enum Age {
    /// It was made since then.
    Young,
    /// It was made since then, and an old object may refer to it.
    Remembered,
    /// It was there then, or it was shared when it was made.
    Old,
}

/// Which objects a Reclaim may free.
#[derive(Clone, Copy, Debug, PartialEq)]
pub enum Scope {
    /// All private objects of the node.
    All,
    /// Only those that were made since the last Reclaim. The others count as needed.
    Young,
}
