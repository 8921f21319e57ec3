//! How the nodes of a space are saved.

/// What a save of a node writes.
#[derive(Clone, Copy)]
pub enum Saves {
    /// The image of the node. A disk on which a log was written keeps its log.
    Images,
    /// The events since the last save, in a log behind the image; or the image, if they would be
    /// too many.
    Events,
}
