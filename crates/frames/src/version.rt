//! Versions of the formats of frames and saved nodes.

/// A version of the formats. A reference's generation has four bytes in the first version and eight
/// in the second; nothing else of a reference or of a message's body differs. Frames are always of
/// the second version.
#[derive(Clone, Copy)]
pub enum Version {
    First,
    Second,
}
