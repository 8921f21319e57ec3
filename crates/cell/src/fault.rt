//! Why the cells of a space could not be opened: the disks don't belong to the space or to each
//! other, or a call failed. The first cause that is found ends the opening.
use ids::Refusal;

/// Why the cells of a space could not be opened.
#[derive(Clone, Copy, Debug, PartialEq, Eq)]
pub enum Unopened {
    /// The number of disks is not the number of nodes.
    Disks,
    /// The disk of this node holds a node of another shape, or with another number.
    Another {
        node: u8,
    },
    /// The disks of these two nodes are not of one moment. The receiver has received more messages
    /// than the sender has sent to it, or the sender has dropped messages that the receiver lacks.
    Ages {
        /// The number of the node that sent the messages.
        sender: u8,
        /// The number of the node that they are for.
        receiver: u8,
    },
    /// This node wasn't read from its disk, or wasn't created there: `BadImage`, `ImageTooLarge` or
    /// `Disk`.
    Failed {
        node: u8,
        refusal: Refusal,
    },
    /// An allocation failed.
    Memory,
}
