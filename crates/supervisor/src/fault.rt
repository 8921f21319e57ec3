//! Why a space can't be opened: because of its text, or of its disks.
use ids::Refusal;
use thiserror::Error;

/// Why a space can't be opened.
#[derive(Clone, Copy, Debug, PartialEq, Eq, Error)]
pub enum OpenFault {
    /// The text isn't a configuration.
    #[error("config refused")]
    Config,
    /// The number of disks isn't the number of nodes.
    #[error("disks refused")]
    Disks,
    /// The disk of this node holds a node of another shape or number.
    #[error("disk of node {node} refused")]
    Another {
        node: u8,
    },
    /// The disks of these two nodes aren't of one moment. The receiver has received more messages
    /// than the sender has sent to it, or the sender has dropped messages that the receiver lacks.
    #[error("disks of nodes {sender} and {receiver} refused")]
    Ages {
        /// The number of the node that sent the messages.
        sender: u8,
        /// The number of the node that they are for.
        receiver: u8,
    },
    /// This node wasn't read from its disk, or wasn't created there, because of this refusal.
    #[error("disk of node {node} refused {refusal}")]
    Failed {
        node: u8,
        refusal: Refusal,
    },
    /// An allocation failed.
    #[error("refused {}", Refusal::Memory)]
    Memory,
}
