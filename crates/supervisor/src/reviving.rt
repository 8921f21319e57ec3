//! Why a node has no new worker, and what that leaves of the node.
ghost use Rattle.std.specs.Prelude.{◌≡◌};
ghost use Rattle.supervisor.specs.Reviving.{refusal_of};

use cell::{Reopened, Shut};
use ids::Refusal;

/// Why a node wasn't revived, and what it is like then. If a restart succeeded or failed meanwhile,
/// the value that shows it is here.
#[derive(Clone, Copy, Debug)]
pub enum Unrevived {
    /// There is no node of that number. Nothing changed.
    NoNode,
    /// There was no memory for a worker and its report. Nothing changed, and the old worker
    /// continues.
    NoRoom,
    /// The old worker had ended, and the restart failed. It left the node's cell closed, until a
    /// restart succeeds.
    Shut(Shut),
    /// The old worker had ended, and the node was restarted. But no thread could be created.
    NotStarted(Reopened),
}

impl Unrevived {
    /// The refusal that it comes from.
    pub fn refusal(&self) -> Refusal
        ensures { result ≡ refusal_of self.now }
    {
        match self {
            Unrevived::NoNode => Refusal::NoNode,
            Unrevived::NoRoom | Unrevived::NotStarted(_) => Refusal::Memory,
            Unrevived::Shut(shut) => shut.refusal(),
        }
    }
}
