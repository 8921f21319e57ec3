//! Which process of another node is the latest one that this node knows. What any other process of
//! that node says isn't taken.
ghost use Rattle.std.specs.Prelude.{◌≡◌};
ghost use Rattle.lineage.specs.Senders.{known_after, sender_of, word};

/// A process that runs another node: its nonce, the number of its first save, and that of the last
/// one that is known. All are 0 if none is known.
#[repr(C)]
#[derive(Clone, Copy)]
pub struct Process {
    pub nonce: u64,
    pub run: u64,
    pub saves: u64,
}

/// Who a packet is of.
#[derive(Clone, Copy)]
pub enum Sender {
    /// The process that is known.
    Latest,
    /// The same, with fewer saves than are known: the packet is late, or of an older state of it.
    Behind,
    /// A later process, which is known from now on.
    Later,
    /// An earlier process, or one that hasn't shown that it goes on from the one that is known.
    Outdated,
}

/// What a node knows of another node's process, as one number. Nonces are random, so two of these
/// numbers are hardly ever the same.
pub fn word(known: &Process) -> u64
    ensures { result ≡ word known.now }
{
    known.nonce ^ known.saves
}

/// A packet of a process came. `heard` is the last word of this node that this process found to fit
/// its own saves; it is 0 if the process is of an earlier version, which doesn't say.
pub fn meet(known: &mut Process, sender: &Process, heard: u64) -> Sender
    ensures sender { result ≡ sender_of known.old sender.now heard }
    ensures known { known.new ≡ known_after known.old sender.now result }
{
    if sender.nonce == known.nonce {
        if sender.saves < known.saves {
            return Sender::Behind;
        }
        known.saves = sender.saves;
        return Sender::Latest;
    }
    let goes_on = known.nonce == 0 || heard == 0 || heard == word(known);
    if !goes_on || sender.run <= known.saves {
        return Sender::Outdated;
    }
    *known = *sender;
    Sender::Later
}
