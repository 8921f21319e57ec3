//! What the workers of a space share. What was found in it can be shown only by a value that these
//! calls make.
ghost use Rattle.std.specs.Prelude.{◌≡◌};

use std::sync::atomic::{AtomicBool, AtomicU64, Ordering};

/// Whether the workers of a space are to stop, and how many have ended.
#[derive(Drop)]
pub struct Stop {
    asked: AtomicBool,
    ended: AtomicU64,
}

/// Shows that the workers had been asked to end. Only [`Stop::asked`] makes one.
#[derive(Clone, Copy, Debug)]
pub struct Asked {
    _found: (),
}

/// Shows that the end of a worker was counted. Only a worker's run makes one.
#[derive(Clone, Copy, Debug)]
pub struct Counted {
    _added: (),
}

/// How many workers were found to have ended. Only [`Stop::look`] makes one.
#[derive(Clone, Copy, Debug)]
pub struct Ended {
    count: u64,
}

impl Ended {
    /// How many there were.
    pub fn count(&self) -> u64
        ensures { result ≡ self.now.count }
    {
        self.count
    }
}

impl Stop {
    /// No stop requested, and no worker has ended.
    pub fn new() -> Stop {
        Stop {
            asked: AtomicBool::new(false),
            ended: AtomicU64::new(0),
        }
    }

    /// Asks all workers to end before their next turn.
    pub fn ask(&self) {
        self.asked.store(true, Ordering::SeqCst);
    }

    /// Whether the workers were asked to end.
    pub fn asked(&self) -> Option<Asked> {
        if self.asked.load(Ordering::SeqCst) {
            Some(Asked { _found: () })
        } else {
            None
        }
    }

    /// Counts a worker that has ended.
    pub(crate) fn note_end(&self) -> Counted {
        self.ended.fetch_add(1, Ordering::SeqCst);
        Counted { _added: () }
    }

    /// Looks how many workers have ended.
    pub fn look(&self) -> Ended {
        Ended {
            count: self.ended.load(Ordering::SeqCst),
        }
    }

    /// How many workers have ended.
    pub fn ended(&self) -> u64 {
        self.look().count()
    }
}
