//! When a worker has its node reclaim. A reclaim of the young is due once 16,384 objects were made
//! since the last reclaim, or half of the slots that were free then are used. It takes time for
//! what was made. One of all takes time for all objects. It is due once those of the young have
//! left as many objects as the last one of all did, and at least 16,384, or half of the slots that
//! were free then.

use model::Scope;

/// Whether workers have their nodes reclaim.
#[derive(Clone, Copy, Debug, PartialEq, Eq)]
pub enum Reclaims {
    /// They don't. In a plain space no object is private.
    Never,
    /// They do, in nodes of this many slots.
    Within(u32),
}

// Fewer objects aren't worth a search.
const LEAST: u32 = 1024;

// This many new objects are worth one, however many slots are free.
const MANY: u32 = 16_384;

/// What a worker remembers of its node's objects.
#[derive(Drop)]
pub struct Pace {
    reclaims: Reclaims,
    // How many there were when the worker looked last, how many the last reclaim left, and how many
    // the last reclaim of all.
    live: u32,
    kept: u32,
    kept_by_all: u32,
}

impl Pace {
    /// That of a worker which hasn't looked at its node yet.
    pub fn new(reclaims: Reclaims) -> Pace {
        Pace {
            reclaims,
            live: 0,
            kept: 0,
            kept_by_all: 0,
        }
    }

    /// The node has this many objects. (A sweep may have freed some.)
    pub(crate) fn see(&mut self, live: u32) {
        self.live = live;
        self.kept = self.kept.min(live);
        self.kept_by_all = self.kept_by_all.min(live);
    }

    /// A reclaim of this scope freed this many.
    pub(crate) fn note(&mut self, scope: Scope, freed: u32) {
        self.live = self.live.saturating_sub(freed);
        self.kept = self.live;
        self.kept_by_all = match scope {
            Scope::All => self.live,
            Scope::Young => self.kept_by_all.min(self.live),
        };
    }

    /// The reclaim that is due.
    pub(crate) fn due(&self) -> Option<Scope> {
        match self.reclaims {
            Reclaims::Never => None,
            Reclaims::Within(slots) => due(slots, self.live, self.kept, self.kept_by_all),
        }
    }
}

// The reclaim that is due in a node of this many slots and objects. The last one left `kept`
// objects, and the last one of all `kept_by_all`.
fn due(slots: u32, live: u32, kept: u32, kept_by_all: u32) -> Option<Scope> {
    let made = live.saturating_sub(kept);
    let stayed = kept.saturating_sub(kept_by_all);
    if stayed >= MANY.max(kept_by_all) || fills_half(stayed, slots, kept_by_all) {
        Some(Scope::All)
    } else if live >= LEAST && (made >= MANY || fills_half(made, slots, kept)) {
        Some(Scope::Young)
    } else {
        None
    }
}

// Whether this many objects use half of the slots that were free beside those that were kept.
fn fills_half(made: u32, slots: u32, kept: u32) -> bool {
    made > 0 && made >= slots.saturating_sub(kept) / 2
}
