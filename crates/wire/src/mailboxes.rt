//! A mailbox from each node to each other one: a word, and a slot for a frame. The word says who
//! holds the slot, and changes in one atomic step, so no two threads ever access a slot at the same
//! time.
ghost use Rattle.std.specs.Prelude.{
  ◌≡◌,
  ◌≢◌,
  ℕ,
  ◌+◌,
  ◌*◌,
  ◌<◌,
  true,
  List,
  [],
  ◌∷◌,
  Some,
  MatchOption,
  vec_len,
  Vec,
  vec_capacity,
};
ghost use Rattle.std.specs.Global.{Global};
ghost use Rattle.atomic_table.specs.Table.{rest};
ghost use Rattle.msg.specs.Frames.{Plain};
ghost use Rattle.frames.specs.Grammar.{Fits, spelling};
ghost use Rattle.wire.specs.Lists.{has, found};
ghost use Rattle.wire.specs.Views.{FindsOther, claims, takes_in, posts, clears};
ghost use Rattle.wire.specs.Rule.{sender, receiver, Spells};
ghost use Rattle.wire.specs.Plays.{Arrives, Owns};
ghost use Rattle.wire.specs.Readers.{
  width,
  known,
  seat_node,
  IsSeatOf,
  IsSame,
  outbox,
  inbox,
  claim_to,
  IsClaimOf,
  taken_from,
  IsTakenOf,
};

use crate::plays::{Claims, Clears, Posts, Takes};
use crate::seats::{Claim, NodeSeat, Taken, Wire};
use std::snapshot::Snapshot;

// The word of a mailbox. Only an empty mailbox is claimed, and only a full one is taken.
const EMPTY: u64 = 0;

const FULL: u64 = 1;

const EMPTYING: u64 = 2;

const FILLING: u64 = 3;

impl Wire {
    /// Claims the seat's mailbox to another node, so that [`post`](Wire::post) can fill it; one
    /// compare-and-exchange of a word. `None` if the mailbox wasn't empty at that moment; the
    /// seat's view then records the word that this call found.
    pub fn claim(&self, seat: &mut NodeSeat, to: u8) -> Option<Claim>
        requires wire { IsSeatOf self.now seat.old }
        requires to { (to < width self.now) × (to ≢ seat_node seat.old) }
        ensures same { IsSame seat.old seat.new }
        ensures claim { MatchOption result
            (FindsOther (outbox seat.old to) 0 (known seat.old) (known seat.new))
            (λ c. (claim_to c ≡ to) × IsClaimOf seat.old c
            × ((place : ℕ)
            × (known seat.new ≡ claims (outbox seat.old to) place (known seat.old)))) }
    {
        let at = seat.node * seat.nodes + usize::from(to);
        let shared = &self.table.shared;
        let found = shared.compare_exchange::<Claims>(&mut seat.seat, at, EMPTY, FILLING);
        if found != EMPTY {
            return None;
        }
        hold(&mut seat.held, at);
        Some(Claim {
            to,
            of: Snapshot::of(&seat.seat),
        })
    }

    /// Fills the claimed mailbox with the bytes of a frame, and uses up the claim; one store. The
    /// frame is for the mailbox's receiver, and the node's saved state releases it.
    pub fn post(&self, seat: &mut NodeSeat, claim: Claim, bytes: Vec<u8>)
        requires wire { IsSeatOf self.now seat.old }
        requires claim { IsClaimOf seat.old claim × (claim_to claim < width self.now)
            × (has (outbox seat.old (claim_to claim)) (known seat.old).filling ≡ true) }
        requires released { Owns (outbox seat.old (claim_to claim)) (known seat.old) bytes.items }
        ensures same { IsSame seat.old seat.new }
        ensures posted { (f : Plain) × Spells f bytes.items × ((place : ℕ)
            × (known seat.new
            ≡ posts (outbox seat.old (claim_to claim)) place f (known seat.old))) }
    {
        let Claim { to, of: _ } = claim;
        let at = seat.node * seat.nodes + usize::from(to);
        let shared = &self.table.shared;
        seat.bring(at);
        let _emptied = shared.exchange(&mut seat.seat, at, bytes);
        shared.store::<Posts>(&mut seat.seat, at, FULL);
        seat.held.remove(0);
    }

    /// Takes the frame in the seat's mailbox from another node; [`clear`](Wire::clear) then returns
    /// its bytes. One compare-and-exchange of a word. The frame counts as taken for good. `None` if
    /// the mailbox wasn't full at that moment; the seat's view then records the word that this call
    /// found.
    pub fn take(&self, seat: &mut NodeSeat, from: u8) -> Option<Taken>
        requires wire { IsSeatOf self.now seat.old }
        requires from { (from < width self.now) × (from ≢ seat_node seat.old) }
        ensures same { IsSame seat.old seat.new }
        ensures taken { MatchOption result
            (FindsOther (inbox seat.old from) 1 (known seat.old) (known seat.new))
            (λ t. (taken_from t ≡ from) × IsTakenOf seat.old t
            × ((f : Plain) × Fits f × (sender f ≡ from) × (receiver f ≡ seat_node seat.old)
            × Arrives (known seat.old) f × ((place : ℕ)
            × (known seat.new ≡ takes_in (inbox seat.old from) place f (known seat.old))))) }
    {
        let at = usize::from(from) * seat.nodes + seat.node;
        let shared = &self.table.shared;
        let found = shared.compare_exchange::<Takes>(&mut seat.seat, at, FULL, EMPTYING);
        if found != FULL {
            return None;
        }
        hold(&mut seat.held, at);
        Some(Taken {
            from,
            of: Snapshot::of(&seat.seat),
        })
    }

    /// Returns the bytes of the frame that was taken, and empties its mailbox; one store.
    pub fn clear(&self, seat: &mut NodeSeat, taken: Taken) -> Vec<u8>
        requires wire { IsSeatOf self.now seat.old }
        requires taken { IsTakenOf seat.old taken × (taken_from taken < width self.now)
            × ((f : Plain)
            × (found (inbox seat.old (taken_from taken)) (known seat.old).emptying ≡ Some f)) }
        ensures same { IsSame seat.old seat.new }
        ensures cleared { (place : ℕ) × (known seat.new
            ≡ clears (inbox seat.old (taken_from taken)) place (known seat.old)) }
        ensures bytes { (f : Plain)
            → found (inbox seat.old (taken_from taken)) (known seat.old).emptying ≡ Some f
            → result.items ≡ spelling f }
    {
        let Taken { from, of: _ } = taken;
        let at = usize::from(from) * seat.nodes + seat.node;
        let shared = &self.table.shared;
        seat.bring(at);
        let bytes = shared.exchange(&mut seat.seat, at, Vec::new(self.alloc));
        shared.store::<Clears>(&mut seat.seat, at, EMPTY);
        seat.held.remove(0);
        bytes
    }
}

// Notes that the seat now also holds this mailbox's slot, in front of those that it held before.
fn hold(held: &mut Vec<usize>, at: usize)
    requires { vec_len held.old < vec_capacity held.old }
    ensures items { held.new.items ≡ at ∷ held.old.items }
    ensures capacity { vec_capacity held.new ≡ vec_capacity held.old }
{
    held.push_reserved(at);
    held.rotate_right(1);
}

impl NodeSeat {
    // Brings a slot that the seat holds to the front.
    fn bring(&mut self, at: usize)
        requires { has at self.old.held.items ≡ true }
        ensures same { IsSame self.old self.new }
        ensures known { known self.new ≡ known self.old }
        ensures front { (x : Vec ℕ Global)
            × (self.new.seat.me.1 ≡ (at, x) ∷ rest self.new.seat.me.1) }
    {
        while self.held[0] != at {
            self.seat.turn();
            self.held.rotate_left(1);
        }
    }
}
