//! A node's colour, its balances, and the token while the node has it. The token is passed on with
//! the sum and the colour that EWD998 prescribes. Node 0 finds the end of marking when everything
//! is white and the sum is 0.
ghost use Rattle.std.specs.Prelude.{◌≡◌, ◌≤◌, ◌^◌, IsSome};
ghost use Rattle.ids.specs.declared.limits.TheConstants.{GREATEST_COUNTED};
ghost use Rattle.model.specs.State.{new_ring};
ghost use Rattle.model.specs.Counting.{counted_up, counted_down, counted_marks};
ghost use Rattle.model.specs.Shading.{entered};
ghost use Rattle.model.specs.Collecting.{
  is_white,
  whitened,
  without_token,
  new_token,
  token_of,
  sum_of,
  forwarded,
};
ghost use Rattle.cycles.specs.Rings.{ring_of, with_token};
ghost use Rattle.cycles.specs.Balances.{IsBounded};
ghost use Rattle.cycles.specs.Verdicts.{verdict_of, judged_ring};

use crate::verdict::Verdict;
use model::Balance;
use msg::{Colour, Token};
use std::marker::Model;

/// The token of a new probe.
pub const NEW_TOKEN: Token = Token {
    colour: Colour::White,
    q: 0,
};

/// A node's state in the ring, in the terms of EWD998: its colour, its message count in two parts,
/// and the token while the node has it.
///
/// The count is messages sent less messages received. `earlier` is that of the messages that count
/// in the node's present cycle, and is added to the token. `recent` is that of the messages with
/// references from the present cycle, which the next cycle counts. Black means that, since the
/// token left, the node has received a counted message or joined a cycle.
///
/// No call allocates memory. Calls that count require that the two parts together are at most
/// [`ids::GREATEST_COUNTED`], whatever their signs: no node sends and receives more.
#[derive(Clone, Copy)]
pub struct Ring {
    colour: Colour,
    earlier: i64,
    recent: i64,
    token: Option<Token>,
}

impl Model for Ring {
    ghost use Rattle.model.specs.State.{Ring};

    ghost Value = { Ring };

    ghost view = { λ r.
        record { colour = r.colour; earlier = r.earlier; recent = r.recent; token = r.token } };

    ghost inverse = { λ r.
        record { colour = r.colour; earlier = r.earlier; recent = r.recent; token = r.token } };
}

impl Ring {
    /// Makes the ring state of a new node: white, with nothing counted and no token.
    pub fn new() -> Ring
        ensures { result ≡ new_ring }
    {
        Ring {
            colour: Colour::White,
            earlier: 0,
            recent: 0,
            token: None,
        }
    }

    /// Makes the ring state of these parts, as the getters return them.
    pub fn from_parts(colour: Colour, earlier: i64, recent: i64, token: Option<Token>) -> Ring
        ensures { result ≡ ring_of colour earlier recent token }
    {
        Ring {
            colour,
            earlier,
            recent,
            token,
        }
    }

    /// The node's colour. A black node blackens the token.
    pub fn colour(&self) -> Colour
        ensures { result ≡ self.now.colour }
    {
        self.colour
    }

    /// Messages sent less those received, of those that count in the node's present cycle.
    pub fn earlier(&self) -> i64
        ensures { result ≡ self.now.earlier }
    {
        self.earlier
    }

    /// Messages sent less those received, of those that the next cycle counts.
    pub fn recent(&self) -> i64
        ensures { result ≡ self.now.recent }
    {
        self.recent
    }

    /// The token, if the node has it.
    pub fn token(&self) -> Option<Token>
        ensures { result ≡ self.now.token }
    {
        self.token
    }

    /// Counts a message that was sent, in the balance that [`balance_of`](crate::balance_of)
    /// returns; `None` changes nothing.
    pub fn count_sent(&mut self, balance: Option<Balance>)
        requires { IsBounded GREATEST_COUNTED self.old }
        ensures { self.new ≡ counted_up balance self.old }
    {
        match balance {
            Some(Balance::Earlier) => self.earlier += 1,
            Some(Balance::Recent) => self.recent += 1,
            None => {}
        }
    }

    /// Counts this many Marks as sent. A Mark counts in the present cycle.
    pub fn count_marks(&mut self, count: u64)
        requires small { IsBounded GREATEST_COUNTED self.old }
        requires few { count ≤ GREATEST_COUNTED }
        ensures { self.new ≡ counted_marks count self.old }
    {
        self.earlier += count as i64;
    }

    /// Counts a message that was received, in the balance that [`balance_of`](crate::balance_of)
    /// returns; `None` changes nothing. A message that counts in the present cycle makes the node
    /// black, since it may have made the node active after the token left.
    pub fn count_received(&mut self, balance: Option<Balance>)
        requires { IsBounded GREATEST_COUNTED self.old }
        ensures { self.new ≡ counted_down balance self.old }
    {
        match balance {
            Some(Balance::Earlier) => {
                self.colour = Colour::Black;
                self.earlier -= 1;
            }
            Some(Balance::Recent) => self.recent -= 1,
            None => {}
        }
    }

    /// Joins the next cycle: what the next cycle was to count counts now, and the node becomes
    /// black.
    pub fn join(&mut self)
        requires { IsBounded GREATEST_COUNTED self.old }
        ensures { self.new ≡ entered self.old }
    {
        self.colour = Colour::Black;
        self.earlier += self.recent;
        self.recent = 0;
    }

    /// Stores the token that has arrived. A token that the node already had is lost.
    pub fn hold(&mut self, token: Token)
        ensures { self.new ≡ with_token token self.old }
    {
        self.token = Some(token);
    }

    /// Passes the token on; the node must have it. Its sum grows by the balance of the present
    /// cycle, modulo 2^64. It is black if it was black or the node is black; then the node becomes
    /// white. EWD998 allows only a passive node to do so, which is one without grey objects: the
    /// caller ensures that.
    pub fn forward(&mut self) -> Token
        requires { IsSome self.old.token }
        ensures token { result ≡ forwarded self.old }
        ensures done { self.new ≡ whitened (without_token self.old) }
    {
        let colour = if is_white(self.colour) {
            self.held().colour
        } else {
            Colour::Black
        };
        let token = Token {
            colour,
            q: self.sum(),
        };
        self.colour = Colour::White;
        self.token = None;
        token
    }

    fn held(&self) -> Token
        requires { IsSome self.now.token }
        ensures { result ≡ token_of self.now }
    {
        self.token.unwrap()
    }

    // The token's sum plus the node's balance.
    #[tactic(auto, using(std::proofs::lemmas::Int::wraps))]
    fn sum(&self) -> i64
        requires { IsSome self.now.token }
        ensures { result ≡ sum_of self.now }
    {
        self.held().q.wrapping_add(self.earlier)
    }

    /// Starts a probe at node 0: returns the token for the last node, white with the sum 0, and
    /// makes the node white.
    pub fn probe(&mut self) -> Token
        ensures token { result ≡ new_token }
        ensures done { self.new ≡ whitened self.old }
    {
        self.colour = Colour::White;
        NEW_TOKEN
    }

    /// Judges the token at node 0, which must have it; the token then leaves. Marking has ended
    /// exactly if node and token are white and the token's sum plus the node's own balance is 0,
    /// modulo 2^64. Otherwise a probe starts. EWD998 allows only a passive node to do so, which is
    /// one without grey objects: the caller ensures that.
    pub fn verdict(&mut self) -> Verdict
        requires { IsSome self.old.token }
        ensures verdict { result ≡ verdict_of self.old }
        ensures done { self.new ≡ judged_ring self.old }
    {
        let ended = is_white(self.colour) && is_white(self.held().colour) && self.sum() == 0;
        self.token = None;
        if ended {
            Verdict::Ended
        } else {
            Verdict::Probe(self.probe())
        }
    }
}

fn is_white(colour: Colour) -> bool
    ensures { result ≡ is_white colour }
{
    colour == Colour::White
}
