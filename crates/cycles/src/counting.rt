//! The balance in which a message counts. Sender and receiver call the same function of body and
//! stamp, whichever of them joins a cycle first. So the balances of all nodes add up to the number
//! of counted messages in flight.
//!
//! Two kinds of messages matter to the end of marking: Marks, which bring work, and references sent
//! before their sender had joined, which nobody has shaded. References of the cycle itself bring no
//! work and may still be in flight. In the next cycle they will be references from before it, so
//! they are counted from the start, in a separate balance.
ghost use Rattle.std.specs.Prelude.{◌≡◌};
ghost use Rattle.model.specs.Counting.{balance_of};

use model::Balance;
use msg::Body;

/// The balance in which a message counts at a node of this cycle, whether the node sends or
/// receives it. Marks count in the present cycle. References count in it if their stamp is of an
/// earlier cycle, and otherwise in the next one. All other messages count in neither.
pub fn balance_of(cycle: u64, stamp: u64, body: &Body) -> Option<Balance>
    ensures { result ≡ balance_of cycle stamp body.now }
{
    match *body {
        Body::Mark { .. } => Some(Balance::Earlier),
        Body::Give { .. }
        | Body::Put { .. }
        | Body::Get { .. }
        | Body::Post { .. }
        | Body::Fetch { .. } => {
            if stamp < cycle {
                Some(Balance::Earlier)
            } else {
                Some(Balance::Recent)
            }
        }
        Body::Begin | Body::Token(_) | Body::Ended | Body::Swept => None,
    }
}
