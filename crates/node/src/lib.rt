#![tactic(auto)]
//! One node of the object space, with all that an event may change; it saves nothing, and sends
//! frames only when asked for them. An event is one step of the definitions in `model`, for every
//! state that the node shows, and a refused event changes no state. [`Core`] is the part of a node
//! that is saved; [`Node`] also keeps early messages, which arrived before their turn.
//!
//! # One cycle
//!
//! `examples/cycle.script` runs this cycle (docs/cycle.svg shows the whole run). Two objects on two
//! nodes refer to each other, and neither program holds them any more. No node can find that out
//! alone: the reference to its own object is in the other node's memory.
//!
//! ```text
//!         node 0                                         node 1
//!         cycle 0, white                                 cycle 0, white
//!
//! begin   cycle 1, black
//!         a probe: white        Token white 0
//!         o-----------------------------------------------> joins: cycle 1, black
//!         |                     Begin
//!         o------------------------------------.
//!                                               \
//!                               Token black 0    \         pass: black, so the token is
//!         o<------------------------------------- \ ----o        black; then white
//! pass    the token is black:                      \
//!         another probe         Token white 0       '-->   Begin: joined already
//!         o----------------------------------------------->
//!                               Token white 0              pass: white, nothing owed
//!         o<--------------------------------------------o
//! pass    white node, white
//!         token, sum 0:
//!         marking has ended     Ended
//!         o-----------------------------------------------> marking has ended
//! sweep   frees 1 object                                   sweep   frees 1 object
//!                               Swept
//!         o<--------------------------------------------o
//!         may begin cycle 2
//! ```
//!
//! The first probe is inconclusive: node 1 was black, since it had just joined. The second one
//! finds that no node has received work since. Suppose that a program had still held one of the two
//! objects. Its node would have marked it when it joined, or asked the other node to, and a scan
//! would have sent a Mark back. One of the nodes would then have become black again, or would have
//! kept the token until it had no grey object.
//!
//! Programs run between these steps: at any moment they may allocate, read, write, send and
//! receive. A message may be lost and delivered again, or arrive early, and is then kept until its
//! turn. A node may stop, and comes back as it was last saved.
//!
//! # Why it is safe
//!
//! The claim is one sentence: what is reachable is live. Sweep frees what isn't marked. (Reclaim
//! frees too, but only what no other node knows; see 9.) So when a node sweeps, everything that is
//! reachable must be marked. The proof has one invariant of eleven facts, which hold in a new space
//! and which each step other than a save or a restart preserves (`laws/proofs/Invariant.antt`).
//! Here they are, except two of bookkeeping (`Base`, `Tidy`), each after those that it relies on.
//!
//! 1. No node is more than one cycle behind (`Phased`). Each node is in node 0's cycle or, while
//! node 0 is marking, in the cycle before, which it has swept. So a mark is either of node 0's
//! cycle or old. Messages in flight fit (`Messages`): one with a reference is of node 0's cycle or,
//! while node 0 is marking, of the one before. A link has at most one Ended and one Swept in
//! flight.
//!
//! 2. A marking node holds whatever it can reach in one step (`Held`): the object is its own and
//! marked, or the reference is in `asked`. When it joins, it shades everything that its program
//! holds. It shades what it reads, and shades or vouches for what arrives in a message. It holds
//! what is in the places of a black object, and what is written there is held already.
//!
//! 3. Whatever is in `asked` is covered (`Cover`): the object is marked, or a Mark of it is in
//! flight. Shading appends that Mark. Vouching appends none and relies on the sender, which held
//! the reference when it sent it, in the same cycle. What is covered stays covered until it is
//! marked.
//!
//! 4. The balances add up (`Flows`). For Marks and references from before the cycle, taken
//! together, the number that all nodes have sent less the number received is the number in flight.
//! Each counts in the same balance at both ends, whichever end joins first. No sum wraps (`Tally`).
//!
//! 5. The token knows enough (`Tokens`, `laws/proofs/Safra.antt`); the head of crate `cycles` says
//! what. A calm node, which has joined and has no grey object, starts to work again only on a
//! counted message, which makes it black and lowers its balance. A reference that is vouched for
//! can wake it too. But then its object was covered and not marked, so a Mark is in flight.
//!
//! 6. When node 0 finds that marking has ended, it has. Node 0 is white, the token is white, the
//! sum is 0, and node 0 has no grey object. Of the cases in (5) one is left: all nodes have joined,
//! none has a grey object, and neither a Mark nor a reference from before the cycle is in flight.
//! Then what is covered is marked (3), and what the nodes hold is marked (2). The other nodes only
//! repeat what node 0 says, so none says it too early.
//!
//! 7. It stays so (`Closed`, `Rested`). Roots and messages in flight refer only to marked objects,
//! marked objects refer only to marked objects, and new objects are marked. Nothing can reach an
//! unmarked object again, so a node may sweep in steps while programs run between them.
//!
//! 8. Restarts change nothing. What isn't in a saved state was never given to another node, since
//! only a save releases messages and acknowledgements. Choose for each node its current or its
//! saved state: this is a cut. Any cut is a space that could have come about without restarts
//! (`cuts_extend`), and each fact above holds of every cut of every run.
//!
//! 9. A Reclaim changes nothing. Whatever has a reference to a private object is its own node's
//! (`private`), since an object is shared as soon as a message carries a reference to it. So the
//! node finds alone what leads to it. What is left names nothing that was freed. A Reclaim of the
//! young frees less: only what was made since the last Reclaim. It needn't follow the places of old
//! objects, since each young object that one of these names is shared or remembered.
//!
//! 10. A Resolve changes nothing. The object that it brings back is the node's own, and marked.
//! While the node marks, it holds such an object anyway (2). Once marking has ended, that object
//! refers only to marked ones (7).
//!
//! That garbage is freed is another theorem (`old_garbage`). Take any time before the cycle.
//! Whatever a node still has after its sweep was reachable in some cut of that time, or was made
//! since, or wasn't saved by its owner then, or a program resolved what led to it.
//!
//! Programs see nothing of all this (`transparent`). Compare each cut with a space in which no
//! object is ever freed, and whose programs do the same. The two stay alike: the registers, the
//! letters and the messages of programs are the same, and every object that a node still has holds
//! the same word and places. A program that asks about an object has a reference to it, so the
//! object is reachable and hence live: both spaces make the same tests and give the same answer.
//! Only a Resolve may ask about an object that is gone, or refuse it for now.

mod letters;
mod node;
mod node_core;
mod roots;

pub use model::{Answer, Event, Letter, Summary};
pub use node::Node;
pub use node_core::{Core, LetterRef, NodeParts};
