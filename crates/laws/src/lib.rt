#![tactic(auto)]
//! Theorems on what may happen in a space of nodes, over the definitions of crate `model`; no code
//! here does anything. They hold for every shape and every list of a program's events, deliveries,
//! saves and restarts.
//! `specs/Statements` says each of them in a few lines, and `proofs/` proves it. `specs/Sights`
//! says that programs can't see the collector, by comparison with a space without one
//! (`specs/Objects`). `specs/Privacy` says that a node frees its private garbage alone, all of it
//! or only what it made since it last did that. `specs/Progress` says that collection never gets
//! stuck (`progress.rt`). `specs/Copies` says that saved states of different moments go together.
//! `proofs/rows` has worked examples of the rules.
//!
//! # The ideas of the proofs
//!
//! Cuts only come from cuts (`Cuts`): a cut after a step is a cut before it, or one followed by one
//! step without saves and restarts. A node is only given what a saved state holds. So a step
//! extends the cuts with its node's current state, and saves and restarts only remove cuts.
//!
//! One invariant of runs without saves and restarts (`Invariant`). It therefore holds of every cut
//! of every run. The head of crate `node` explains it.
//!
//! Events in small steps (`Moves`, `Plain`): an event is split into steps so small that the whole
//! invariant holds between any two. Two records each keep all clauses of the invariant: `Inner` for
//! a step that changes no phase and no token, `Light` for a step that neither shades nor counts.
//! Steps that begin or end a cycle, or move the token, have lemmas of their own (`Starts`, `Joins`,
//! `Endings`, `RingSteps`, `Rounds`). A message is counted as received last, so it is still in
//! flight while its references are shaded or vouched for.
//!
//! What only grows (`Onward`): the messages that a node has sent and received, its cycle, and the
//! generations that it has given out never go back by an event or a receipt. So a saved state is
//! never ahead of the current one. The statements about the net and acknowledgements follow from
//! that (`Net`, `Deliveries`).
//!
//! States saved at different moments (`Mixes`, `Copies`): a mix of a run has for each node a state
//! that it had saved so far, or its current one. If no node has received more of another than that
//! one has sent, the mix comes about by events and receipts. For a node that is in the state that a
//! step made, take the one before it: what the others have received of this node, it had sent and
//! saved already. So each such step of the run is also one of the mix. Saves and restarts make no
//! new mixes.
//!
//! A fixed set of good references (`Good`, `GoodCuts`): suppose that a node's roots are good, that
//! good objects hold only good references, and that the node receives only good references. Then
//! whatever it marks, asks for and sends from some cycle on is good too. Let the good references be
//! those that a cut could reach, and those that weren't given out yet. Then what was garbage in
//! that cut is gone once its owner has swept a cycle that began later (`OldGarbage`).
//!
//! What is private (`Outside`, `Shown`): every reference that another node has, or that a message
//! mentions, was given out, and names no private object. That too is shown as for good references,
//! with others for each node. So a Reclaim frees nothing that is named outside its node. And what
//! it leaves names only what it leaves (`ReclaimSteps`). For a Reclaim of the young this rests on
//! what a node remembers (`Remembering`): no place of an old object names a young one. So what is
//! named only by old objects is kept, although their places aren't read.
//!
//! A space beside the cut (`Things`, `Doings`, `Telling`, `Transparent`): a space without a
//! collector has the cut's registers, letters and messages of programs. Each object that a node
//! still has is in it unchanged, and it has no object under a reference that its node hasn't given
//! out yet. All live objects are compared, not only the reachable ones. So each step preserves the
//! comparison by itself, and no lemma says what a step makes reachable.

pub mod progress;
