//! A restore from copies of nodes that were made at different moments. Each copy has some saved
//! states of its node. Copies of one run go together if no node has received more messages of
//! another than that one has sent, nor dropped messages that the other lacks. [`choose`] finds the
//! newest states that do.
#![tactic(auto)]

ghost use Rattle.std.specs.Prelude.{◌≡◌, ◌≢◌, ◌-◌, ◌<◌, ◌≤◌, ◌↔◌, ℕ, false, IfOk, IsTrue, MatchOption, Some, length, map, slice_index, vec_len};
ghost use Rattle.restore_choice.specs.Choices.{chosen_of, states_of, AreHistories, AreInOrder, Fits, FitsBeside, IsAfter, IsAhead, IsChoice, IsAnswer, IsGreatest, NoneFit};

use std::alloc::{AllocError, Global};

/// What a node had counted of each node in one of its saved states. A number that is left out is 0.
#[derive(Debug, Drop)]
pub struct State {
    /// How many of its messages were received.
    pub received: Vec<u64>,
    /// How many messages were sent to it.
    pub sent: Vec<u64>,
    /// How many of these were dropped, because they were acknowledged.
    pub dropped: Vec<u64>,
}

// The number at this place, or 0 past the end.
fn number(numbers: &[u64], place: usize) -> u64
    ensures { result ≡ slice_index numbers.now place }
{
    numbers.get(place).copied().unwrap_or(0)
}

// Whether no number of the first is above the one in its place in the second.
fn has_grown(first: &[u64], second: &[u64]) -> bool
    ensures { IsTrue result ↔ ((j : ℕ) → slice_index first.now j ≤ slice_index second.now j) }
{
    for (j, x) in first.iter().enumerate() {
        if *x > number(second, j) {
            return false;
        }
    }
    true
}

// Whether the second state comes after the first one.
fn is_after(first: &State, second: &State) -> bool
    ensures { IsTrue result ↔ IsAfter first.now second.now }
{
    has_grown(first.received.as_slice(), second.received.as_slice())
        && has_grown(first.sent.as_slice(), second.sent.as_slice())
}

/// Whether the states of a node are in their order, the oldest first: what it received and sent
/// only grows.
pub fn are_in_order(states: &[State]) -> bool
    ensures { IsTrue result ↔ AreInOrder states.now }
{
    for at in 1..states.len() {
        if !is_after(&states[at - 1], &states[at]) {
            return false;
        }
    }
    true
}

// Whether the first state, of a node, fits beside the second one, of another node.
fn fits_beside(node: usize, first: &State, other: usize, second: &State) -> bool
    ensures { IsTrue result ↔ FitsBeside node other (Some first.now) (Some second.now) }
{
    let received = number(second.received.as_slice(), node);
    number(first.received.as_slice(), other) <= number(second.sent.as_slice(), node)
        && number(first.dropped.as_slice(), other) <= received
}

// The chosen state of a node.
fn chosen<'a>(histories: &'a [Vec<State>], choice: &[usize], node: usize) -> &'a State
    requires choice { IsChoice histories.now choice.now }
    requires inside { node < length histories.now }
    ensures { chosen_of histories.now choice.now node ≡ Some result.now }
{
    &histories[node][choice[node]]
}

// Whether the chosen state of this node is too new for that of another node.
fn is_ahead(histories: &[Vec<State>], choice: &[usize], node: usize) -> bool
    requires choice { IsChoice histories.now choice.now }
    requires inside { node < length histories.now }
    ensures ahead { IsTrue result → IsAhead histories.now choice.now node }
    ensures fits { result ≡ false → (j : ℕ) → j < length histories.now → node ≢ j
        → FitsBeside node j (chosen_of histories.now choice.now node)
        (chosen_of histories.now choice.now j) }
{
    let own = chosen(histories, choice, node);
    for other in 0..histories.len() {
        if other != node && !fits_beside(node, own, other, chosen(histories, choice, other)) {
            return true;
        }
    }
    false
}

// A node whose chosen state is too new for that of another node.
fn find_ahead(histories: &[Vec<State>], choice: &[usize]) -> Option<usize>
    requires { IsChoice histories.now choice.now }
    ensures { MatchOption result (Fits histories.now choice.now)
        (λ node. IsAhead histories.now choice.now node) }
{
    for node in 0..histories.len() {
        if is_ahead(histories, choice, node) {
            return Some(node);
        }
    }
    None
}

// The newest state of each node.
fn newest(alloc: Global, histories: &[Vec<State>]) -> Result<Vec<usize>, AllocError>
    ensures { IfOk result (λ v. v.items ≡ map (λ states. vec_len states - 1) histories.now) }
{
    histories
        .iter()
        .map(|states| states.len().saturating_sub(1))
        .collect(alloc)
}

/// The newest states of all nodes that go together. For each node it is given its saved states,
/// oldest first ([`are_in_order`]), and returns the index of one of them. The choice fits: no node
/// has received more messages of another than that one has sent to it, and none has dropped
/// messages that the other has not received. No other choice that fits has a newer state of any
/// node. `None` if no choice fits.
///
/// Fails if an allocation fails.
pub fn choose(alloc: Global, histories: &[Vec<State>]) -> Result<Option<Vec<usize>>, AllocError>
    requires { AreHistories histories.now }
    ensures { IfOk result (λ found. MatchOption found (NoneFit histories.now)
        (λ choice. IsGreatest histories.now choice.items)) }
{
    if histories.iter().any(|states| states.is_empty()) {
        return Ok(None);
    }
    let mut choice = newest(alloc, histories)?;
    while let Some(node) = find_ahead(histories, choice.as_slice()) {
        if choice[node] == 0 {
            return Ok(None);
        }
        choice[node] -= 1;
    }
    Ok(Some(choice))
}

/// What [`decide`] found.
#[derive(Debug, Drop)]
pub enum Answer {
    /// The index of each node's state, for the newest states that go together.
    Newest(Vec<usize>),
    /// No states go together.
    NoneFits,
    /// The states of this node aren't in their order.
    OutOfOrder(usize),
}

// The first node whose states aren't in their order.
fn find_disorder(histories: &[Vec<State>]) -> Option<usize>
    ensures { MatchOption result (AreHistories histories.now)
        (λ node. AreInOrder (states_of histories.now node) → ⊥) }
{
    for (node, states) in histories.iter().enumerate() {
        if !are_in_order(states.as_slice()) {
            return Some(node);
        }
    }
    None
}

/// [`choose`] for states that may be in any order. Fails if an allocation fails.
pub fn decide(alloc: Global, histories: &[Vec<State>]) -> Result<Answer, AllocError>
    ensures { IfOk result (IsAnswer histories.now) }
{
    if let Some(node) = find_disorder(histories) {
        return Ok(Answer::OutOfOrder(node));
    }
    match choose(alloc, histories)? {
        Some(choice) => Ok(Answer::Newest(choice)),
        None => Ok(Answer::NoneFits),
    }
}
