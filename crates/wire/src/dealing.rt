//! Makes a wire and deals its seats and watches. Each node has one seat, the exclusive right to act
//! for it.
ghost use Rattle.std.specs.Prelude.{
  ◌≡◌,
  ℕ,
  ◌+◌,
  ◌*◌,
  ◌<◌,
  ◌≤◌,
  [],
  length,
  map,
  replicate,
  IfOk,
  IfErr,
  Some,
  slice_get,
  vec_capacity,
};
ghost use Rattle.ids.specs.declared.limits.TheConstants.{GREATEST_NODES};
ghost use Rattle.ids.specs.declared.refusal.Refusal.TheVariants.{Memory};
ghost use Rattle.model.specs.World.{World};
ghost use Rattle.wire.specs.Rule.{nodes_of, IsOpening};
ghost use Rattle.wire.specs.Readers.{
  width,
  opened_with,
  AreOpened,
  IsSeated,
  IsFreshWatch,
  IsMade,
  IsDealer,
};

use crate::plays::{NextNode, NextWatch};
use crate::seats::{NodeSeat, Watch, Wire};
use crate::views::{Opening, View};
use atomic_table::{Seat, Table};
use ids::{Cycle, Refusal, Shape};
use node::Node;
use std::alloc::{AllocError, Global};

impl Wire {
    /// Makes a wire between the nodes of a shape, a seat for each node, in order, and this many
    /// watches. All mailboxes are empty, no event has happened, and the board shows no cycle.
    /// Everything that the nodes hold is saved.
    ///
    /// For n nodes it allocates n * n mailboxes, each a word and an empty vector, and in each seat
    /// room for 2 * n mailbox numbers. No other call makes any of these larger. Fails with `Memory`
    /// if an allocation fails; then nothing stays allocated.
    pub fn new(
        alloc: Global,
        shape: Shape,
        nodes: &[Node],
        watches: u8,
    ) -> Result<(Wire, Vec<NodeSeat>, Vec<Watch>), Refusal>
        ghost opening: { World }
        requires { AreOpened shape (map (λ n. n.core) nodes.now) opening }
        ensures made { IfOk result (λ r. IsMade opening watches r.0 r.1.items r.2.items) }
        ensures refused { IfErr result (λ e. e ≡ Memory) }
    {
        let count = usize::from(shape.nodes());
        // Called for its contract, which holds of every node and is needed of node 0.
        let _sound = nodes[0].state();
        let opening = Opening::named();
        let (wire, mut dealer) = start(alloc, count, &opening)?;
        let seats = wire.node_seats(&mut dealer)?;
        let watching = wire.watches(&mut dealer, watches)?;
        Ok((wire, seats, watching))
    }

    fn node_seats(&self, dealer: &mut Seat<Vec<u8>, View>) -> Result<Vec<NodeSeat>, Refusal>
        requires { IsDealer self.now 0 dealer.old }
        ensures count { IfOk result (λ v. length v.items ≡ width self.now) }
        ensures each { IfOk result (λ v. (k : ℕ) (s : NodeSeat) → slice_get v.items k ≡ Some s
            → IsSeated self.now k s) }
        ensures dealer { IfOk result (λ _. IsDealer self.now (width self.now) dealer.new) }
        ensures refused { IfErr result (λ e. e ≡ Memory) }
    {
        let mut seats = Vec::with_capacity(self.alloc, self.nodes)?;
        for node in 0..self.nodes {
            let held = Vec::with_capacity(self.alloc, 2 * self.nodes)?;
            seats.push_reserved(self.next_seat(dealer, node, held));
        }
        Ok(seats)
    }

    fn next_seat(&self, dealer: &mut Seat<Vec<u8>, View>, node: usize, held: Vec<usize>) -> NodeSeat
        requires dealer { IsDealer self.now node dealer.old }
        requires node { node < width self.now }
        requires held { (held.items ≡ []) × (2 * width self.now ≤ vec_capacity held) }
        ensures seat { IsSeated self.now node result }
        ensures dealer { IsDealer self.now (node + 1) dealer.new }
    {
        let seat = self.table.shared.split_seat::<NextNode>(dealer);
        NodeSeat {
            seat,
            node,
            nodes: self.nodes,
            held,
        }
    }

    fn watches(&self, dealer: &mut Seat<Vec<u8>, View>, count: u8) -> Result<Vec<Watch>, Refusal>
        requires { IsDealer self.now (width self.now) dealer.old }
        ensures count { IfOk result (λ v. length v.items ≡ count) }
        ensures each { IfOk result (λ v. (k : ℕ) (x : Watch) → slice_get v.items k ≡ Some x
            → IsFreshWatch self.now x) }
        ensures refused { IfErr result (λ e. e ≡ Memory) }
    {
        let mut watching = Vec::with_capacity(self.alloc, usize::from(count))?;
        for _ in 0..count {
            watching.push_reserved(self.next_watch(dealer));
        }
        Ok(watching)
    }

    fn next_watch(&self, dealer: &mut Seat<Vec<u8>, View>) -> Watch
        requires { IsDealer self.now (width self.now) dealer.old }
        ensures watch { IsFreshWatch self.now result }
        ensures dealer { IsDealer self.now (width self.now) dealer.new }
    {
        let seat = self.table.shared.split_seat::<NextWatch>(dealer);
        Watch {
            seat,
            heard: Cycle { number: 0 },
        }
    }
}

// A wire between this many nodes, and its dealer.
fn start(
    alloc: Global,
    nodes: usize,
    opening: &Opening,
) -> Result<(Wire, Seat<Vec<u8>, View>), Refusal>
    requires opens { IsOpening opening.now.world }
    requires nodes { (nodes_of opening.now.world ≡ nodes) × (nodes ≤ GREATEST_NODES) }
    ensures made { IfOk result (λ r. (width r.0 ≡ nodes)
        × (opened_with r.0 ≡ opening.now.world) × IsDealer r.0 0 r.1) }
    ensures refused { IfErr result (λ e. e ≡ Memory) }
{
    let boxes = nodes * nodes;
    let words = Vec::from_elem(alloc, 0u64, boxes + 2)?;
    let slots = empty_slots(alloc, boxes)?;
    match Table::new(alloc, words.as_slice(), slots, opening) {
        Ok((table, dealer)) => {
            let wire = Wire {
                table,
                nodes,
                alloc,
            };
            Ok((wire, dealer))
        }
        Err(_) => Err(Refusal::Memory),
    }
}

fn empty_slots(alloc: Global, count: usize) -> Result<Vec<Vec<u8>>, AllocError>
    ensures { IfOk result (λ v. length v.items ≡ count) }
{
    let mut slots = Vec::with_capacity(alloc, count)?;
    for _ in 0..count {
        slots.push_reserved(Vec::new(alloc));
    }
    Ok(slots)
}
