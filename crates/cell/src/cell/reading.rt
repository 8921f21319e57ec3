//! Reads bytes of objects and of letters. That is no event: it changes nothing, and adds no line to
//! the trace.
ghost use Rattle.std.specs.Prelude.{◌≡◌, ◌≢◌, ◌↔◌, Ok, Err, false, IfErr, IfOk, IsErrOf, IsTrue};
ghost use Rattle.cell.specs.Reading.{node_bytes, node_bytes_len, node_letter, node_letter_part};

use super::Cell;
use disk::Disk;
use ids::Refusal;
use model::Accepted;

impl<D: Disk> Cell<D> {
    /// The bytes of the object that the register `object` names, `count` of them from `offset` on.
    /// It is no event, and adds no line to the trace.
    ///
    /// Fails as the node does; with `Closed` exactly if the cell is closed.
    pub fn bytes(&self, object: u16, offset: u32, count: u32) -> Result<&[u8], Refusal>
        ensures value { IfOk result
            (λ b. node_bytes self.now.node object offset count ≡ Ok b.now) }
        ensures refused { IfErr result (λ e. e ≢ Refusal.Closed
            → node_bytes self.now.node object offset count ≡ Err e) }
        ensures closed { IsErrOf result Refusal.Closed ↔ (self.now.is_open ≡ false) }
    {
        if !self.store.is_ready() {
            return Err(Refusal::Closed);
        }
        self.desk.node().bytes(object, offset, count)
    }
    /// How many bytes the object has that the register `object` names. It is no event, and adds no
    /// line to the trace.
    ///
    /// Fails as the node does; with `Closed` if the cell is closed.
    pub fn bytes_len(&self, object: u16) -> Result<u32, Refusal>
        ensures read { IsTrue self.now.is_open → result ≡ node_bytes_len self.now.node object }
        ensures closed { self.now.is_open ≡ false → IsErrOf result Refusal.Closed }
    {
        if !self.store.is_ready() {
            return Err(Refusal::Closed);
        }
        self.desk.node().bytes_len(object)
    }

    /// What the program is told of the oldest letter before it accepts it. It is no event, and adds
    /// no line to the trace.
    ///
    /// Fails with `NoLetter` if no letter waits; with `Closed` if the cell is closed.
    pub fn letter(&self) -> Result<Accepted, Refusal>
        ensures read { IsTrue self.now.is_open → result ≡ node_letter self.now.node }
        ensures closed { self.now.is_open ≡ false → IsErrOf result Refusal.Closed }
    {
        if !self.store.is_ready() {
            return Err(Refusal::Closed);
        }
        self.desk.node().letter()
    }

    /// The first bytes of the oldest letter, this many of them. It is no event, and adds no line to
    /// the trace.
    ///
    /// Fails with `NoLetter` if no letter waits, with `NoBytes` if the letter has fewer bytes; with
    /// `Closed` exactly if the cell is closed.
    pub fn letter_part(&self, count: usize) -> Result<&[u8], Refusal>
        ensures value { IfOk result (λ b. node_letter_part self.now.node count ≡ Ok b.now) }
        ensures refused { IfErr result (λ e. e ≢ Refusal.Closed
            → node_letter_part self.now.node count ≡ Err e) }
        ensures closed { IsErrOf result Refusal.Closed ↔ (self.now.is_open ≡ false) }
    {
        if !self.store.is_ready() {
            return Err(Refusal::Closed);
        }
        self.desk.node().letter_part(count)
    }
}
