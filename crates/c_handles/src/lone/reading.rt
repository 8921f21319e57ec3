//! Reads of a node that its caller holds. They change nothing and take no memory.
ghost use Rattle.std.specs.Prelude.{◌≡◌, ◌<◌, OnOk, length};
ghost use Rattle.c_handles.specs.Reads.{link_of, object_bytes, object_len, other_node, register_of, waiting_number};
ghost use Rattle.c_values.specs.Bytes.{WroteIf};
ghost use Rattle.node.specs.Summaries.{summary_of};

use super::LoneNode;
use c_values::{CLink, Fault, put};
use ids::{Ref, Refusal};
use node::{Core, Node, Summary};

/// Fails with `NoNode` if this isn't another node of the node's space.
pub(crate) fn other_node(core: &Core, node: u8) -> Result<(), Fault>
    ensures value { result ≡ other_node core.now.local node }
    ensures linked { OnOk result (node < length core.now.links) }
{
    let state = core.state();
    if node < state.shape.nodes() && node != state.own {
        Ok(())
    } else {
        Err(Fault::Refused(Refusal::NoNode))
    }
}

/// The reference in a register. Fails with `NoRegister`, and with `Nothing` if the register is
/// empty.
pub(crate) fn register_of(core: &Core, register: u16) -> Result<Ref, Fault>
    ensures { result ≡ register_of core.now.local register }
{
    match core.heap().registers().get(usize::from(register)) {
        Some(Some(reference)) => Ok(*reference),
        Some(None) => Err(Fault::Nothing),
        None => Err(Fault::Refused(Refusal::NoRegister)),
    }
}

/// Writes `count` bytes of an object, from `offset` on. Fails as the node does, and with
/// `ShortBuffer`.
pub(crate) fn bytes_of(
    node: &Node,
    object: u16,
    offset: u32,
    count: u32,
    buffer: &mut [u8],
    needed: &mut usize,
) -> Result<(), Fault>
    ensures { WroteIf (object_bytes node.now.core.local object offset count) result buffer.old
        buffer.new needed.old needed.new }
{
    let bytes = node.bytes(object, offset, count)?;
    put(bytes, buffer, needed)
}

/// How many bytes an object has. Fails as the node does.
pub(crate) fn bytes_len_of(node: &Node, object: u16) -> Result<u32, Fault>
    ensures { result ≡ object_len node.now.core.local object }
{
    let len = node.bytes_len(object)?;
    Ok(len)
}

/// What the node knows of the links between it and another node. Fails with `NoNode`.
pub(crate) fn link_of(core: &Core, peer: u8) -> Result<CLink, Fault>
    ensures { result ≡ link_of core.now peer }
{
    other_node(core, peer)?;
    let links = core.links();
    Ok(CLink {
        appended: links.used(peer),
        released: links.released(peer),
        acknowledged: links.base(peer),
        received: links.taken(peer),
        received_saved: links.ack_number(peer),
    })
}

/// The number of the message that waits from another node. Fails with `NoNode`, and with `Nothing`
/// if none waits.
pub(crate) fn waiting_number(node: &Node, from: u8) -> Result<u64, Fault>
    ensures { result ≡ waiting_number node.now from }
{
    other_node(node.core(), from)?;
    match node.waiting(from) {
        Some(data) => Ok(data.number),
        None => Err(Fault::Nothing),
    }
}

impl LoneNode {
    /// The node in numbers.
    pub fn state(&self) -> Summary
        ensures { result ≡ summary_of self.now.node.core.local }
    {
        self.logged.node.state()
    }

    /// Whether an event changed the node since the image that was kept last.
    pub fn is_unsaved(&self) -> bool
        ensures { result ≡ self.now.is_unsaved }
    {
        self.is_unsaved
    }

    /// Whether the node keeps a log.
    #[inline(always)]
    pub fn logs(&self) -> bool
        ensures { result ≡ self.now.logs }
    {
        self.logged.logs
    }

    /// The reference in a register. Fails with `NoRegister`, and with `Nothing` if the register is
    /// empty.
    pub fn register(&self, register: u16) -> Result<Ref, Fault>
        ensures { result ≡ register_of self.now.node.core.local register }
    {
        register_of(self.logged.node.core(), register)
    }

    /// Writes `count` bytes of an object, from `offset` on. Fails as the node does, and with
    /// `ShortBuffer`.
    pub fn bytes(
        &self,
        object: u16,
        offset: u32,
        count: u32,
        buffer: &mut [u8],
        needed: &mut usize,
    ) -> Result<(), Fault>
        ensures { WroteIf (object_bytes self.now.node.core.local object offset count) result
            buffer.old buffer.new needed.old needed.new }
    {
        bytes_of(&self.logged.node, object, offset, count, buffer, needed)
    }

    /// How many bytes an object has. Fails as the node does.
    pub fn bytes_len(&self, object: u16) -> Result<u32, Fault>
        ensures { result ≡ object_len self.now.node.core.local object }
    {
        bytes_len_of(&self.logged.node, object)
    }

    /// What the node knows of the links between it and another node. Fails with `NoNode`.
    pub fn link(&self, peer: u8) -> Result<CLink, Fault>
        ensures { result ≡ link_of self.now.node.core peer }
    {
        link_of(self.logged.node.core(), peer)
    }

    /// The number of the message that waits from another node. Fails with `NoNode`, and with
    /// `Nothing` if none waits.
    pub fn waiting(&self, from: u8) -> Result<u64, Fault>
        ensures { result ≡ waiting_number self.now.node from }
    {
        waiting_number(&self.logged.node, from)
    }
}
