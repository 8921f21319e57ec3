//! The heads of packets between nodes, of requests of programs, and of answers to them.
ghost use Rattle.std.specs.Prelude.{◌≡◌, ◌+◌, ◌≤◌, ◌<◌, ◌^◌, ◌==◌, ◌&&◌, [], length, true};
ghost use Rattle.codec.specs.Formats.{Fits, number4};
ghost use Rattle.codec.specs.Pieces.{Adds};
ghost use Rattle.codec.specs.Readers.{Reads};
ghost use Rattle.codec.specs.declared.piece.TheConstants.{GREATEST_PIECE};
ghost use Rattle.packets.specs.Formats.{answer_fields, asked, head_format, is_packet_head};
ghost use Rattle.packets.specs.Formats.{packet_fields, packet_format, process_format};
ghost use Rattle.packets.specs.Formats.{request_fields, request_format, route, sizes};
ghost use Rattle.packets.specs.Laying.{Begins, Laid};

use crate::laying::lay;
use codec::{Piece, Reader};
use lineage::Process;

/// The first four bytes of a packet between nodes.
pub const PACKET: u32 = 0x4D52_5001;

/// Those of a request.
pub const REQUEST: u32 = 0x4D52_5101;

/// Those of an answer.
pub const ANSWER: u32 = 0x4D52_4101;

/// The head of a packet between nodes.
#[repr(C)]
#[derive(Clone, Copy)]
pub struct PacketHead {
    /// The id of the space.
    pub space: u64,
    /// The sender's node and the receiver's.
    pub from: u8,
    pub to: u8,
    /// The process that sends it.
    pub sender: Process,
    /// What the sender knows of the receiver's process: its nonce, and the number of its last save.
    pub known_nonce: u64,
    pub known_saves: u64,
    /// How many objects the sender has.
    pub live: u32,
    /// 1 if a program found the sender full, else 0.
    pub needs_cycle: u8,
    /// What the receiver said last of an earlier process of the sender, if it fits the sender.
    pub fits: u64,
}

/// The head of a request.
#[repr(C)]
#[derive(Clone, Copy)]
pub struct RequestHead {
    pub kind: u8,
    pub program: u8,
    /// That of the process that asks.
    pub session: u64,
    pub number: u64,
    /// Of events that follow.
    pub count: u16,
}

/// The head of an answer.
#[repr(C)]
#[derive(Clone, Copy)]
pub struct AnswerHead {
    /// As in the request.
    pub kind: u8,
    pub program: u8,
    pub session: u64,
    pub number: u64,
    pub verdict: u8,
    /// The number of the program's last request that was performed.
    pub last: u64,
    /// How many processes have opened the program.
    pub round: u64,
    /// The number of nodes, and that of this one; its registers and slots.
    pub nodes: u8,
    pub own: u8,
    pub registers: u16,
    pub slots: u32,
    /// Of results that follow.
    pub count: u16,
}

fn is_packet_head(head: &PacketHead) -> bool
    ensures { result ≡ is_packet_head head.now }
{
    head.sender.nonce != 0
        && head.sender.run != 0
        && head.sender.run <= head.sender.saves
        && head.needs_cycle <= 1
}

#[tactic(auto, unfolding(crate::specs::Formats::process_format), using(crate::proofs::Joins::both_read, crate::proofs::Joins::made))]
fn take_process(reader: &mut Reader) -> Process
    ensures { Reads process_format reader.old reader.new result }
{
    let nonce = reader.u64();
    let run = reader.u64();
    let saves = reader.u64();
    Process { nonce, run, saves }
}

#[tactic(auto, using(crate::proofs::Joins::both_read))]
fn take_route(reader: &mut Reader) -> (u64, u8, u8, Process)
    ensures { Reads route reader.old reader.new
        (result.0, (result.1, (result.2, result.3))) }
{
    let space = reader.u64();
    let from = reader.u8();
    let to = reader.u8();
    let sender = take_process(reader);
    (space, from, to, sender)
}

#[tactic(auto, unfolding(crate::specs::Formats::packet_fields), using(crate::proofs::Joins::both_read, crate::proofs::Joins::made))]
fn take_packet_fields(reader: &mut Reader) -> PacketHead
    ensures { Reads packet_fields reader.old reader.new result }
{
    let (space, from, to, sender) = take_route(reader);
    let known_nonce = reader.u64();
    let known_saves = reader.u64();
    let live = reader.u32();
    let needs_cycle = reader.u8();
    let fits = reader.u64();
    PacketHead {
        space,
        from,
        to,
        sender,
        known_nonce,
        known_saves,
        live,
        needs_cycle,
        fits,
    }
}

#[tactic(auto, unfolding(crate::specs::Formats::packet_format), using(crate::proofs::Joins::both_read, crate::proofs::Joins::made, crate::proofs::Joins::passed))]
fn take_packet_head(reader: &mut Reader) -> PacketHead
    ensures { Reads packet_format reader.old reader.new result }
{
    let mark = reader.u32();
    let head = take_packet_fields(reader);
    reader.check(mark == PACKET && is_packet_head(&head));
    head
}

/// The head that these bytes begin with.
pub fn packet_head(bytes: &[u8]) -> Option<PacketHead>
    ensures { Begins packet_format bytes.now result }
{
    let mut reader = Reader::new(bytes);
    let head = take_packet_head(&mut reader);
    reader.is_open().then_some(head)
}

#[tactic(auto, unfolding(crate::specs::Formats::request_fields), using(crate::proofs::Joins::both_read, crate::proofs::Joins::made))]
fn take_request_fields(reader: &mut Reader) -> RequestHead
    ensures { Reads request_fields reader.old reader.new result }
{
    let kind = reader.u8();
    let program = reader.u8();
    let session = reader.u64();
    let number = reader.u64();
    let count = reader.u16();
    RequestHead {
        kind,
        program,
        session,
        number,
        count,
    }
}

#[tactic(auto, unfolding(crate::specs::Formats::request_format), using(crate::proofs::Joins::both_read, crate::proofs::Joins::made, crate::proofs::Joins::passed))]
fn take_request_head(reader: &mut Reader) -> RequestHead
    ensures { Reads request_format reader.old reader.new result }
{
    let mark = reader.u32();
    let head = take_request_fields(reader);
    reader.check(mark == REQUEST && true);
    head
}

/// The head of the request that these bytes begin with.
pub fn request_head(bytes: &[u8]) -> Option<RequestHead>
    ensures { Begins request_format bytes.now result }
{
    let mut reader = Reader::new(bytes);
    let head = take_request_head(&mut reader);
    reader.is_open().then_some(head)
}

#[tactic(auto, unfolding(crate::specs::Formats::process_format), using(crate::proofs::Joins::gained))]
fn add_process(piece: &mut Piece, process: Process)
    requires { length piece.old + 24 ≤ GREATEST_PIECE }
    ensures { Adds process_format 24 piece.old piece.new process }
{
    piece.u64(process.nonce);
    piece.u64(process.run);
    piece.u64(process.saves);
}

#[tactic(auto, using(crate::proofs::Joins::gained))]
fn add_route(piece: &mut Piece, head: &PacketHead)
    requires { length piece.old + 63 ≤ GREATEST_PIECE }
    ensures { Adds route 34 piece.old piece.new
        (head.now.space, (head.now.from, (head.now.to, head.now.sender))) }
{
    piece.u64(head.space);
    piece.u8(head.from);
    piece.u8(head.to);
    add_process(piece, head.sender);
}

#[tactic(auto, unfolding(crate::specs::Formats::packet_fields), using(crate::proofs::Joins::gained))]
fn add_packet_fields(piece: &mut Piece, head: &PacketHead)
    requires { length piece.old + 63 ≤ GREATEST_PIECE }
    ensures { Adds packet_fields 63 piece.old piece.new head.now }
{
    add_route(piece, head);
    piece.u64(head.known_nonce);
    piece.u64(head.known_saves);
    piece.u32(head.live);
    piece.u8(head.needs_cycle);
    piece.u64(head.fits);
}

#[tactic(auto, unfolding(crate::specs::Formats::packet_format), using(crate::proofs::Joins::gained))]
fn add_packet_head(piece: &mut Piece, head: &PacketHead)
    requires { length piece.old + 67 ≤ GREATEST_PIECE }
    ensures { Adds packet_format 67 piece.old piece.new head.now }
{
    piece.u32(PACKET);
    add_packet_fields(piece, head);
}

/// Puts the head of a packet at the front of these bytes, and returns how many it has. Without room
/// for it, nothing changes, and the result is 0.
pub fn put_packet_head(to: &mut [u8], head: &PacketHead) -> usize
    ensures { Laid (packet_format.spell head.now) to.old to.new result }
{
    let mut piece = Piece::new();
    add_packet_head(&mut piece, head);
    lay(to, &piece)
}

// Of which request the answer is.
#[tactic(auto, using(crate::proofs::Joins::gained))]
fn add_asked(piece: &mut Piece, head: &AnswerHead)
    requires { length piece.old + 45 ≤ GREATEST_PIECE }
    ensures { Adds asked 18 piece.old piece.new
        (head.now.kind, (head.now.program, (head.now.session, head.now.number))) }
{
    piece.u8(head.kind);
    piece.u8(head.program);
    piece.u64(head.session);
    piece.u64(head.number);
}

#[tactic(auto, using(crate::proofs::Joins::gained))]
fn add_sizes(piece: &mut Piece, head: &AnswerHead)
    requires { length piece.old + 8 ≤ GREATEST_PIECE }
    ensures { Adds sizes 8 piece.old piece.new
        (head.now.nodes, (head.now.own, (head.now.registers, head.now.slots))) }
{
    piece.u8(head.nodes);
    piece.u8(head.own);
    piece.u16(head.registers);
    piece.u32(head.slots);
}

#[tactic(auto, unfolding(crate::specs::Formats::answer_fields), using(crate::proofs::Joins::gained))]
fn add_answer_fields(piece: &mut Piece, head: &AnswerHead)
    requires { length piece.old + 45 ≤ GREATEST_PIECE }
    ensures { Adds answer_fields 45 piece.old piece.new head.now }
{
    add_asked(piece, head);
    piece.u8(head.verdict);
    piece.u64(head.last);
    piece.u64(head.round);
    add_sizes(piece, head);
    piece.u16(head.count);
}

#[tactic(auto, unfolding(crate::specs::Formats::head_format), using(crate::proofs::Joins::gained))]
fn add_answer_head(piece: &mut Piece, head: &AnswerHead)
    requires { length piece.old + 49 ≤ GREATEST_PIECE }
    ensures { Adds head_format 49 piece.old piece.new head.now }
{
    piece.u32(ANSWER);
    add_answer_fields(piece, head);
}

/// Puts the head of an answer at the front of these bytes, and returns how many it has. Without
/// room for it, nothing changes, and the result is 0.
pub fn put_answer_head(to: &mut [u8], head: &AnswerHead) -> usize
    ensures { Laid (head_format.spell head.now) to.old to.new result }
{
    let mut piece = Piece::new();
    add_answer_head(&mut piece, head);
    lay(to, &piece)
}
