//! The texts of messages and frames, for people to read.
ghost use Rattle.std.specs.Prelude.{◌≡◌, ◌≤◌, ◌+◌, ◌++◌, Some, codes, decimal, length};
ghost use Rattle.ids.specs.Texts.{reference_text};
ghost use Rattle.msg.specs.Frames.{plain, plain_data};
ghost use Rattle.msg.specs.declared.body.Body.TheVariants as said;
ghost use Rattle.script.specs.Endings.{Grows};
ghost use Rattle.script.specs.declared.ending.TheConstants.{ROOM};
ghost use Rattle.script.specs.declared.text.TheConstants.{LONGEST};
ghost use Rattle.script.specs.Frames.{body_text, colour_text, frame_text, token_text};

use crate::ending::Ending;
use crate::text::LONGEST;
use ids::Ref;
use msg::{Ack, Body, Colour, Data, Frame, Token};
use std::{fmt, str};

/// Writes a colour's name.
#[derive(Clone, Copy)]
pub(crate) struct ColourText(pub Colour);

impl fmt::Display for ColourText {
    ghost output = { λ t. Some (colour_text t.0) };

    fn fmt<W: fmt::Write>(&self, f: &mut fmt::Formatter<W>) -> fmt::Result {
        match self.0 {
            Colour::White => write!(f, "white"),
            Colour::Black => write!(f, "black"),
        }
    }
}

/// Writes the body of a message: its kind and its fields.
#[derive(Clone, Copy)]
struct BodyText<'a>(&'a Body);

impl fmt::Display for BodyText<'_> {
    ghost output = { λ t. Some (body_text t.0.now) };

    fn fmt<W: fmt::Write>(&self, f: &mut fmt::Formatter<W>) -> fmt::Result {
        let mut text = Ending::new();
        put_body(&mut text, self.0);
        // (each of these texts is ASCII, but no clause says that)
        match str::from_utf8(text.as_bytes()) {
            Ok(text) => f.write_str(text),
            Err(_) => Err(fmt::Error),
        }
    }
}

/// Puts the body of a message before a text.
#[tactic(auto, using(crate::proofs::Endings::both))]
fn put_body(text: &mut Ending, body: &Body)
    requires { (LONGEST ≤ text.old.start) × (text.old.start ≤ ROOM) }
    ensures grows { Grows (body_text body.now) text.old text.new }
    ensures room { text.new.start ≤ text.old.start }
{
    match *body {
        Body::Begin => text.put(b"begin"),
        Body::Token(token) => put_token(text, token),
        Body::Mark { target } => put_about(text, b"mark ", target),
        Body::Give { label, reference } => put_give(text, label, reference),
        Body::Put {
            target,
            place,
            reference,
        } => put_put(text, target, place, reference),
        Body::Get {
            target,
            place,
            label,
        } => put_get(text, target, place, label),
        Body::Post {
            label,
            ref references,
            ref bytes,
        } => put_post(text, label, references.len(), bytes.len()),
        Body::Fetch {
            target,
            label,
            offset,
            count,
        } => put_fetch(text, target, label, offset, count),
        Body::Ended => text.put(b"ended"),
        Body::Swept => text.put(b"swept"),
    }
}

#[tactic(auto, using(crate::proofs::Endings::both))]
fn put_token(text: &mut Ending, token: Token)
    requires { (LONGEST ≤ text.old.start) × (text.old.start ≤ ROOM) }
    ensures grows { Grows (codes "token " ++ token_text token) text.old text.new }
    ensures room { text.new.start ≤ text.old.start }
{
    text.put_signed(token.q);
    text.put_byte(b' ');
    text.put(colour_name(token.colour).as_bytes());
    text.put(b"token ");
}

fn colour_name(colour: Colour) -> &'static str
    ensures { result.now ≡ colour_text colour }
{
    match colour {
        Colour::White => "white",
        Colour::Black => "black",
    }
}

/// Puts a kind and the object that the body is about before a text.
#[tactic(auto, using(crate::proofs::Endings::both))]
fn put_about(text: &mut Ending, kind: &[u8], target: Ref)
    requires { (length kind.now + 62 ≤ text.old.start) × (text.old.start ≤ ROOM) }
    ensures grows { Grows (kind.now ++ reference_text target) text.old text.new }
    ensures room { text.new.start ≤ text.old.start }
{
    text.put_reference(target);
    text.put(kind);
}

#[tactic(auto, using(crate::proofs::Endings::both))]
fn put_give(text: &mut Ending, label: u32, reference: Option<Ref>)
    requires { (LONGEST ≤ text.old.start) × (text.old.start ≤ ROOM) }
    ensures grows { Grows (body_text (said.Give label reference)) text.old text.new }
    ensures room { text.new.start ≤ text.old.start }
{
    text.put_optional(reference);
    text.put_byte(b' ');
    text.put_number(u64::from(label));
    text.put(b"give ");
}

#[tactic(auto, using(crate::proofs::Endings::both))]
fn put_put(text: &mut Ending, target: Ref, place: u8, reference: Option<Ref>)
    requires { (LONGEST ≤ text.old.start) × (text.old.start ≤ ROOM) }
    ensures grows { Grows (body_text (said.Put target place reference)) text.old text.new }
    ensures room { text.new.start ≤ text.old.start }
{
    text.put_optional(reference);
    text.put_byte(b' ');
    text.put_number(u64::from(place));
    text.put_byte(b' ');
    put_about(text, b"put ", target);
}

#[tactic(auto, using(crate::proofs::Endings::both))]
fn put_get(text: &mut Ending, target: Ref, place: u8, label: u32)
    requires { (LONGEST ≤ text.old.start) × (text.old.start ≤ ROOM) }
    ensures grows { Grows (body_text (said.Get target place label)) text.old text.new }
    ensures room { text.new.start ≤ text.old.start }
{
    text.put_number(u64::from(label));
    text.put_byte(b' ');
    text.put_number(u64::from(place));
    text.put_byte(b' ');
    put_about(text, b"get ", target);
}

/// Puts a letter's label and how many references and bytes it has before a text.
#[tactic(auto, using(crate::proofs::Endings::both))]
fn put_post(text: &mut Ending, label: u32, references: usize, bytes: usize)
    requires { (LONGEST ≤ text.old.start) × (text.old.start ≤ ROOM) }
    ensures grows { Grows (codes "post " ++ (decimal label ++ (codes " " ++ (decimal references
        ++ (codes " references " ++ (decimal bytes ++ codes " bytes"))))))
        text.old text.new }
    ensures room { text.new.start ≤ text.old.start }
{
    text.put(b" bytes");
    text.put_number(bytes as u64);
    text.put(b" references ");
    text.put_number(references as u64);
    text.put_byte(b' ');
    text.put_number(u64::from(label));
    text.put(b"post ");
}

#[tactic(auto, using(crate::proofs::Endings::both))]
fn put_fetch(text: &mut Ending, target: Ref, label: u32, offset: u32, count: u32)
    requires { (LONGEST ≤ text.old.start) × (text.old.start ≤ ROOM) }
    ensures grows { Grows (body_text (said.Fetch target label offset count)) text.old text.new }
    ensures room { text.new.start ≤ text.old.start }
{
    text.put_number(u64::from(count));
    text.put_byte(b' ');
    text.put_number(u64::from(offset));
    text.put_byte(b' ');
    text.put_number(u64::from(label));
    text.put_byte(b' ');
    put_about(text, b"fetch ", target);
}

/// Writes a message's two nodes, its number, its stamp and its body.
#[derive(Clone, Copy)]
struct DataText<'a>(&'a Data);

impl fmt::Display for DataText<'_> {
    ghost output = { λ t. Some (frame_text (plain_data t.0.now)) };

    fn fmt<W: fmt::Write>(&self, f: &mut fmt::Formatter<W>) -> fmt::Result {
        let Data {
            from,
            to,
            number,
            stamp,
            ref body,
        } = *self.0;
        let body = BodyText(body);
        write!(
            f,
            "data {from} to {to} number {number} stamp {stamp} {body}"
        )
    }
}

/// Writes a message, or an acknowledgement's two nodes and its number.
#[derive(Clone, Copy)]
pub struct FrameText<'a>(pub &'a Frame);

impl fmt::Display for FrameText<'_> {
    ghost output = { λ t. Some (frame_text (plain t.0.now)) };

    fn fmt<W: fmt::Write>(&self, f: &mut fmt::Formatter<W>) -> fmt::Result {
        match self.0 {
            Frame::Data(message) => write!(f, "{}", DataText(message)),
            Frame::Ack(Ack { by, of, number }) => { write!(f, "ack {by} to {of} number {number}") }
        }
    }
}
