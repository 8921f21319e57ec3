//! Runs a script over a space of nodes. For each line the space takes a step, and the reply is
//! printed; a line outside the grammar is the last. The status is that of the worst reply.
ghost use Rattle.std.specs.Prelude.{◌≡◌, ◌≤◌, ℕ, List, true, None, Some, IfOk, OnOk, IfErr, IsTrue, ◌≢◌, ◌⊎◌, Ok, Err, ◌++◌, ◌∷◌, [], string_bytes};
ghost use Rattle.std.specs.Io.KnownBytes.{Appends};
ghost use Rattle.model.specs.declared.event.Event.{Event};
ghost use Rattle.model.specs.declared.event.Event.TheVariants as event;
ghost use Rattle.model.specs.declared.step.Step.{Step};
ghost use Rattle.model.specs.declared.step.Step.TheVariants as steps;
ghost use Rattle.model.specs.Steps.{is_own};
ghost use Rattle.model.specs.World.{World, is_own_step};
ghost use Rattle.world.specs.Spaces.{ShowsSpace};
ghost use Rattle.commands.specs.Freed.{KeepsSums, freed_with, sweeper};
ghost use Rattle.script.specs.Grammar.{plain};
ghost use Rattle.world.specs.Shows.{bytes_read, letter_bytes_read};
ghost use Rattle.commands.specs.Script.{Moves, PrintsReplies};
ghost use Rattle.commands.specs.Script.{PrintsUnread, TakesLine, TakesText, TakesReport, TakesSpace};
ghost use Rattle.commands.specs.Script.{IsRead, TakesBytes, TakesRead, TakesWrite, hex_bytes, is_wide, writes};
ghost use Rattle.commands.specs.Script.{TakesState, TakesStep, TakesWide, is_wide_line, reply_text, status_after};
ghost use Rattle.commands.specs.Script.{PrintsReply, StepDone};
ghost use Rattle.commands.specs.declared.freed.Freed.{Freed};
ghost use Rattle.script.specs.Text.{outcome_text};
ghost use Rattle.world.specs.Spaces.{delivered, handed};
ghost use Rattle.commands.specs.declared.simulation.Reply.TheVariants as reply;
ghost use Rattle.commands.specs.declared.simulation.State.TheVariants as state;
ghost use Rattle.script.specs.declared.line.Line.TheVariants as line;

use crate::bytes::{Writing, bytes_spelled, text_of_bytes};
use crate::freed::{Freed, freed_by, sweeper};
use crate::output::{
    Lost, flush, print_line, print_no_command, print_outcome, print_refusal, print_unread,
    put_report, put_summary, put_text,
};
use crate::reading::Unread;
use crate::splitting::first_line;
use hex::FromHexError;
use ids::{Refusal, Shape};
use model::{Answer, Event, Outcome, Step};
use node::Summary;
use script::{Line, Printer};
use std::alloc::Global;
use std::io::Write;
use words::{DONE, UNREADABLE};
use world::Sim;

/// The space of a script.
#[derive(Drop)]
enum State {
    /// No line has asked for it yet.
    Unopened,
    /// It is there, with the numbers of objects that its sweeps freed.
    Open { space: Sim, freed: Freed },
    /// It was refused, and so is each step of it.
    Refused(Refusal),
}

/// The reply to a line of a script.
#[derive(Drop)]
enum Reply {
    /// Nothing is printed.
    Nothing,
    Outcome(Outcome),
    Summary(Summary),
    /// How many objects the sweeps of each cycle freed, from the first cycle on.
    Report(Vec<u64>),
    /// Bytes that were read, as text.
    Bytes(String),
    Refused(Refusal),
    /// The line is outside the grammar.
    NoCommand,
}

/// Runs a script in one thread, prints the replies to its lines, and returns the exit status. The
/// status is 0 if no line was refused; 1 if a line was refused or memory ran out; and 2 if the
/// script couldn't be read or a line is outside the grammar. A line outside the grammar is the last
/// one that is looked at. It fails if the output does.
///
/// The outcome of a step is written in one call, any other line in several, so a writer whose calls
/// are expensive should be buffered. The output is flushed at the end. If the output fails, some of
/// the text may have been written.
pub fn sim<W: Write>(
    alloc: Global,
    script: &Result<String, Unread>,
    out: &mut W,
) -> Result<u8, Lost>
    ensures replies { IfOk script.now (λ text. IfOk result (λ status.
        PrintsReplies (string_bytes text) status (W.contents out.old) (W.contents out.new))) }
    ensures unread { IfErr script.now (λ why. IfOk result (λ status.
        PrintsUnread why status (W.contents out.old) (W.contents out.new))) }
    ensures small { IfOk result (λ status. status ≤ 2) }
{
    let text = match script {
        Ok(text) => text.as_str(),
        Err(unread) => {
            let status = print_unread(out, unread)?;
            flush(out)?;
            return Ok(status);
        }
    };
    let mut state = State::Unopened;
    let mut status = DONE;
    let mut said = Line::Blank;
    let mut printer = Printer::new();
    let mut rest = text;
    let mut number = 0;
    while !rest.is_empty() {
        let (line, others) = first_line(rest);
        rest = others;
        number += 1;
        let reached = run_line(
            alloc,
            &mut state,
            &mut said,
            &mut printer,
            number,
            line,
            out,
        )?;
        status = status.max(reached);
        if reached == UNREADABLE {
            flush(out)?;
            return Ok(status);
        }
    }
    flush(out)?;
    Ok(status)
}

/// Does what the line of this number says, prints the reply, and returns the line's status. It
/// fails if the output does. The line is read into a value that all lines share, because a new one
/// would be zeroed first.
#[inline(always)]
fn run_line<'a, W: Write>(
    alloc: Global,
    state: &mut State,
    said: &mut Line<'a>,
    printer: &mut Printer,
    number: usize,
    text: &'a str,
    out: &mut W,
) -> Result<u8, Lost>
    ensures { IfOk result (PrintsReply
        (λ h r later. TakesText h text.now r later) number
        state.old state.new (W.contents out.old) (W.contents out.new)) }
{
    if said.read(text).is_none() {
        return print_no_command(out, number);
    }
    let Line::Step(step) = &*said else {
        return run_other(alloc, state, number, said, out);
    };
    match state {
        State::Unopened => print_no_command(out, number),
        State::Refused(refusal) => print_refusal(out, *refusal),
        State::Open { space, freed } => match step {
            Step::Act(node, event) => {
                let swept = sweeper(*node, event);
                match &space.act(*node, event) {
                    Ok(answer) => {
                        note(space, freed, swept, freed_by(answer));
                        printer.put_answer(answer);
                        print_line(printer, out)
                    }
                    Err(refusal) => print_refusal(out, *refusal),
                }
            }
            _ => run_move(space, printer, step, out),
        },
    }
}

/// Takes a step that isn't an event, and prints the outcome. What each kind of step returns is put
/// on the line at once, because an outcome is large. (Not inlined, so that events don't pay for
/// it.)
#[inline(never)]
fn run_move<W: Write>(
    space: &mut Sim,
    printer: &mut Printer,
    step: &Step,
    out: &mut W,
) -> Result<u8, Lost>
    requires other { (node : ℕ) (event : Event) → step.now ≢ steps.Act node event }
    ensures { (number : ℕ) (f : Freed) → IfOk result (PrintsReply
        (λ h r later. TakesStep h step.now r later) number
        (state.Open space.old f) (state.Open space.new f)
        (W.contents out.old) (W.contents out.new)) }
{
    let taken = match step {
        Step::Act(..) => unreachable!(),
        Step::Save(node) => save(space, printer, *node),
        Step::Restart(node) => restart(space, printer, *node),
        Step::Deliver { from, to, number } => deliver(space, printer, *from, *to, *number),
        Step::Hand { from, to } => hand(space, printer, *from, *to),
    };
    match taken {
        Ok(()) => print_line(printer, out),
        Err(refusal) => print_refusal(out, refusal),
    }
}

/// Saves a node, and puts the outcome on the line.
#[inline(always)]
fn save(space: &mut Sim, printer: &mut Printer, node: u8) -> Result<(), Refusal>
    ensures { (f : Freed) → StepDone (steps.Save node) result
        (state.Open space.old f) (state.Open space.new f) printer.new }
{
    match space.save(node) {
        Ok(()) => {
            printer.put_outcome(&Outcome::Done);
            Ok(())
        }
        Err(refusal) => Err(refusal),
    }
}

/// Restarts a node, and puts the outcome on the line. (Not inlined, because an outcome is large.)
#[inline(never)]
fn restart(space: &mut Sim, printer: &mut Printer, node: u8) -> Result<(), Refusal>
    ensures { (f : Freed) → StepDone (steps.Restart node) result
        (state.Open space.old f) (state.Open space.new f) printer.new }
{
    match &space.step(&Step::Restart(node)) {
        Ok(outcome) => {
            printer.put_outcome(outcome);
            Ok(())
        }
        Err(refusal) => Err(*refusal),
    }
}

/// Delivers the message of this number from one node to another, and puts the answer on the line.
#[inline(always)]
fn deliver(
    space: &mut Sim,
    printer: &mut Printer,
    from: u8,
    to: u8,
    number: u64,
) -> Result<(), Refusal>
    ensures { (f : Freed) → StepDone (steps.Deliver from to number) result
        (state.Open space.old f) (state.Open space.new f) printer.new }
{
    match &space.deliver(from, to, number) {
        Ok(answer) => {
            put_delivered(printer, answer);
            Ok(())
        }
        Err(refusal) => Err(*refusal),
    }
}

/// Puts on the line what a node answered to a message that was delivered, if there was one.
#[inline(always)]
fn put_delivered(printer: &mut Printer, answer: &Option<Answer>)
    ensures { printer.new ≡ outcome_text (delivered answer.now) ++ 10 ∷ [] }
{
    match answer {
        Some(answer) => printer.put_reply(answer),
        None => printer.put_outcome(&Outcome::NoFrame),
    }
}

/// Gives the node `from` what the saved node `to` acknowledges, and puts the number on the line.
#[inline(always)]
fn hand(space: &mut Sim, printer: &mut Printer, from: u8, to: u8) -> Result<(), Refusal>
    ensures { (f : Freed) → StepDone (steps.Hand from to) result
        (state.Open space.old f) (state.Open space.new f) printer.new }
{
    match space.hand(from, to) {
        Ok(number) => {
            put_handed(printer, number);
            Ok(())
        }
        Err(refusal) => Err(refusal),
    }
}

/// Puts on the line which number was acknowledged, if one was.
#[inline(always)]
fn put_handed(printer: &mut Printer, number: Option<u64>)
    ensures { printer.new ≡ outcome_text (handed number) ++ 10 ∷ [] }
{
    match number {
        Some(number) => printer.put_outcome(&Outcome::Handed(number)),
        None => printer.put_outcome(&Outcome::NoFrame),
    }
}

/// Does what a line says that isn't a step, as [`run_line`] does. (Not inlined there: a reply is
/// large, and would be zeroed for each step.)
#[inline(never)]
fn run_other<W: Write>(
    alloc: Global,
    state: &mut State,
    number: usize,
    said: &Line,
    out: &mut W,
) -> Result<u8, Lost>
    requires { (step : Step) → said.now ≢ line.Step step }
    ensures { IfOk result (PrintsReply
        (λ h r later. TakesLine h (Some (plain said.now)) r later) number
        state.old state.new (W.contents out.old) (W.contents out.new)) }
{
    let reply = match *said {
        Line::Step(_) => unreachable!(),
        Line::Blank => Reply::Nothing,
        Line::Space {
            nodes,
            registers,
            slots,
        } => take_space(alloc, state, nodes, registers, slots),
        Line::Wide {
            nodes,
            registers,
            slots,
            places,
            bytes,
        } => take_wide(alloc, state, nodes, registers, slots, places, bytes),
        Line::SetBytes { .. }
        | Line::Patch { .. }
        | Line::Bytes { .. }
        | Line::Post { .. }
        | Line::Fetch { .. }
        | Line::Resolve { .. }
        | Line::Letter(_)
        | Line::Reclaim { .. } => only_wide(alloc, state, said),
        Line::State(node) => show_state(state, node),
        Line::Report => report(alloc, state),
    };
    print_reply(out, number, &reply)
}

/// Does what a line says that only the scripts of wide spaces have.
fn only_wide(alloc: Global, state: &mut State, said: &Line) -> Reply
    requires { is_wide_line said.now ≡ true }
    ensures { Moves (λ h later. TakesLine h (Some (plain said.now)) result later)
        state.old state.new }
{
    match *said {
        Line::SetBytes { node, object, hex } => {
            write(alloc, state, node, Writing::All { object }, hex)
        }
        Line::Patch {
            node,
            object,
            offset,
            hex,
        } => write(alloc, state, node, Writing::Part { object, offset }, hex),
        Line::Post {
            node,
            to,
            label,
            first,
            count,
            hex,
        } => {
            let letter = Writing::Letter {
                to,
                label,
                first,
                count,
            };
            write(alloc, state, node, letter, hex)
        }
        Line::Bytes {
            node,
            object,
            offset,
            count,
        } => read(alloc, state, node, object, offset, count),
        Line::Letter(node) => letter(alloc, state, node),
        Line::Fetch {
            node,
            object,
            label,
            offset,
            count,
        } => {
            let event = Event::Fetch {
                object,
                label,
                offset,
                count,
            };
            act_wide(state, node, &event)
        }
        Line::Resolve {
            node,
            register,
            reference,
        } => {
            let event = Event::Resolve {
                register,
                reference,
            };
            act_wide(state, node, &event)
        }
        Line::Reclaim { node, scope } => act_wide(state, node, &Event::Reclaim { scope }),
        _ => unreachable!(),
    }
}

/// Prints the reply to the line of this number, and returns the line's status. It fails if the
/// output does.
fn print_reply<W: Write>(out: &mut W, number: usize, reply: &Reply) -> Result<u8, Lost>
    ensures text { OnOk result
        (Appends (W.contents out.old) (W.contents out.new) (reply_text number reply.now)) }
    ensures status { IfOk result (λ status. status ≡ status_after reply.now) }
{
    match reply {
        Reply::Nothing => {}
        Reply::Outcome(outcome) => return print_outcome(out, outcome),
        Reply::Summary(summary) => put_summary(out, *summary)?,
        Reply::Report(sums) => put_report(out, sums)?,
        Reply::Bytes(text) => put_text(out, text)?,
        Reply::Refused(refusal) => return print_refusal(out, *refusal),
        Reply::NoCommand => return print_no_command(out, number),
    }
    Ok(DONE)
}

/// Creates the space of these sizes, if no line asked for one before and they are within the
/// limits.
fn take_space(alloc: Global, state: &mut State, nodes: u8, registers: u16, slots: u32) -> Reply
    ensures { Moves
        (λ h later. TakesLine h (Some (line.Space nodes registers slots)) result later)
        state.old state.new }
{
    match Shape::new(nodes, registers, slots) {
        Some(shape) => open(alloc, state, shape),
        None => Reply::NoCommand,
    }
}

/// Creates the wide space of these sizes, if no line asked for a space before and they are within
/// the limits.
fn take_wide(
    alloc: Global,
    state: &mut State,
    nodes: u8,
    registers: u16,
    slots: u32,
    places: u8,
    bytes: u32,
) -> Reply
    ensures { Moves (λ h later.
        TakesLine h (Some (line.Wide nodes registers slots places bytes)) result later)
        state.old state.new }
{
    match Shape::wide(nodes, registers, slots, places, bytes) {
        Some(shape) => open(alloc, state, shape),
        None => Reply::NoCommand,
    }
}

/// Creates the space, if no line asked for one before.
fn open(alloc: Global, state: &mut State, shape: Shape) -> Reply
    ensures { Moves
        (λ h later. TakesSpace h shape result later) state.old state.new }
{
    let State::Unopened = state else {
        return Reply::NoCommand;
    };
    match Sim::new(alloc, shape) {
        Ok(space) => {
            let freed = Freed::new(alloc);
            *state = State::Open { space, freed };
            Reply::Outcome(Outcome::Done)
        }
        Err(refusal) => {
            *state = State::Refused(refusal);
            Reply::Refused(refusal)
        }
    }
}

/// Whether the space is wide.
fn is_wide(space: &Sim) -> bool
    ensures { (w : World) → ShowsSpace space.now w → result ≡ is_wide w }
{
    match space.state(0) {
        Some(summary) => summary.shape.is_wide(),
        None => false,
    }
}

/// Gives a node the event that writes or sends the bytes that the word spells, if a line has asked
/// for a wide space.
fn write(alloc: Global, state: &mut State, node: u8, writing: Writing, word: &str) -> Reply
    ensures { Moves (λ h later.
        TakesWrite h word.now (λ b. steps.Act node (writes writing b)) result later)
        state.old state.new }
{
    match state {
        State::Unopened => Reply::NoCommand,
        State::Refused(refusal) => Reply::Refused(*refusal),
        State::Open { space, .. } => {
            if is_wide(space) {
                write_in(alloc, space, node, writing, word)
            } else {
                Reply::NoCommand
            }
        }
    }
}

/// The same in a wide space.
fn write_in(alloc: Global, space: &mut Sim, node: u8, writing: Writing, word: &str) -> Reply
    ensures { (f : Freed) → Moves (λ h later.
        TakesBytes h (hex_bytes word.now) (λ b. steps.Act node (writes writing b)) result later)
        (state.Open space.old f) (state.Open space.new f) }
{
    match bytes_spelled(alloc, word) {
        Ok(bytes) => match space.act(node, &writing.event(bytes.as_slice())) {
            Ok(answer) => Reply::Outcome(Outcome::Answer(answer)),
            Err(refusal) => Reply::Refused(refusal),
        },
        Err(FromHexError::OutOfMemory) => Reply::Refused(Refusal::Memory),
        Err(_) => Reply::NoCommand,
    }
}

/// Gives a node an event that only the scripts of wide spaces have, if a line has asked for one.
fn act_wide(state: &mut State, node: u8, event: &Event) -> Reply
    requires own { IsTrue (is_own event.now) }
    requires quiet { sweeper (steps.Act node event.now) ≡ None }
    ensures { Moves (λ h later. TakesWide h (steps.Act node event.now) result later)
        state.old state.new }
{
    match state {
        State::Unopened => Reply::NoCommand,
        State::Refused(refusal) => Reply::Refused(*refusal),
        State::Open { space, .. } => {
            if is_wide(space) {
                act_in(space, node, event)
            } else {
                Reply::NoCommand
            }
        }
    }
}

/// The same in a wide space.
fn act_in(space: &mut Sim, node: u8, event: &Event) -> Reply
    requires own { IsTrue (is_own event.now) }
    requires quiet { sweeper (steps.Act node event.now) ≡ None }
    ensures { (f : Freed) → Moves
        (λ h later. TakesStep h (steps.Act node event.now) result later)
        (state.Open space.old f) (state.Open space.new f) }
{
    match space.act(node, event) {
        Ok(answer) => Reply::Outcome(Outcome::Answer(answer)),
        Err(refusal) => Reply::Refused(refusal),
    }
}

/// Reads bytes of an object, if a line has asked for a wide space.
fn read(alloc: Global, state: &State, node: u8, object: u16, offset: u32, count: u32) -> Reply
    ensures { Moves (λ h later.
        TakesRead h (λ w. bytes_read w node object offset count) result later)
        state.now state.now }
{
    match state {
        State::Unopened => Reply::NoCommand,
        State::Refused(refusal) => Reply::Refused(*refusal),
        State::Open { space, .. } => {
            if is_wide(space) {
                read_in(alloc, space, node, object, offset, count)
            } else {
                Reply::NoCommand
            }
        }
    }
}

/// The same in a wide space.
fn read_in(alloc: Global, space: &Sim, node: u8, object: u16, offset: u32, count: u32) -> Reply
    ensures { (w : World) → ShowsSpace space.now w
        → IsRead (bytes_read w node object offset count) result }
{
    match space.bytes(node, object, offset, count) {
        Ok(bytes) => spelled(alloc, bytes),
        Err(refusal) => Reply::Refused(refusal),
    }
}

/// Reads the bytes of the oldest letter of a node, if a line has asked for a wide space.
fn letter(alloc: Global, state: &State, node: u8) -> Reply
    ensures { Moves (λ h later. TakesRead h (λ w. letter_bytes_read w node) result later)
        state.now state.now }
{
    match state {
        State::Unopened => Reply::NoCommand,
        State::Refused(refusal) => Reply::Refused(*refusal),
        State::Open { space, .. } => {
            if is_wide(space) {
                letter_in(alloc, space, node)
            } else {
                Reply::NoCommand
            }
        }
    }
}

/// The same in a wide space.
fn letter_in(alloc: Global, space: &Sim, node: u8) -> Reply
    ensures { (w : World) → ShowsSpace space.now w → IsRead (letter_bytes_read w node) result }
{
    match space.letter_bytes(node) {
        Ok(bytes) => spelled(alloc, bytes),
        Err(refusal) => Reply::Refused(refusal),
    }
}

/// The text of bytes that were read.
fn spelled(alloc: Global, bytes: &[u8]) -> Reply
    ensures { IsRead (Ok bytes.now) result }
{
    match text_of_bytes(alloc, bytes) {
        Ok(text) => Reply::Bytes(text),
        Err(_) => Reply::Refused(Refusal::Memory),
    }
}

/// Adds what a sweep of this node freed to the sum of the node's cycle.
fn note(space: &Sim, freed: &mut Freed, swept: Option<u8>, count: Option<u32>)
    ensures { (w : World) (sums : List ℕ) → ShowsSpace space.now w → KeepsSums freed.old.sums sums
        → KeepsSums freed.new.sums (freed_with w swept count sums) }
{
    let (Some(node), Some(count)) = (swept, count) else {
        return;
    };
    if let Some(summary) = space.state(node) {
        freed.add(summary.cycle, count);
    }
}

/// Looks at a node, if a line has asked for a space. `NoNode` if the space has no node of that
/// number.
fn show_state(state: &State, node: u8) -> Reply
    ensures { Moves
        (λ h later. TakesState h node result later) state.now state.now }
{
    match state {
        State::Unopened => Reply::NoCommand,
        State::Refused(refusal) => Reply::Refused(*refusal),
        State::Open { space, .. } => match space.state(node) {
            Some(summary) => Reply::Summary(summary),
            None => Reply::Refused(Refusal::NoNode),
        },
    }
}

/// Reports what the sweeps freed, if a line has asked for a space. `Memory` if that isn't known or
/// there is no room to report it, but never before the first sweep.
fn report(alloc: Global, state: &State) -> Reply
    ensures { Moves
        (λ h later. TakesReport h result later) state.now state.now }
{
    match state {
        State::Unopened => Reply::NoCommand,
        State::Refused(refusal) => Reply::Refused(*refusal),
        State::Open { freed, .. } => match freed.sums(alloc) {
            Ok(sums) => Reply::Report(sums),
            Err(refusal) => Reply::Refused(refusal),
        },
    }
}
