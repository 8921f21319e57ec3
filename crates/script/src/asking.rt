//! What a line asks of a node, by the number of operands after its verb and by the verb. The
//! function for each verb builds the line in place. A part that was returned would be copied, so
//! the functions that fill in a part are always inlined.
ghost use Rattle.std.specs.Prelude.{◌≡◌, None, Some, cond, decimal, option_map};
ghost use Rattle.model.specs.declared.event.Event.TheVariants as event;
ghost use Rattle.script.specs.Grammar.{acted, alone, of_two, of_three, plain, u8_of, u16_of, u32_of, u64_of, with_none, with_one, with_two, with_three};
ghost use Rattle.script.specs.Operands.{read};

use crate::line::Line;
use crate::operands::{to_u8, to_u16, to_u32};
use model::{Event, Step};
use std::mem;

/// The meaning of a verb alone after a node's number.
#[tactic(auto, unfolding(crate::specs::Grammar::alone))]
pub(crate) fn alone(line: &mut Line, node: u8, verb: &str) -> Option<()>
    ensures { read result line.new ≡ alone node verb.now }
{
    match verb {
        "save" => say(line, Line::Step(Step::Save(node))),
        "restart" => say(line, Line::Step(Step::Restart(node))),
        "state" => say(line, Line::State(node)),
        verb => with_none(line, node, verb),
    }
}

/// Sets the line to this. (No line owns anything, since its event is a program's own. So the old
/// line isn't dropped, which would look at each.)
#[inline(always)]
pub(crate) fn say<'a>(line: &mut Line<'a>, said: Line<'a>) -> Option<()>
    ensures { read result line.new ≡ Some (plain said.entry) }
{
    mem::forget(mem::replace(line, said));
    Some(())
}

/// The same if what was read is right.
#[inline(always)]
pub(crate) fn say_if<'a>(line: &mut Line<'a>, right: bool, said: Line<'a>) -> Option<()>
    ensures { read result line.new ≡ cond right (Some (plain said.entry)) None }
{
    if !right {
        return None;
    }
    say(line, said)
}

/// The line that asks a node for an event.
#[inline(always)]
fn act(line: &mut Line, node: u8, event: Event<'static>) -> Option<()>
    ensures { read result line.new ≡ acted node (Some event.entry) }
{
    say(line, Line::Step(Step::Act(node, event)))
}

/// The meaning of a verb with no operand.
#[tactic(auto, unfolding(crate::specs::Grammar::with_none))]
fn with_none(line: &mut Line, node: u8, verb: &str) -> Option<()>
    ensures { read result line.new ≡ acted node (with_none verb.now) }
{
    match verb {
        "begin" => act(line, node, Event::Begin),
        "scan" => act(line, node, Event::Scan),
        "pass" => act(line, node, Event::Pass),
        _ => None,
    }
}

/// The meaning of a verb with one operand.
#[tactic(auto, unfolding(crate::specs::Grammar::with_one))]
pub(crate) fn with_one(line: &mut Line, node: u8, verb: &str, a: u64) -> Option<()>
    ensures { read result line.new ≡ acted node (with_one verb.now (decimal a)) }
{
    match verb {
        "drop" => drop(line, node, a),
        "accept" => accept(line, node, a),
        "word" => word(line, node, a),
        "sweep" => sweep(line, node, a),
        "next" => next(line, node, a),
        _ => None,
    }
}

fn drop(line: &mut Line, node: u8, register: u64) -> Option<()>
    ensures { read result line.new
        ≡ acted node (option_map (λ register. event.Drop register) (u16_of (decimal register))) }
{
    let register = to_u16(register)?;
    act(line, node, Event::Drop { register })
}

fn accept(line: &mut Line, node: u8, register: u64) -> Option<()>
    ensures { read result line.new
        ≡ acted node (option_map (λ register. event.Accept register) (u16_of (decimal register))) }
{
    let register = to_u16(register)?;
    act(line, node, Event::Accept { register })
}

fn word(line: &mut Line, node: u8, object: u64) -> Option<()>
    ensures { read result line.new
        ≡ acted node (option_map (λ object. event.Word object) (u16_of (decimal object))) }
{
    let object = to_u16(object)?;
    act(line, node, Event::Word { object })
}

fn sweep(line: &mut Line, node: u8, count: u64) -> Option<()>
    ensures { read result line.new
        ≡ acted node (option_map (λ count. event.Sweep count) (u32_of (decimal count))) }
{
    let count = to_u32(count)?;
    act(line, node, Event::Sweep { count })
}

fn next(line: &mut Line, node: u8, from: u64) -> Option<()>
    ensures { read result line.new
        ≡ acted node (option_map (λ from. event.Next from) (u8_of (decimal from))) }
{
    let from = to_u8(from)?;
    act(line, node, Event::Next { from })
}

/// The meaning of a verb with two operands.
#[tactic(auto, unfolding(crate::specs::Grammar::with_two))]
pub(crate) fn with_two(line: &mut Line, node: u8, verb: &str, a: u64, b: u64) -> Option<()>
    ensures { read result line.new ≡ acted node (with_two verb.now (decimal a) (decimal b)) }
{
    match verb {
        "alloc" => alloc(line, node, a, b),
        "copy" => copy(line, node, a, b),
        "clear" => clear(line, node, a, b),
        "setword" => set_word(line, node, a, b),
        _ => None,
    }
}

fn alloc(line: &mut Line, node: u8, register: u64, places: u64) -> Option<()>
    ensures { read result line.new ≡ acted node (of_two u16_of u8_of
        (λ register places. event.Alloc register places) (decimal register) (decimal places)) }
{
    let (register, places) = (to_u16(register)?, to_u8(places)?);
    act(line, node, Event::Alloc { register, places })
}

fn copy(line: &mut Line, node: u8, register: u64, source: u64) -> Option<()>
    ensures { read result line.new ≡ acted node (of_two u16_of u16_of
        (λ register source. event.Copy register source) (decimal register) (decimal source)) }
{
    let (register, source) = (to_u16(register)?, to_u16(source)?);
    act(line, node, Event::Copy { register, source })
}

fn clear(line: &mut Line, node: u8, object: u64, place: u64) -> Option<()>
    ensures { read result line.new ≡ acted node (of_two u16_of u8_of
        (λ object place. event.Clear object place) (decimal object) (decimal place)) }
{
    let (object, place) = (to_u16(object)?, to_u8(place)?);
    act(line, node, Event::Clear { object, place })
}

#[tactic(auto, using(crate::proofs::Spelling::u64_of_decimal))]
fn set_word(line: &mut Line, node: u8, object: u64, word: u64) -> Option<()>
    ensures { read result line.new ≡ acted node (of_two u16_of u64_of
        (λ object word. event.SetWord object word) (decimal object) (decimal word)) }
{
    let object = to_u16(object)?;
    act(line, node, Event::SetWord { object, word })
}

/// The meaning of a verb with three operands.
#[tactic(auto, unfolding(crate::specs::Grammar::with_three))]
pub(crate) fn with_three(
    line: &mut Line,
    node: u8,
    verb: &str,
    a: u64,
    b: u64,
    c: u64,
) -> Option<()>
    ensures { read result line.new
        ≡ acted node (with_three verb.now (decimal a) (decimal b) (decimal c)) }
{
    match verb {
        "give" => give(line, node, a, b, c),
        "load" => load(line, node, a, b, c),
        "store" => store(line, node, a, b, c),
        "put" => put(line, node, a, b, c),
        "get" => get(line, node, a, b, c),
        _ => None,
    }
}

fn give(line: &mut Line, node: u8, to: u64, label: u64, register: u64) -> Option<()>
    ensures { read result line.new ≡ acted node (of_three u8_of u32_of u16_of
        (λ to label register. event.Give to label register)
        (decimal to) (decimal label) (decimal register)) }
{
    let (to, label, register) = (to_u8(to)?, to_u32(label)?, to_u16(register)?);
    act(
        line,
        node,
        Event::Give {
            to,
            label,
            register,
        },
    )
}

fn load(line: &mut Line, node: u8, register: u64, object: u64, place: u64) -> Option<()>
    ensures { read result line.new ≡ acted node (of_three u16_of u16_of u8_of
        (λ register object place. event.Load register object place)
        (decimal register) (decimal object) (decimal place)) }
{
    let (register, object, place) = (to_u16(register)?, to_u16(object)?, to_u8(place)?);
    act(
        line,
        node,
        Event::Load {
            register,
            object,
            place,
        },
    )
}

fn store(line: &mut Line, node: u8, object: u64, place: u64, register: u64) -> Option<()>
    ensures { read result line.new ≡ acted node (of_three u16_of u8_of u16_of
        (λ object place register. event.Store object place register)
        (decimal object) (decimal place) (decimal register)) }
{
    let (object, place, register) = (to_u16(object)?, to_u8(place)?, to_u16(register)?);
    act(
        line,
        node,
        Event::Store {
            object,
            place,
            register,
        },
    )
}

fn put(line: &mut Line, node: u8, object: u64, place: u64, register: u64) -> Option<()>
    ensures { read result line.new ≡ acted node (of_three u16_of u8_of u16_of
        (λ object place register. event.Put object place register)
        (decimal object) (decimal place) (decimal register)) }
{
    let (object, place, register) = (to_u16(object)?, to_u8(place)?, to_u16(register)?);
    act(
        line,
        node,
        Event::Put {
            object,
            place,
            register,
        },
    )
}

fn get(line: &mut Line, node: u8, object: u64, place: u64, label: u64) -> Option<()>
    ensures { read result line.new ≡ acted node (of_three u16_of u8_of u32_of
        (λ object place label. event.Get object place label)
        (decimal object) (decimal place) (decimal label)) }
{
    let (object, place, label) = (to_u16(object)?, to_u8(place)?, to_u32(label)?);
    act(
        line,
        node,
        Event::Get {
            object,
            place,
            label,
        },
    )
}
