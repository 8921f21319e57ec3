//! The rule of the table that a wire is, and the kinds of steps on it. Each kind is proved to keep
//! the rule, so no code can break it.
use crate::views::{Opening, View};
use atomic_table::{Join, Play, Split, TableRule};
use std::marker::Brand;

// What holds between any two steps.
pub struct WireRule;

impl TableRule<Vec<u8>, View, Opening> for WireRule {
    ghost use Rattle.wire.specs.Rule.{Holds};
    ghost use Rattle.wire.specs.Views.{dealing};

    ghost holds = { λ key. Holds (λ v. v.items) key.world };

    ghost first = { λ key. dealing key.world };
}

pub struct Claims;

impl Play<Vec<u8>, View> for Claims {
    ghost use Rattle.wire.specs.Plays.{claimed};

    ghost then = { claimed };
}

pub struct Takes;

impl Play<Vec<u8>, View> for Takes {
    ghost use Rattle.wire.specs.Plays.{took};

    ghost then = { took (λ v. v.items) };
}

pub struct Posts;

impl Play<Vec<u8>, View> for Posts {
    ghost use Rattle.wire.specs.Plays.{posted};

    ghost then = { posted (λ v. v.items) };
}

pub struct Clears;

impl Play<Vec<u8>, View> for Clears {
    ghost use Rattle.wire.specs.Plays.{emptied};

    ghost then = { emptied };
}

// An event of a node, and the node's pair of states after it.
pub trait Happening {
    ghost use Rattle.model.specs.declared.step.Step.{Step};
    ghost use Rattle.wire.specs.Views.{Pair};

    ghost event: { Step };

    ghost pair: { Pair };
}

impl Happening for Brand {
    ghost use Rattle.model.specs.declared.step.Step.TheVariants.{Save};
    ghost use Rattle.wire.specs.Views.{no_pair};

    ghost event = { Save 0 };

    ghost pair = { no_pair };
}

pub struct Ticks<H: Happening> {
    of: std::marker::PhantomData<H>,
}

impl<H: Happening> Play<Vec<u8>, View> for Ticks<H> {
    ghost use Rattle.wire.specs.Plays.{ticked};

    ghost then = { ticked H.event H.pair };
}

pub struct Raises;

impl Play<Vec<u8>, View> for Raises {
    ghost use Rattle.wire.specs.Plays.{raised};

    ghost then = { raised };
}

pub struct Looks;

impl Play<Vec<u8>, View> for Looks {
    ghost use Rattle.wire.specs.Plays.{looked};

    ghost then = { looked };
}

// The dealer makes the seat of the next node.
pub struct NextNode;

impl Split<View> for NextNode {
    ghost use Rattle.wire.specs.Views.{dealer_after, next_node};

    ghost left = { dealer_after };

    ghost right = { next_node };
}

// The dealer makes a watch.
pub struct NextWatch;

impl Split<View> for NextWatch {
    ghost use Rattle.wire.specs.Views.{next_watch};

    ghost left = { λ v. v };

    ghost right = { next_watch };
}

pub struct Learns;

impl Play<Vec<u8>, View> for Learns {
    ghost use Rattle.wire.specs.Plays.{learned};

    ghost then = { learned };
}

// A seat makes a note of what it learned last.
pub struct Notes;

impl Split<View> for Notes {
    ghost use Rattle.wire.specs.Views.{note_of};

    ghost left = { λ v. v };

    ghost right = { note_of };
}

// What a note knows, and still knows when it is spent.
pub trait Noting {
    ghost use Rattle.wire.specs.Views.{Known};

    ghost view: { Known };
}

impl Noting for Brand {
    ghost use Rattle.std.specs.Prelude.{[]};
    ghost use Rattle.wire.specs.Views.{dealing};

    ghost view = { dealing (record { current = []; saved = [] }) };
}

// A seat has learned what a note says.
pub struct Heeds<N: Noting> {
    of: std::marker::PhantomData<N>,
}

impl<N: Noting> Join<View> for Heeds<N> {
    ghost use Rattle.wire.specs.Views.{learns};

    ghost both = { λ v w. learns w.seen v };

    ghost spent = { N.view };
}
