//! The theorems on what goes to another node, as the contract of one function that does nothing.
//! The statements are in `specs/Laws`, over the definitions of `specs/Runs`.
ghost use Rattle.sending.specs.Laws.{InOrder, NextGoes, NoneTooEarly, PausesGrow};
ghost use Rattle.sending.specs.Laws.{SentAgain, ToldInTime, TurnsInTime};

/// The theorems. They hold of every list of steps: turns that find anything acknowledged, released
/// and stored, messages of any length, packets, lost connections, other processes. Packets may be
/// lost, repeated and reordered.
///
/// The function does nothing; its contract states the theorems.
pub fn laws()
    // What is on its way are the first messages that aren't acknowledged, in order, each once. They
    // have few bytes, unless a message is alone.
    ensures in_order { InOrder }
    // The next message goes if there is a place for it, and if it is alone or short enough.
    ensures next_goes { NextGoes }
    // The window is sent again only after a pause, which is twice as long each time, up to the
    // longest one.
    ensures pauses_grow { PausesGrow }
    // What isn't acknowledged is sent again by the first turn after the pause.
    ensures sent_again { SentAgain }
    // A packet speaks of each save in time.
    ensures told_in_time { ToldInTime }
    // A host that has a turn when one is needed has these turns in time, and needs no earlier one.
    ensures turns_in_time { TurnsInTime }
    ensures none_too_early { NoneTooEarly }
{}
