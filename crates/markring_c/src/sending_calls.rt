//! The calls of `include/markring_sending.h`: what goes to another node, and when. What they do is
//! in the crate `sending`.
ghost use Rattle.std.specs.Prelude.{◌≡◌, ◌≢◌, true};
ghost use Rattle.sending.specs.Rules.{again, begun, goes, goes_back, left, offered, owing};
ghost use Rattle.sending.specs.Rules.{receiving, telling, turned, until};
ghost use Rattle.markring_c.specs.Programs.{IsFlagOf};

use sending::{Sending, Turn};

/// A new process has sent nothing yet.
#[unsafe(no_mangle)]
pub extern "C" fn markring_sending_begin(sending: &mut Sending, acknowledged: u64, received: u64)
    ensures { sending.new ≡ begun acknowledged received }
{
    *sending = Sending::begin(acknowledged, received);
}

/// All that was sent may be lost.
#[unsafe(no_mangle)]
pub extern "C" fn markring_sending_again(sending: &mut Sending)
    ensures { sending.new ≡ again sending.old }
{
    sending.again();
}

/// A turn. Whether the window is sent from its begin again: 1 or 0.
#[unsafe(no_mangle)]
pub extern "C" fn markring_sending_turn(
    sending: &mut Sending,
    now: u64,
    released: u64,
    acknowledged: u64,
    stored: u64,
) -> i32
    ensures after { sending.new
        ≡ turned sending.old
        (record { now = now; released = released; acknowledged = acknowledged; stored = stored }) }
    ensures back { IsFlagOf
        (goes_back sending.old
        (record { now = now; released = released; acknowledged = acknowledged; stored = stored })
        ≡ true)
        result }
{
    let turn = Turn {
        now,
        released,
        acknowledged,
        stored,
    };
    if sending.turn(turn) { 1 } else { 0 }
}

/// Whether messages may be offered: 1 or 0.
#[unsafe(no_mangle)]
pub extern "C" fn markring_sending_is_open(sending: &Sending) -> i32
    ensures { IsFlagOf (sending.now.blocked ≡ 0) result }
{
    if sending.is_open() { 1 } else { 0 }
}

/// Offers a message. Whether it goes: 1 or 0.
#[unsafe(no_mangle)]
pub extern "C" fn markring_sending_offer(sending: &mut Sending, number: u64, length: u32) -> i32
    ensures after { sending.new ≡ offered sending.old number length }
    ensures goes { IsFlagOf (goes sending.old number length ≡ true) result }
{
    if sending.offer(number, length) { 1 } else { 0 }
}

/// Whether a packet is due: 1 or 0.
#[unsafe(no_mangle)]
pub extern "C" fn markring_sending_is_due(sending: &Sending) -> i32
    ensures { IsFlagOf (sending.now.due ≢ 0) result }
{
    if sending.is_due() { 1 } else { 0 }
}

/// A packet is due.
#[unsafe(no_mangle)]
pub extern "C" fn markring_sending_owe(sending: &mut Sending)
    ensures { sending.new ≡ owing sending.old }
{
    sending.owe();
}

/// Messages of the other node up to this number are received and saved.
#[unsafe(no_mangle)]
pub extern "C" fn markring_sending_received(sending: &mut Sending, number: u64)
    ensures { sending.new ≡ receiving sending.old number }
{
    sending.received(number);
}

/// The other node has to hear of the last save now.
#[unsafe(no_mangle)]
pub extern "C" fn markring_sending_tell(sending: &mut Sending, stored: u64)
    ensures { sending.new ≡ telling sending.old stored }
{
    sending.tell(stored);
}

/// A packet goes.
#[unsafe(no_mangle)]
pub extern "C" fn markring_sending_left(sending: &mut Sending, stored: u64)
    ensures { sending.new ≡ left sending.old stored }
{
    sending.left(stored);
}

/// The time of the next turn that has something to do.
#[unsafe(no_mangle)]
pub extern "C" fn markring_sending_until(sending: &Sending) -> u64
    ensures { result ≡ until sending.now }
{
    sending.until()
}
