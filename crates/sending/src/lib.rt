//! What goes to another node, and when: which messages of the window are sent next, when they are
//! sent again, whether a packet is due without any, and until when nothing has to be done.
//!
//! A node numbers its messages to another node from 1 on, and keeps them until that node has
//! acknowledged them. A message may be sent once a saved image holds it: it is *released* then.
//! Packets may be lost, repeated and reordered, so what isn't acknowledged is sent again. A host
//! keeps a [`Sending`] for each other node, asks these functions, in Rattle or by
//! `include/markring_sending.h`, and does what they say. Times are milliseconds of any clock.
//!
//! `specs/Rules` says what each call does, `specs/Runs` what can happen on the way to a node, and
//! `specs/Laws` has the theorems on each such run. [`laws`] states them.
#![tactic(auto)]

mod headline;

ghost use Rattle.std.specs.Prelude.{◌≡◌, ◌≢◌, ◌↔◌, IsTrue, sum, take};
ghost use Rattle.sending.specs.Rules.{acknowledged_by, again, begun, goes, goes_back, gone};
ghost use Rattle.sending.specs.Rules.{is_over, kept, left, offered, owing, receiving};
ghost use Rattle.sending.specs.Rules.{set_time, telling, timed, told_by, turned, until};

pub use headline::laws;

/// How many messages are on their way at most.
pub const WINDOW: usize = 32;
/// How many bytes they have at most. (One message may have more, if it is alone on its way.)
pub const FLIGHT_BYTES: u64 = 1 << 20;
/// How long after the window was sent it is sent again, at first.
pub const FIRST_PAUSE: u64 = 50;
/// How long after that at most.
pub const LONGEST_PAUSE: u64 = 1600;
/// How soon the other node hears of a save.
pub const TELL: u64 = 1000;

/// What is on its way to another node, and what is due. A flag is 0 for no; any other number means
/// yes.
#[repr(C)]
#[derive(Clone, Copy)]
pub struct Sending {
    /// The number of the last message of which is known that the other node has acknowledged it.
    pub acknowledged: u64,
    /// That of the last message that is on its way: the window was sent from its begin up to it.
    pub sent: u64,
    /// How many bytes the messages have that are on their way.
    pub flight: u64,
    /// When the window is sent from its begin again; 0 if no message waits.
    pub again_at: u64,
    /// How long after the last time.
    pub pause: u64,
    /// The number up to which messages of the other node are received and saved.
    pub received: u64,
    /// The last save of which a packet spoke.
    pub told: u64,
    /// When a packet has to speak of a later one; 0 if there isn't one.
    pub tell_at: u64,
    /// The bytes of each message that is on its way. (What follows these means nothing.)
    pub lengths: [u32; WINDOW],
    /// The next message has to wait: with it, too many bytes would be on their way.
    pub blocked: u8,
    /// A packet has to go, whether or not it has messages.
    pub due: u8,
}

/// What a host knows of its node when it has a turn.
#[derive(Clone, Copy)]
pub struct Turn {
    /// The time.
    pub now: u64,
    /// The last message that is released.
    pub released: u64,
    /// The last message that the other node has acknowledged.
    pub acknowledged: u64,
    /// The last save that is stored.
    pub stored: u64,
}

impl Sending {
    /// A new process, which has sent nothing. Messages up to `acknowledged` were acknowledged, and
    /// those of the other node up to `received` are received and saved. A packet is due, to show
    /// this process.
    pub fn begin(acknowledged: u64, received: u64) -> Sending
        ensures { result ≡ begun acknowledged received }
    {
        Sending {
            acknowledged,
            sent: acknowledged,
            flight: 0,
            again_at: 0,
            pause: FIRST_PAUSE,
            received,
            told: 0,
            tell_at: 0,
            lengths: [0; WINDOW],
            blocked: 0,
            due: 1,
        }
    }

    /// All that was sent may be lost: the connection was, or another process runs the other node.
    /// So the window is sent again, and a packet is due.
    pub fn again(&mut self)
        ensures { self.new ≡ again self.old }
    {
        self.forget_sent();
        self.pause = FIRST_PAUSE;
        self.again_at = 0;
        self.due = 1;
    }

    // Nothing is on its way any more.
    fn forget_sent(&mut self)
        ensures { self.new ≡ gone self.old }
    {
        self.sent = self.acknowledged;
        self.flight = 0;
        self.blocked = 0;
    }

    // Messages up to this number are acknowledged.
    fn acknowledge(&mut self, number: u64)
        ensures { self.new ≡ acknowledged_by self.old number }
    {
        if number <= self.acknowledged {
            return;
        }
        let sent = self.sent.max(number);
        let count = self.on_way(number.min(self.sent));
        let bytes = self.first_bytes(count);
        self.lengths.rotate_left(count);
        self.flight = self.flight.saturating_sub(bytes);
        self.acknowledged = number;
        self.sent = sent;
        self.blocked = 0;
        self.pause = FIRST_PAUSE;
        self.again_at = 0;
    }

    // How many messages up to this one are on their way.
    fn on_way(&self, last: u64) -> usize
        ensures { result ≡ kept self.now last }
    {
        last.saturating_sub(self.acknowledged).min(WINDOW as u64) as usize
    }

    // The bytes of the first messages that are on their way.
    fn first_bytes(&self, count: usize) -> u64
        ensures { result ≡ sum (take count self.now.lengths) }
    {
        let mut bytes = 0;
        for length in &self.lengths[..count.min(WINDOW)] {
            bytes += u64::from(*length);
        }
        bytes
    }

    /// A host has a turn. What was acknowledged isn't on its way any more. Returns whether the
    /// window is sent from its begin again, because it wasn't acknowledged in time. If a save has
    /// been known for long enough, a packet is due.
    pub fn turn(&mut self, turn: Turn) -> bool
        ensures after { self.new ≡ turned self.old turn }
        ensures back { result ≡ goes_back self.old turn }
    {
        self.acknowledge(turn.acknowledged);
        self.tell_in_time(turn.now, turn.stored);
        self.run_timer(turn.now, turn.released)
    }

    // Another node hears of each save in time, so that it would know an older copy.
    fn tell_in_time(&mut self, now: u64, stored: u64)
        ensures { self.new ≡ told_by self.old now stored }
    {
        if self.told != stored && self.tell_at == 0 {
            self.tell_at = now.saturating_add(TELL);
        }
        if self.tell_at != 0 && self.tell_at <= now {
            self.due = 1;
        }
    }

    // Whether the window is sent from its begin again now.
    fn run_timer(&mut self, now: u64, released: u64) -> bool
        ensures after { self.new ≡ timed self.old now released }
        ensures back { result ≡ is_over self.old now released }
    {
        if released <= self.acknowledged {
            self.pause = FIRST_PAUSE;
            self.again_at = 0;
            return false;
        }
        let is_over = self.again_at != 0 && self.again_at <= now;
        if is_over {
            self.forget_sent();
            self.pause = self.pause.saturating_mul(2).min(LONGEST_PAUSE);
        }
        if is_over || self.again_at == 0 {
            self.again_at = now.saturating_add(self.pause);
        }
        is_over
    }

    /// Whether messages may be offered, from the one after `sent` on.
    pub fn is_open(&self) -> bool
        ensures { IsTrue result ↔ (self.now.blocked ≡ 0) }
    {
        self.blocked == 0
    }

    /// Offers a message with this number and this many bytes. Returns whether it goes with the next
    /// packet, and so is on its way. If not, it isn't the one after `sent`, or the window is full,
    /// and nothing changes; or too many bytes would be on their way, and it has to wait.
    pub fn offer(&mut self, number: u64, length: u32) -> bool
        ensures after { self.new ≡ offered self.old number length }
        ensures goes { result ≡ goes self.old number length }
    {
        let place = self.on_way(self.sent);
        if place >= WINDOW || number <= self.sent || number - self.sent > 1 {
            return false;
        }
        let before = if place == 0 { 0 } else { self.flight };
        let flight = before.saturating_add(u64::from(length));
        if place > 0 && flight > FLIGHT_BYTES {
            self.blocked = 1;
            return false;
        }
        self.flight = flight;
        self.lengths[place] = length;
        self.sent = number;
        self.blocked = 0;
        true
    }

    /// Whether a packet has to go, even without messages.
    pub fn is_due(&self) -> bool
        ensures { IsTrue result ↔ (self.now.due ≢ 0) }
    {
        self.due != 0
    }

    /// The other node has to hear something: a packet is due.
    pub fn owe(&mut self)
        ensures { self.new ≡ owing self.old }
    {
        self.due = 1;
    }

    /// Messages of the other node up to this number are received and saved. An acknowledgement is
    /// due, unless that was so before.
    pub fn received(&mut self, number: u64)
        ensures { self.new ≡ receiving self.old number }
    {
        if self.received != number {
            self.received = number;
            self.due = 1;
        }
    }

    /// The other node has to hear of the last save now: a packet is due, unless one spoke of it.
    pub fn tell(&mut self, stored: u64)
        ensures { self.new ≡ telling self.old stored }
    {
        if self.told != stored {
            self.due = 1;
        }
    }

    /// A packet goes to the other node. It speaks of the last save that is stored.
    pub fn left(&mut self, stored: u64)
        ensures { self.new ≡ left self.old stored }
    {
        self.due = 0;
        self.told = stored;
        self.tell_at = 0;
    }

    /// The time of the next turn that has something to do, if nothing happens before; `u64::MAX`
    /// if no time is set.
    pub fn until(&self) -> u64
        ensures { result ≡ until self.now }
    {
        set_time(self.again_at).min(set_time(self.tell_at))
    }
}

// A time, or the last one there is if it isn't set.
fn set_time(at: u64) -> u64
    ensures { result ≡ set_time at }
{
    if at == 0 { u64::MAX } else { at }
}
