//! A program of a node, as its host saves it, and the decisions on it. They take any numbers, also
//! those of a forged packet or of a damaged folder.
ghost use Rattle.std.specs.Prelude.{◌≡◌, ◌↔◌, IsTrue};
ghost use Rattle.programs.specs.Decisions.{after_opening, after_request, forgotten};
ghost use Rattle.programs.specs.Decisions.{is_session, numbered, opening_of, request_of};
ghost use Rattle.programs.specs.Decisions.{IsOpening, IsRequest, SpeaksFor};

/// The session of a program that the operator has forgotten. No process has it.
pub const FORGOTTEN: u64 = u64::MAX;

/// A program. All numbers of a new one are 0.
#[repr(C)]
#[derive(Clone, Copy)]
pub struct Program {
    /// The session of the process that speaks for it, [`FORGOTTEN`], or 0 before the first opening.
    pub session: u64,
    /// How many processes have opened it.
    pub round: u64,
    /// The number of the last request that was performed: how many were.
    pub number: u64,
}

/// What an opening is. By it a process begins to speak for a program.
#[derive(Clone, Copy)]
pub enum Opening {
    /// Its process speaks for the program from now on.
    New,
    /// Its process speaks for the program already.
    Again,
    /// Its number is not that of the next opening: it is late, or of a process that has not heard
    /// of another one's opening.
    Stale,
    /// Its session is that of no process.
    Malformed,
}

/// What a request is.
#[derive(Clone, Copy)]
pub enum Request {
    /// The next one: it is to be performed.
    Next,
    /// The last one that was performed: it is answered again.
    Repeated,
    /// An earlier one, whose answer is no longer known.
    Stale,
    /// A later one than the next.
    Ahead,
    /// Its process does not speak for the program.
    Superseded,
    /// Its number is 0.
    Malformed,
}

fn is_session(session: u64) -> bool
    ensures { result ≡ is_session session }
{
    session != 0 && session != FORGOTTEN
}

impl Program {
    /// Whether the process of this session speaks for the program.
    pub fn speaks_for(&self, session: u64) -> bool
        ensures { IsTrue result ↔ SpeaksFor self.now session }
    {
        is_session(session) && session == self.session
    }

    /// What an opening with this session and this number is. It changes nothing.
    pub fn judge_opening(&self, session: u64, number: u64) -> Opening
        ensures means { IsOpening self.now session number result }
        ensures same { result ≡ opening_of self.now session number }
    {
        if !is_session(session) {
            return Opening::Malformed;
        }
        if session == self.session {
            return Opening::Again;
        }
        if number > self.round && number - self.round == 1 {
            Opening::New
        } else {
            Opening::Stale
        }
    }

    /// Takes an opening, if it is a new one. Returns what it is.
    pub fn open(&mut self, session: u64, number: u64) -> Opening
        ensures means { IsOpening self.old session number result }
        ensures same { result ≡ opening_of self.old session number }
        ensures after { self.new ≡ after_opening self.old session result }
    {
        let opening = self.judge_opening(session, number);
        if let Opening::New = opening {
            self.session = session;
            self.round = number;
        }
        opening
    }

    // What a request of the process that speaks for the program is.
    fn judge_number(&self, number: u64) -> Request
        ensures { result ≡ numbered self.now number }
    {
        if number == 0 {
            return Request::Malformed;
        }
        if number <= self.number {
            return if number < self.number {
                Request::Stale
            } else {
                Request::Repeated
            };
        }
        if number - self.number == 1 {
            Request::Next
        } else {
            Request::Ahead
        }
    }

    /// What a request with this session and this number is. It changes nothing.
    pub fn judge_request(&self, session: u64, number: u64) -> Request
        ensures means { IsRequest self.now session number result }
        ensures same { result ≡ request_of self.now session number }
    {
        if self.speaks_for(session) {
            self.judge_number(number)
        } else {
            Request::Superseded
        }
    }

    /// Notes that a request was performed, if it is the next one. Returns what it is.
    pub fn perform(&mut self, session: u64, number: u64) -> Request
        ensures means { IsRequest self.old session number result }
        ensures same { result ≡ request_of self.old session number }
        ensures after { self.new ≡ after_request self.old result }
    {
        let request = self.judge_request(session, number);
        if let Request::Next = request {
            self.number = number;
        }
        request
    }

    /// Nobody speaks for the program until it is opened again.
    pub fn forget(&mut self)
        ensures { self.new ≡ forgotten self.old }
    {
        self.session = FORGOTTEN;
    }
}
