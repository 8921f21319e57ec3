//! Which calls of a disk in memory fail: all from one on, or a single one. So a test can make a
//! device fail at each of its calls.
ghost use Rattle.std.specs.Prelude.{◌≡◌};
ghost use Rattle.disk.specs.Plan.{fails_from, fails_once, is_due, one_less};

/// Which calls of a disk fail.
#[derive(Clone, Copy)]
pub enum Plan {
    Never,
    /// All except the first `good` ones, which succeed.
    From { good: u64 },
    /// One, after `good` ones that succeed.
    Once { good: u64 },
}

impl Plan {
    /// The `k`-th call from now on and all later ones fail; 0 means the same as 1: all fail.
    pub fn from_call(k: u64) -> Plan
        ensures { result ≡ fails_from k }
    {
        Plan::From {
            good: k.saturating_sub(1),
        }
    }

    /// The `k`-th call from now on fails, and no later one; 0 means the same as 1: the next one.
    pub fn at_call(k: u64) -> Plan
        ensures { result ≡ fails_once k }
    {
        Plan::Once {
            good: k.saturating_sub(1),
        }
    }
}

/// Whether this call fails.
pub(crate) fn falters(plan: &mut Plan) -> bool
    ensures due { result ≡ is_due plan.old }
    ensures next { plan.new ≡ one_less plan.old }
{
    match plan {
        Plan::Never => false,
        Plan::From { good: 0 } => true,
        Plan::From { good } => {
            *good -= 1;
            false
        }
        Plan::Once { good: 0 } => {
            *plan = Plan::Never;
            true
        }
        Plan::Once { good } => {
            *good -= 1;
            false
        }
    }
}
