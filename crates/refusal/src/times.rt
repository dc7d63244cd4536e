//! Times: whole milliseconds from 0.
ghost use Rattle.std.specs.Prelude.{◌≡◌, ◌-◌, true, if◌then◌else◌, Some, None};
ghost use Rattle.refusal.specs.Questions.{is_time};

use std::marker::Model;

// The last time, 2^40 - 1.
const LAST_TIME: u64 = 1_099_511_627_775;

/// Whether a number of milliseconds is a time: 0 to 2^40 - 1.
pub fn is_time(ms: u64) -> bool
    ensures { result ≡ is_time ms }
{
    ms <= LAST_TIME
}

/// A time: whole milliseconds, 0 to 2^40 - 1. In contracts it is that number. It is made and read as std's `NonZeroU64` is.
#[derive(Clone, Copy, Debug, PartialEq, Eq, PartialOrd, Ord)]
pub struct Time {
    ms: u64,
}

impl Model for Time {
    ghost use Rattle.std.specs.Prelude.{◌≡◌, ℕ, true};
    ghost use Rattle.refusal.specs.Questions.{is_time};

    ghost Value = { ℕ };

    ghost view = { λ t. t.ms };

    ghost invariant = { λ t. is_time t.ms ≡ true };

    ghost inverse = { λ n. record { ms = n } };
}

impl Time {
    /// The time of so many milliseconds, if they are one.
    pub fn new(ms: u64) -> Option<Time>
        ensures { result ≡ (if is_time ms then Some ms else None) }
    {
        if is_time(ms) { Some(Time { ms }) } else { None }
    }

    /// Its milliseconds.
    pub fn get(self) -> u64
        ensures value { result ≡ self }
        ensures time { is_time result ≡ true }
    {
        self.ms
    }

    /// How many milliseconds it is after an earlier time; 0 where that one is later.
    pub fn since(self, earlier: u64) -> Time
        ensures { result ≡ self - earlier }
    {
        Time {
            ms: self.ms.saturating_sub(earlier),
        }
    }
}
