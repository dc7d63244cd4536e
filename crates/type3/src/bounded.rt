//! The two numbers at the head of a type 3 payload, each with its bound in its type. In contracts each is that number.
//! They are made and read by `new` and `get`, as std's `NonZeroU8` is.
ghost use Rattle.std.specs.Prelude.{◌≡◌, ◌+◌, ◌*◌, ◌/◌, ◌%◌, ◌<◌, ◌==◌, min, nat_lt, if◌then◌else◌, Some, None};
ghost use Rattle.type3.specs.Stamps.{stamp_modulus};

use std::marker::Model;

/// The redundancy of a packet (I.366.2): 0, 1 and 2 for the copies of an event, 3 for a refresh.
#[derive(Clone, Copy, Debug, PartialEq, Eq)]
pub struct Redundancy {
    value: u8,
}

impl Model for Redundancy {
    ghost use Rattle.std.specs.Prelude.{ℕ, ◌<◌};

    ghost Value = { ℕ };

    ghost view = { λ r. r.value };

    ghost invariant = { λ r. r.value < 4 };

    ghost inverse = { λ n. record { value = n } };
}

impl Redundancy {
    /// The redundancy of this number, if it is below 4.
    pub fn new(value: u8) -> Option<Redundancy>
        ensures { result ≡ (if nat_lt value 4 then Some value else None) }
    {
        if value < 4 {
            Some(Redundancy { value })
        } else {
            None
        }
    }

    /// That of the first copy.
    pub fn first() -> Redundancy
        ensures { result ≡ 0 }
    {
        Redundancy { value: 0 }
    }

    /// That of the packet after this one: the next copy, and after the copies a refresh.
    pub fn next(self) -> Redundancy
        ensures { result ≡ min (self + 1) 3 }
    {
        Redundancy {
            value: (self.value + 1).min(3),
        }
    }

    /// Whether it is that of a refresh.
    pub fn is_refresh(self) -> bool
        ensures { result ≡ (self == 3) }
    {
        self.get() == 3
    }

    // The redundancy in the first octet of a payload: its upper two bits.
    pub(crate) fn in_octet(first: u8) -> Redundancy
        ensures { result ≡ first / 64 }
    {
        Redundancy { value: first / 64 }
    }

    /// The number, 0 to 3.
    pub fn get(self) -> u8
        ensures value { result ≡ self }
        ensures below { result < 4 }
    {
        self.value
    }
}

/// Stamps repeat after so many milliseconds (I.366.2): they have fourteen bits.
pub const STAMP_MODULUS: u16 = 16_384;

/// The stamp of a packet: the time that it is made for, in milliseconds modulo 16,384.
#[derive(Clone, Copy, Debug, PartialEq, Eq)]
pub struct Stamp {
    ms: u16,
}

impl Model for Stamp {
    ghost use Rattle.std.specs.Prelude.{ℕ, ◌<◌};
    ghost use Rattle.type3.specs.Stamps.{stamp_modulus};

    ghost Value = { ℕ };

    ghost view = { λ s. s.ms };

    ghost invariant = { λ s. s.ms < stamp_modulus };

    ghost inverse = { λ n. record { ms = n } };
}

impl Stamp {
    /// The stamp of this number, if it is below 16,384.
    pub fn new(ms: u16) -> Option<Stamp>
        ensures { result ≡ (if nat_lt ms stamp_modulus then Some ms else None) }
    {
        if ms < STAMP_MODULUS {
            Some(Stamp { ms })
        } else {
            None
        }
    }

    /// The stamp of a packet that is made for this time, in milliseconds.
    pub fn at(time: u64) -> Stamp
        ensures { result ≡ time % stamp_modulus }
    {
        Stamp {
            ms: (time % u64::from(STAMP_MODULUS)) as u16,
        }
    }

    // The stamp in the first two octets of a payload: their lower fourteen bits.
    pub(crate) fn in_octets(first: u8, second: u8) -> Stamp
        ensures { result ≡ first % 64 * 256 + second }
    {
        Stamp {
            ms: u16::from(first % 64) * 256 + u16::from(second),
        }
    }

    /// The milliseconds, 0 to 16,383.
    pub fn get(self) -> u16
        ensures value { result ≡ self }
        ensures below { result < stamp_modulus }
    {
        self.ms
    }
}
