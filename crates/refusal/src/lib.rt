//! Why a call is refused: the layer that asked, the question that was answered no, and its number; and times, which every
//! layer asks for. The numbers are those of `docs/refusals.md`; 8 and 9 are not used.
#![tactic(auto)]

ghost use Rattle.std.specs.Prelude.{◌≡◌, Some};
ghost use Rattle.refusal.specs.Numbers.{number_of, layer_of, place_of, cause_of, text_of};
ghost use Rattle.refusal.specs.declared.Refusal.TheVariants.{Sending, Arrival, Type3, Kind, Placing};

use std::error::Error;
use std::fmt;

mod times;

pub use times::{Time, is_time};

/// Why the entries of a profile are refused.
#[derive(Clone, Copy, Debug, PartialEq, Eq)]
pub enum ProfileFault {
    /// 1: not 1 to 32 entries
    EntryCount,
    /// 2: not first ≤ last ≤ 15
    UuiRange,
    /// 3: the length is not 1 to 64 octets
    EntryLength,
    /// 4: the width is not 1, 2, 4, 8 or 16, or the first UUI is no multiple of it
    Width,
    /// 5: the interval is not 1 to 255 ms, or the packet time is no multiple of it from 1 to 65,535 ms
    Times,
    /// 6: the interval is not that of entry 0
    Unlike,
    /// 7: an earlier entry of the same length has a UUI in common with it
    Duplicate,
}

/// Why sending audio, an event or what is due is refused.
#[derive(Clone, Copy, Debug, PartialEq, Eq)]
pub enum SendingFault {
    /// 10: not 0 to 2^40 - 1 ms
    TimeOutOfRange,
    /// 11: the profile has no entry at this place
    NoEntry,
    /// 12: the payload has not the entry's length
    PayloadLength,
    /// 13: the time is no multiple of the interval
    OffInterval,
    /// 14: before the end of the last accepted packet
    Overlap,
    /// 15: before this stream's latest event or due call that was not refused
    BehindClock,
    /// 16: not later than every time that a packet of this stream was or may still be made for
    NotLater,
    /// 19: the buffer does not hold a packet of this kind
    BufferTooShort,
}

/// Why an arrival is refused, before its payload is read.
#[derive(Clone, Copy, Debug, PartialEq, Eq)]
pub enum ArrivalFault {
    /// 10: not 0 to 2^40 - 1 ms
    TimeOutOfRange,
    /// 20: before the last arrival that was not refused
    RunsBack,
    /// 21: the UUI is neither 0 to 15 nor 24
    UnknownUui,
    /// 22: no entry has this UUI and length
    NoSuchAudio,
}

/// Why a type 3 payload is not read.
#[derive(Clone, Copy, Debug, PartialEq, Eq)]
pub enum Type3Fault {
    /// 23: not 5 to 12 octets
    PayloadSize,
    /// 24: the check is wrong
    WrongCrc,
    /// 25: the message type is none of those that are read
    UnknownType,
    /// 26: the length is not that of the kind
    KindLength,
}

/// Why there is no such message of a kind.
#[derive(Clone, Copy, Debug, PartialEq, Eq)]
pub enum KindFault {
    /// 17: the digit type is above 3
    DigitType,
    /// 18: the code is not of its digit type
    DigitCode,
    /// 27: the octets are no message's body. It holds the kind's cause, a number since anyone may add a kind.
    Body(u8),
}

/// Why an arrival is not placed in time.
#[derive(Clone, Copy, Debug, PartialEq, Eq)]
pub enum PlacingFault {
    /// 28: two elapsed times are equally near
    EquallyNear,
    /// 29: the position would pass the range of times
    PositionOutOfRange,
}

/// The layers of the product, each with its own questions.
#[derive(Clone, Copy, Debug, PartialEq, Eq)]
pub enum Layer {
    /// loading a profile: 1 to 7
    Profile,
    /// sending: 10 to 16, and 19
    Sending,
    /// an arrival: 10, and 20 to 22
    Arrival,
    /// reading a type 3 payload: 23 to 26
    Type3,
    /// a kind of message: 17, 18 and 27
    Kind,
    /// placing an arrival in time: 28 and 29
    Placing,
}

/// A refusal: a layer's fault. That of a profile has beside it the place of the wrong entry, from 0, and 0 where the number
/// of entries is wrong.
#[derive(Clone, Copy, Debug, PartialEq, Eq)]
pub enum Refusal {
    /// a profile's entries, with the place of the entry
    Profile(ProfileFault, usize),
    /// audio, an event, or what is due
    Sending(SendingFault),
    /// an arrival at an end
    Arrival(ArrivalFault),
    /// a type 3 payload
    Type3(Type3Fault),
    /// a message of a kind, or its body
    Kind(KindFault),
    /// an arrival on its stream
    Placing(PlacingFault),
}

impl Refusal {
    /// The number by which a tester and a C program know it: 1 to 7 and 10 to 29.
    pub fn number(self) -> u8
        ensures { result ≡ number_of self }
    {
        match self {
            Refusal::Profile(ProfileFault::EntryCount, _) => 1,
            Refusal::Profile(ProfileFault::UuiRange, _) => 2,
            Refusal::Profile(ProfileFault::EntryLength, _) => 3,
            Refusal::Profile(ProfileFault::Width, _) => 4,
            Refusal::Profile(ProfileFault::Times, _) => 5,
            Refusal::Profile(ProfileFault::Unlike, _) => 6,
            Refusal::Profile(ProfileFault::Duplicate, _) => 7,
            Refusal::Sending(SendingFault::TimeOutOfRange) => 10,
            Refusal::Sending(SendingFault::NoEntry) => 11,
            Refusal::Sending(SendingFault::PayloadLength) => 12,
            Refusal::Sending(SendingFault::OffInterval) => 13,
            Refusal::Sending(SendingFault::Overlap) => 14,
            Refusal::Sending(SendingFault::BehindClock) => 15,
            Refusal::Sending(SendingFault::NotLater) => 16,
            Refusal::Kind(KindFault::DigitType) => 17,
            Refusal::Kind(KindFault::DigitCode) => 18,
            Refusal::Sending(SendingFault::BufferTooShort) => 19,
            Refusal::Arrival(ArrivalFault::TimeOutOfRange) => 10,
            Refusal::Arrival(ArrivalFault::RunsBack) => 20,
            Refusal::Arrival(ArrivalFault::UnknownUui) => 21,
            Refusal::Arrival(ArrivalFault::NoSuchAudio) => 22,
            Refusal::Type3(Type3Fault::PayloadSize) => 23,
            Refusal::Type3(Type3Fault::WrongCrc) => 24,
            Refusal::Type3(Type3Fault::UnknownType) => 25,
            Refusal::Type3(Type3Fault::KindLength) => 26,
            Refusal::Kind(KindFault::Body(_)) => 27,
            Refusal::Placing(PlacingFault::EquallyNear) => 28,
            Refusal::Placing(PlacingFault::PositionOutOfRange) => 29,
        }
    }

    /// The layer that asked.
    pub fn layer(self) -> Layer
        ensures { result ≡ layer_of self }
    {
        match self {
            Refusal::Profile(_, _) => Layer::Profile,
            Refusal::Sending(_) => Layer::Sending,
            Refusal::Arrival(_) => Layer::Arrival,
            Refusal::Type3(_) => Layer::Type3,
            Refusal::Kind(_) => Layer::Kind,
            Refusal::Placing(_) => Layer::Placing,
        }
    }

    /// The place of the entry that a profile was refused for, from 0, and 0 where the number of entries is wrong.
    pub fn place(self) -> Option<usize>
        ensures { result ≡ place_of self }
    {
        match self {
            Refusal::Profile(_, place) => Some(place),
            _ => None,
        }
    }

    /// Why a kind does not read a body (27): the kind's cause.
    pub fn cause(self) -> Option<u8>
        ensures { result ≡ cause_of self }
    {
        match self {
            Refusal::Kind(KindFault::Body(cause)) => Some(cause),
            _ => None,
        }
    }
}

impl fmt::Display for Refusal {
    ghost output = { λ refusal. Some (text_of refusal) };

    fn fmt<W: fmt::Write>(&self, f: &mut fmt::Formatter<W>) -> fmt::Result {
        write!(f, "refused with {}", self.number())
    }
}

impl Error for Refusal {}

// Each layer's fault is a refusal, but for that of a profile, which has a place beside it. (By hand, since a derived
// conversion has no contract.)
impl From<SendingFault> for Refusal {
    ghost from_gives = { λ fault refusal. refusal ≡ Sending fault };

    fn from(fault: SendingFault) -> Refusal {
        Refusal::Sending(fault)
    }
}

impl From<ArrivalFault> for Refusal {
    ghost from_gives = { λ fault refusal. refusal ≡ Arrival fault };

    fn from(fault: ArrivalFault) -> Refusal {
        Refusal::Arrival(fault)
    }
}

impl From<Type3Fault> for Refusal {
    ghost from_gives = { λ fault refusal. refusal ≡ Type3 fault };

    fn from(fault: Type3Fault) -> Refusal {
        Refusal::Type3(fault)
    }
}

impl From<KindFault> for Refusal {
    ghost from_gives = { λ fault refusal. refusal ≡ Kind fault };

    fn from(fault: KindFault) -> Refusal {
        Refusal::Kind(fault)
    }
}

impl From<PlacingFault> for Refusal {
    ghost from_gives = { λ fault refusal. refusal ≡ Placing fault };

    fn from(fault: PlacingFault) -> Refusal {
        Refusal::Placing(fault)
    }
}
