//! What a type 3 payload says, and a thing of one of two kinds.
ghost use Rattle.std.specs.Prelude.{◌≡◌, ◌+◌};

use crate::bounded::{Redundancy, Stamp};
use crate::kind::Kind;

/// The octets of the shortest payload, whose body has one.
pub const SHORTEST: usize = 5;

/// The octets of the longest payload, whose body has eight.
pub const LONGEST: usize = 12;

/// How many octets each payload of this kind has: four more than its bodies.
pub fn payload_len<K: Kind>() -> usize
    ensures { result ≡ K.Kind.model.len + 4 }
{
    K::body_len() + 4
}

/// The UUI of the packets that carry type 3 payloads (I.366.2).
pub const TYPE_3_UUI: u16 = 24;

/// What a type 3 payload says.
#[derive(Clone, Copy, Debug, PartialEq, Eq)]
pub struct Payload<T> {
    /// which copy of its event it is, or that it is a refresh
    pub redundancy: Redundancy,
    /// the time that it is made for, in milliseconds modulo 16,384
    pub stamp: Stamp,
    /// the message of its kind
    pub message: T,
}

/// One of two in order: of two kinds with one message type the first is chosen.
#[derive(Clone, Copy, Debug, PartialEq, Eq)]
pub enum Either<X, Y> {
    /// of the first
    First(X),
    /// of the second
    Second(Y),
}
