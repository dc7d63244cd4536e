//! What a call is answered.
use kinds::{CasBits, Digit};
use refusal::Refusal;
use trunk::Arrived;
use type3::{Either, LONGEST, OctetBuffer};

/// The answer to a call. A refusal is one, and no error.
#[derive(Drop)]
pub enum Answer {
    Done,
    /// The label of audio.
    Label(u16),
    /// No packet is due.
    Nothing,
    /// The octets of the packet that was due.
    Sent(OctetBuffer<LONGEST>),
    Arrived(Arrived<Digit, CasBits>),
    InForce(Option<Either<Digit, CasBits>>),
    Refused(Refusal),
    /// The end's state does not allow the call.
    NotAllowed,
}
