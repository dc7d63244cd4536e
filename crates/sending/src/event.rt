//! An event that was accepted, and a packet that is due of one.
ghost use Rattle.std.specs.Prelude.{◌≡◌};
ghost use Rattle.sending.specs.Sending.{said_by};

use refusal::Time;
use type3::{Payload, Redundancy, Stamp};

/// An event: a message that is in force from a time on.
#[derive(Clone, Copy, Debug, PartialEq, Eq)]
pub struct Event<T> {
    /// when it was reported for
    pub time: Time,
    /// what it says
    pub message: T,
}

/// A packet is made for a time: a copy for its event's, a refresh for that of the call which sends it.
#[derive(Clone, Copy, Debug, PartialEq, Eq)]
pub struct DuePacket<T> {
    /// which copy it is, or that it is a refresh
    pub redundancy: Redundancy,
    /// the time that it is made for, of which its stamp is made
    pub time: Time,
    /// the message of its event
    pub message: T,
}

impl<T: Copy> DuePacket<T> {
    // What it says: its stamp is that of the time that it is made for.
    pub(crate) fn payload(&self) -> Payload<T>
        ensures { result ≡ said_by self.now }
    {
        Payload {
            redundancy: self.redundancy,
            stamp: Stamp::at(self.time.get()),
            message: self.message,
        }
    }
}
