//! The calls of a session.
use kinds::CasBits;
use profile::Entry;
use trunk::WhichKind;

/// A call. (Numbers are as they were given: a call with any of them is answered.)
#[derive(Drop)]
pub enum Call {
    /// An entry is collected.
    Entry(Entry),
    /// The collected entries are offered as a profile, and forgotten.
    Load,
    Start,
    Stop,
    Serve(ServiceCall),
}

/// A call on an end in service.
#[derive(Drop)]
pub enum ServiceCall {
    /// Audio of so many octets from a time on, under the entry at a place.
    Audio {
        time: u64,
        place: usize,
        length: u16,
    },
    Event {
        time: u64,
        message: Message,
    },
    /// What is due of a kind, in a buffer of so many octets.
    Due {
        which: WhichKind,
        time: u64,
        room: usize,
    },
    Arrive {
        time: u64,
        uui: u16,
        octets: Vec<u8>,
    },
    /// The message in force.
    Force(WhichKind),
}

/// The message of an event. Its digit is still to be made, and may be refused; its level is in dBm0.
#[derive(Clone, Copy)]
pub enum Message {
    Digit { system: u8, code: u8, dbm0: i8 },
    Cas(CasBits),
}
