//! The calls of a list, and what they are answered.
use crate::side::Side;
use refusal::Refusal;
use trunk::{Arrived, WhichKind};
use type3::{LONGEST, OctetBuffer};

/// A call on an end, with octets `O` and a message `M`. (They are type arguments, since an enum may not hold both a reference and
/// a struct that has a ghost field, as digits have.)
#[derive(Clone, Copy, Debug)]
pub enum Call<O, M> {
    Audio {
        time: u64,
        place: usize,
        payload: O,
    },
    Event {
        time: u64,
        message: M,
    },
    // with so much room in the buffer
    Due {
        which: WhichKind,
        time: u64,
        room: usize,
    },
    // `copies` is the call of the list, from 0, that made the packet of which this is a copy, if it is one
    Arrive {
        time: u64,
        uui: u16,
        octets: O,
        copies: Option<usize>,
    },
}

/// A call on the end at a side.
#[derive(Clone, Copy, Debug)]
pub struct Turn<O, M> {
    pub side: Side,
    pub call: Call<O, M>,
}

/// What a call of each sort is answered. What was due is answered with its octets.
#[derive(Drop)]
pub enum Answer<X, Y> {
    Audio(Result<u16, Refusal>),
    Event(Result<(), Refusal>),
    Due(Result<Option<OctetBuffer<LONGEST>>, Refusal>),
    Arrive(Result<Arrived<X, Y>, Refusal>),
}
