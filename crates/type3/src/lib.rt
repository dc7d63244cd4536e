//! Type 3 payloads of ITU-T I.366.2, of any kind of message: how they are written, and what is read from them. A payload is
//! 5 to 12 octets: redundancy and stamp, a body, the message type, and the check of I.610.
#![tactic(auto)]

mod bounded;
mod kind;
mod payload;
mod reading;
mod writing;
mod written;

pub use bounded::{Redundancy, STAMP_MODULUS, Stamp};
pub use kind::Kind;
pub use payload::{Either, LONGEST, Payload, SHORTEST, TYPE_3_UUI, payload_len};
pub use reading::{read_either, read_payload};
pub use writing::write_payload;
pub use written::OctetBuffer;
