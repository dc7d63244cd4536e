//! The answer to a call, in one line.
use crate::room::MOST_ROOM;
use refusal::Refusal;
use std::fmt;
use text::hex::Hex;
use text::refusals::NumberAndCause;
use type3::OctetBuffer;

/// The answer to a call. A refusal is one, and no error of the program.
#[derive(Drop)]
pub enum Answer {
    /// All streams are new.
    New,
    /// The audio stream is new, under a profile.
    Loaded,
    Accepted,
    Octets(OctetBuffer<MOST_ROOM>),
    Nothing,
    Uui(u16),
    Refused(Refusal),
    BadLine,
}

impl fmt::Display for Answer {
    fn fmt<W: fmt::Write>(&self, f: &mut fmt::Formatter<W>) -> fmt::Result {
        match self {
            Answer::New => write!(f, "new"),
            Answer::Loaded => write!(f, "loaded"),
            Answer::Accepted => write!(f, "accepted"),
            Answer::Octets(octets) => write!(f, "{}", Hex(octets.as_slice())),
            Answer::Nothing => write!(f, "nothing"),
            Answer::Uui(uui) => write!(f, "uui {uui}"),
            Answer::Refused(refusal) => write!(f, "{}", NumberAndCause(*refusal)),
            Answer::BadLine => write!(f, "bad line"),
        }
    }
}
