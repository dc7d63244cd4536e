//! The answer to a case, in one line.
use examples::wide::Mark;
use kinds::{CasBits, Digit};
use refusal::Refusal;
use std::fmt;
use text::bits::FourDigits;
use text::digit::LevelTypeCode;
use text::hex::Hex;
use text::refusals::NumberAndCause;
use type3::{LONGEST, OctetBuffer, Payload};

/// The answer to a case. A refusal is one, and no error of the program.
#[derive(Drop)]
pub enum Answer {
    Octets(OctetBuffer<LONGEST>),
    Digit(Payload<Digit>),
    Cas(Payload<CasBits>),
    Wide(Payload<Mark>),
    /// The answer to a C program.
    Number(u32),
    Refused(Refusal),
    BadLine,
}

impl fmt::Display for Answer {
    fn fmt<W: fmt::Write>(&self, f: &mut fmt::Formatter<W>) -> fmt::Result {
        match self {
            Answer::Octets(octets) => write!(f, "{}", Hex(octets.as_slice())),
            Answer::Digit(payload) => {
                show_head("digit", payload, f)?;
                write!(f, " {}", LevelTypeCode(payload.message))
            }
            Answer::Cas(payload) => {
                show_head("cas", payload, f)?;
                write!(f, " {}", FourDigits(payload.message))
            }
            Answer::Wide(payload) => {
                show_head("wide", payload, f)?;
                let code: u8 = payload.message.into();
                write!(f, " {code}")
            }
            Answer::Number(number) => write!(f, "{number}"),
            Answer::Refused(refusal) => write!(f, "{}", NumberAndCause(*refusal)),
            Answer::BadLine => write!(f, "bad line"),
        }
    }
}

// The kind of a payload, and the two numbers at its head.
fn show_head<T: Copy, W: fmt::Write>(
    kind: &str,
    payload: &Payload<T>,
    f: &mut fmt::Formatter<W>,
) -> fmt::Result {
    let redundancy = payload.redundancy.get();
    let stamp = payload.stamp.get();
    write!(f, "{kind} {redundancy} {stamp}")
}
