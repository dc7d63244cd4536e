//! A call, by its words. The first says what is asked.
use profile::{Entry, Example};
use std::alloc::{AllocError, Global};
use text::entry::entry_of;
use text::hex::{Letters, octets_of};
use text::number::number;

/// A call. (A time past the last is found where it is used.)
#[derive(Drop)]
pub enum Call {
    /// `new`: all streams begin anew, and labels are stamps.
    New,
    /// `profile NAME`: the stream of labels begins anew, with those of an example.
    Profile(Example),
    /// `entry FIRST LAST LENGTH PACKET_TIME INTERVAL`: the same, with those of a profile of this entry alone.
    Entry(Entry),
    /// `unit MS`: the same, with the span as it is, and labels that count so many milliseconds.
    Unit(u16),
    Arrives { time: u64, packet: Packet },
    /// `force digit`: which digit is in force.
    DigitInForce,
    /// `force cas`: which signalling bits are in force.
    CasInForce,
}

/// What arrives, on the stream that its first word names.
#[derive(Drop)]
pub enum Packet {
    /// `label TIME LABEL`
    Label(u16),
    /// `digit TIME OCTETS`, two hexadecimal digits for each octet, and `-` for none.
    Digit(Vec<u8>),
    /// `cas TIME OCTETS`
    Cas(Vec<u8>),
}

impl Call {
    /// `None` where the words are no call, or a number is out of its range.
    pub fn of(alloc: Global, words: &[&str]) -> Result<Option<Call>, AllocError> {
        match words {
            ["digit", time, octets] => {
                let octets = octets_of(alloc, Letters::Upper, octets)?;
                Ok(octets.and_then(|octets| Call::arrival(time, Packet::Digit(octets))))
            }
            ["cas", time, octets] => {
                let octets = octets_of(alloc, Letters::Upper, octets)?;
                Ok(octets.and_then(|octets| Call::arrival(time, Packet::Cas(octets))))
            }
            words => Ok(Call::without_octets(words)),
        }
    }

    fn arrival(time: &str, packet: Packet) -> Option<Call> {
        let time = number::<u64>(time)?;
        Some(Call::Arrives { time, packet })
    }

    fn without_octets(words: &[&str]) -> Option<Call> {
        match words {
            ["new"] => Some(Call::New),
            ["profile", name] => Some(Call::Profile(name.parse::<Example>().ok()?)),
            ["entry", words @ ..] => Some(Call::Entry(entry_of(None, 0, words)?)),
            ["unit", ms] => Some(Call::Unit(number::<u16>(ms)?)),
            ["label", time, label] => Call::arrival(time, Packet::Label(number::<u16>(label)?)),
            ["force", "digit"] => Some(Call::DigitInForce),
            ["force", "cas"] => Some(Call::CasInForce),
            _ => None,
        }
    }
}
