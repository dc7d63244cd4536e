//! A call, by its words. The first says what is asked.
use crate::room::Room;
use kinds::{CasBits, Digit};
use profile::Example;
use refusal::Refusal;
use text::bits::bits_of;
use text::digit::{key_digit, tone_off};

/// A call.
#[derive(Clone, Copy)]
pub enum Call {
    /// All streams begin anew.
    New,
    /// The audio stream begins anew, under an example.
    Profile(Example),
    Audio { time: u64, place: usize, length: u8 },
    /// The event of a digit that was made, or the refusal to make it.
    Digit(u64, Result<Digit, Refusal>),
    Cas(u64, CasBits),
    DueDigit(u64, Room),
    DueCas(u64, Room),
}

impl Call {
    /// `None` where the words are no call, or a number is out of its range.
    pub fn of(words: &[&str]) -> Option<Call> {
        match words {
            ["new"] => Some(Call::New),
            ["profile", name] => Some(Call::Profile(name.parse::<Example>().ok()?)),
            ["audio", time, place, length] => Some(Call::Audio {
                time: time.parse::<u64>().ok()?,
                place: place.parse::<usize>().ok()?,
                length: length.parse::<u8>().ok()?,
            }),
            [what, time, words @ ..] => Call::at(what, time.parse::<u64>().ok()?, words),
            _ => None,
        }
    }

    // A call on a message stream.
    fn at(what: &str, time: u64, words: &[&str]) -> Option<Call> {
        match (what, words) {
            ("key", [key]) => {
                let key = key.parse::<char>().ok()?;
                Some(Call::Digit(time, key_digit(key)))
            }
            ("off", []) => Some(Call::Digit(time, tone_off())),
            ("cas", [digits]) => Some(Call::Cas(time, bits_of(digits.as_bytes())?)),
            ("duekey", [room]) => Some(Call::DueDigit(time, Room::of(room)?)),
            ("duecas", [room]) => Some(Call::DueCas(time, Room::of(room)?)),
            _ => None,
        }
    }
}
