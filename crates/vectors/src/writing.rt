//! Payloads to be written, by their words.
ghost use Rattle.std.specs.Prelude.{◌≡◌};
ghost use Rattle.type3.specs.Octets.{written};
ghost use Rattle.vectors.specs.Answers.{payload_of, write};
ghost use Rattle.vectors.specs.declared.answer.Answer.TheVariants.{Octets};

use crate::answer::Answer;
use examples::wide::{Mark, Wide};
use kinds::{Cas, CasBits, Digit, Digits};
use refusal::Refusal;
use text::bits::bits_of;
use type3::{Kind, LONGEST, OctetBuffer, Payload, Redundancy, Stamp, write_payload};

/// The two numbers at the head of a payload that is to be written, and its message.
#[derive(Clone, Copy)]
pub struct WriteRequest {
    redundancy: Redundancy,
    stamp: Stamp,
    message: Message,
}

#[derive(Clone, Copy)]
enum Message {
    Cas(CasBits),
    // a digit that was made, or the refusal to make it
    Digit(Result<Digit, Refusal>),
    Wide(Mark),
}

impl WriteRequest {
    /// The request of a kind's name and the words after it: `None` where a word is not what it is to be. Numbers are what std's
    /// `parse` takes, with a plus sign or zeros in front too.
    pub fn of(kind: &str, words: &[&str]) -> Option<WriteRequest> {
        let [redundancy, stamp, words @ ..] = words else {
            return None;
        };
        Some(WriteRequest {
            redundancy: Redundancy::new(redundancy.parse::<u8>().ok()?)?,
            stamp: Stamp::new(stamp.parse::<u16>().ok()?)?,
            message: Message::of(kind, words)?,
        })
    }

    /// The octets, or the refusal.
    pub fn answer(&self) -> Answer
        ensures { result ≡ write self.now self.now.message }
    {
        match self.message {
            Message::Cas(bits) => self.write::<Cas>(bits),
            Message::Digit(Ok(digit)) => self.write::<Digits>(digit),
            Message::Digit(Err(refusal)) => Answer::Refused(refusal),
            Message::Wide(mark) => self.write::<Wide>(mark),
        }
    }

    fn write<K: Kind>(&self, message: K::Message) -> Answer
        ensures { result ≡ Octets (written K.Kind.model (payload_of self.now message)) }
    {
        let payload = Payload {
            redundancy: self.redundancy,
            stamp: self.stamp,
            message,
        };
        let mut octets = [0; LONGEST];
        match write_payload::<K>(payload, &mut octets) {
            Ok(count) => Answer::Octets(OctetBuffer::new(octets, count)),
            Err(refusal) => Answer::Refused(refusal),
        }
    }
}

impl Message {
    fn of(kind: &str, words: &[&str]) -> Option<Message> {
        match (kind, words) {
            ("cas", [digits]) => Some(Message::Cas(bits_of(digits.as_bytes())?)),
            ("digit", [system, code, dbm0]) => Some(Message::Digit(Digit::new(
                system.parse::<u8>().ok()?,
                code.parse::<u8>().ok()?,
                dbm0.parse::<i8>().ok()?,
            ))),
            ("key", [key, dbm0]) => Message::of_key(key, dbm0),
            // a blank comes as two empty words
            ("key", ["", "", dbm0]) => Message::of_key(" ", dbm0),
            ("wide", [code]) => Some(Message::Wide(Mark::try_from(code.parse::<u8>().ok()?).ok()?)),
            _ => None,
        }
    }

    fn of_key(key: &str, dbm0: &str) -> Option<Message> {
        let key = key.parse::<char>().ok()?;
        Some(Message::Digit(Digit::of_key(key, dbm0.parse::<i8>().ok()?)))
    }
}
