//! What the far end makes of the digits that it hears.
ghost use Rattle.std.specs.Prelude.{◌≡◌, IfOk};
ghost use Rattle.dialling.specs.Heard.{ends, after, is_new, new_digit, hears, tones_heard};

use crate::tone::Tone;
use kinds::{CasBits, Digit, TONE_OFF};
use network::Answer;
use placing::Class;
use std::alloc::{AllocError, Global};
use trunk::Arrived;

/// The answer to a call.
pub type Reply = Answer<Digit, CasBits>;

/// A key whose tone is on, and where it began.
#[derive(Clone, Copy)]
pub struct KeyOn {
    pub key: Digit,
    pub at: u64,
}

/// What a listener keeps: the tone that is on, if one is, and where the one before ended. Times are positions of news.
#[derive(Clone, Copy)]
pub struct Listener {
    on: Option<KeyOn>,
    ended: u64,
}

impl Listener {
    // A new digit at a position ends the tone that is on, which is answered, and begins one if it is a key.
    fn hear(&mut self, digit: Digit, position: u64) -> Option<Tone>
        ensures value { result ≡ ends self.old position }
        ensures after { self.new ≡ after self.old digit position }
    {
        let tone = self.on.map(|on| Tone {
            key: on.key,
            pause: on.at.saturating_sub(self.ended),
            held: position.saturating_sub(on.at),
        });
        if self.on.is_some() {
            self.ended = position;
        }
        self.on = (digit.code() != TONE_OFF).then_some(KeyOn {
            key: digit,
            at: position,
        });
        tone
    }

    // An answer of the far end: the tone that it ends, if it ends one.
    fn answer(&mut self, answer: &Reply) -> Option<Tone>
        ensures value { result ≡ (hears self.old answer.now).0 }
        ensures after { self.new ≡ (hears self.old answer.now).1 }
    {
        let (digit, position) = new_digit(answer)?;
        self.hear(digit, position)
    }
}

// Whether news says more than that the message in force stays. (A refresh that confirms it is no new key.)
fn is_new(class: Class) -> bool
    ensures { result ≡ is_new class }
{
    match class {
        Class::Event | Class::Recovered => true,
        Class::Confirmed => false,
    }
}

// What an answer says of a new digit: it, and its position.
fn new_digit(answer: &Reply) -> Option<(Digit, u64)>
    ensures { result ≡ new_digit answer.now }
{
    match answer {
        Answer::Arrive(Ok(Arrived::First(news))) if is_new(news.class) => {
            Some((news.message, news.advance.position))
        }
        _ => None,
    }
}

/// The tones that the answers tell of. The error is want of memory.
pub fn tones_heard(alloc: Global, answers: &[Reply]) -> Result<Vec<Tone>, AllocError>
    ensures { IfOk result (λ tones. tones.items ≡ tones_heard answers.now) }
{
    let mut tones = Vec::new(alloc);
    let mut listener = Listener { on: None, ended: 0 };
    for answer in answers {
        if let Some(tone) = listener.answer(answer) {
            tones.push(tone)?;
        }
    }
    Ok(tones)
}
