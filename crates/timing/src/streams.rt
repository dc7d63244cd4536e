//! The sending streams of one trunk.
ghost use Rattle.std.specs.Prelude.{◌≡◌, IfOk, IfErr};
ghost use Rattle.profile.specs.declared.load.LoadError.TheVariants.{Memory};
ghost use Rattle.timing.specs.Answers.{new_streams, audio_at, answer};

use crate::answer::Answer;
use crate::audio::Audio;
use crate::call::Call;
use crate::messages::{answer_due, answer_event};
use kinds::{Cas, Digits};
use profile::LoadError;
use sending::Sender;
use std::alloc::Global;

/// Two streams of messages, and one of audio once a profile is chosen.
#[derive(Drop)]
pub struct Streams {
    digits: Sender<Digits>,
    cas: Sender<Cas>,
    audio: Option<Audio>,
}

impl Streams {
    /// New streams, without a profile.
    pub fn new() -> Streams
        ensures { result ≡ new_streams }
    {
        Streams {
            digits: Sender::<Digits>::new(),
            cas: Sender::<Cas>::new(),
            audio: None,
        }
    }

    /// A call: its answer. The error is want of memory.
    pub fn answer(&mut self, alloc: Global, call: &Call) -> Result<Answer, LoadError>
        ensures value { IfOk result (λ a. a ≡ (answer self.old call.now).0) }
        ensures after { IfOk result (λ a. self.new ≡ (answer self.old call.now).1) }
        ensures memory { IfErr result (λ e. e ≡ Memory) }
    {
        match call {
            Call::New => {
                *self = Streams::new();
                Ok(Answer::New)
            }
            Call::Profile(example) => {
                self.audio = Some(Audio::new(alloc, *example)?);
                Ok(Answer::Loaded)
            }
            Call::Audio {
                time,
                place,
                length,
            } => Ok(self.answer_audio(*time, *place, *length)),
            Call::Digit(time, Ok(digit)) => Ok(answer_event(&mut self.digits, *time, *digit)),
            Call::Digit(_, Err(refusal)) => Ok(Answer::Refused(*refusal)),
            Call::Cas(time, bits) => Ok(answer_event(&mut self.cas, *time, *bits)),
            Call::DueDigit(time, room) => Ok(answer_due(&mut self.digits, *time, *room)),
            Call::DueCas(time, room) => Ok(answer_due(&mut self.cas, *time, *room)),
        }
    }

    // Without a profile the line is a bad one.
    fn answer_audio(&mut self, time: u64, place: usize, length: u8) -> Answer
        ensures value { result ≡ (audio_at self.old self.old.audio time place length).0 }
        ensures after { self.new ≡ (audio_at self.old self.old.audio time place length).1 }
    {
        match &mut self.audio {
            Some(audio) => audio.answer(time, place, length),
            None => Answer::BadLine,
        }
    }
}
