//! The audio stream under one of the example profiles.
ghost use Rattle.std.specs.Prelude.{◌≡◌, MatchResult};
ghost use Rattle.profile.specs.Examples.{entries_of};
ghost use Rattle.profile.specs.declared.load.LoadError.TheVariants.{Memory};
ghost use Rattle.sending.specs.Audio.{audio};
ghost use Rattle.timing.specs.Answers.{new_audio, answer_by};
ghost use Rattle.timing.specs.declared.answer.Answer.TheVariants.{Uui};

use crate::answer::Answer;
use profile::{Example, LoadError, Profile};
use sending::AudioSender;
use std::alloc::Global;

/// A stream of audio, and its profile.
#[derive(Drop)]
pub struct Audio {
    profile: Profile,
    sender: AudioSender,
}

impl Audio {
    /// A new stream under an example. The error is want of memory.
    pub fn new(alloc: Global, example: Example) -> Result<Audio, LoadError>
        ensures { MatchResult result (λ a. a ≡ new_audio (entries_of example)) (λ e. e ≡ Memory) }
    {
        Ok(Audio {
            profile: example.load(alloc)?,
            sender: AudioSender::new(),
        })
    }

    /// So many octets of audio from a time on, under the entry at a place.
    pub fn answer(&mut self, time: u64, place: usize, length: u8) -> Answer
        ensures value { result ≡ answer_by Uui (audio self.old.profile self.old.sender time place length).0 }
        ensures after { self.new.sender ≡ (audio self.old.profile self.old.sender time place length).1 }
        ensures same { self.new.profile ≡ self.old.profile }
    {
        let octets = [0; 255];
        let payload = &octets[..usize::from(length)];
        match self.sender.audio(&self.profile, time, place, payload) {
            Ok(uui) => Answer::Uui(uui),
            Err(refusal) => Answer::Refused(refusal),
        }
    }
}
