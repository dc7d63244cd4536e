//! The sending half of the audio stream.
ghost use Rattle.std.specs.Prelude.{◌≡◌, ◌≤◌, length, IfErr};
ghost use Rattle.refusal.specs.Questions.{first_no, allowed};
ghost use Rattle.sending.specs.Audio.{audio, audio_questions};

use profile::{Entry, Profile};
use refusal::{Refusal, SendingFault, Time};
use std::marker::Model;

/// The sending half of the audio stream. In contracts it is the end of the last accepted packet, in milliseconds.
#[derive(Clone, Copy, Debug, PartialEq, Eq)]
pub struct AudioSender {
    // no packet may start before it
    free: u64,
}

impl Model for AudioSender {
    ghost use Rattle.std.specs.Prelude.{ℕ};

    ghost Value = { ℕ };

    ghost view = { λ s. s.free };

    ghost inverse = { λ n. record { free = n } };
}

impl AudioSender {
    /// A new stream: audio may start at 0.
    pub fn new() -> AudioSender
        ensures { result ≡ 0 }
    {
        AudioSender { free: 0 }
    }

    /// Audio from a time on, in milliseconds, under the entry at a place, from 0: the UUI of its packet. Nothing is written.
    ///
    /// Refused, and then unchanged, in this order: 10, no time; 11, no entry at the place; 12, the payload has not the entry's
    /// length; 13, the time is no multiple of the interval; 14, it is before the end of the last accepted packet.
    pub fn audio(
        &mut self,
        profile: &Profile,
        time: u64,
        place: usize,
        payload: &[u8],
    ) -> Result<u16, Refusal>
        ensures value { result ≡ (audio profile.now self.old time place (length payload.now)).0 }
        ensures after { self.new ≡ (audio profile.now self.old time place (length payload.now)).1 }
        ensures unchanged { IfErr result (λ _. self.new ≡ self.old) }
    {
        let time = Time::new(time).ok_or(SendingFault::TimeOutOfRange)?.get();
        let (entry, uui) = profile
            .entry(place)
            .zip(profile.label(place, time))
            .ok_or(SendingFault::NoEntry)?;
        self.check(time, payload.len(), entry)?;
        self.free = time + u64::from(entry.packet_time);
        Ok(uui)
    }

    // (What it asks of the entry, `Profile::entry` tells.)
    fn check(&self, time: u64, length: usize, entry: Entry) -> Result<(), Refusal>
        requires { 1 ≤ entry.interval }
        ensures { result ≡ allowed (first_no (audio_questions self.now time length entry)) }
    {
        if length != usize::from(entry.length) {
            return Err(SendingFault::PayloadLength.into());
        }
        if time % u64::from(entry.interval) != 0 {
            return Err(SendingFault::OffInterval.into());
        }
        if time < self.free {
            return Err(SendingFault::Overlap.into());
        }
        Ok(())
    }
}
