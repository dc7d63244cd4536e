//! An end in service.
ghost use Rattle.std.specs.Prelude.{◌≡◌};
ghost use Rattle.trunk.specs.End.{in_force};

use crate::answer::WhichKind;
use crate::set_up::SetUp;
use placing::{Receiver, Timeline};
use profile::Profile;
use sending::{AudioSender, Sender};
use std::marker::Model;
use type3::{Either, Kind};

/// An end in service, over two kinds of message. In contracts it is the record of the definitions.
#[derive(Drop)]
pub struct InService<P: Kind, Q: Kind> {
    pub(crate) profile: Profile,
    pub(crate) audio_out: AudioSender,
    pub(crate) first_out: Sender<P>,
    pub(crate) second_out: Sender<Q>,
    // the time of the latest arrival that was not refused
    pub(crate) clock: u64,
    pub(crate) audio_in: Timeline,
    pub(crate) first_in: Receiver<P>,
    pub(crate) second_in: Receiver<Q>,
}

impl<P: Kind, Q: Kind> Model for InService<P, Q> {
    ghost use Rattle.trunk.specs.End.{End};

    ghost Value = { End P.Message Q.Message };

    ghost view = { λ s. record {
      profile = s.profile;
      audio_out = s.audio_out;
      first_out = s.first_out;
      second_out = s.second_out;
      clock = s.clock;
      audio_in = s.audio_in;
      first_in = s.first_in;
      second_in = s.second_in;
    } };
}

impl<P: Kind, Q: Kind> InService<P, Q> {
    /// The message in force on the stream of a kind: that of its latest news, and none before the first.
    pub fn in_force(&self, which: WhichKind) -> Option<Either<P::Message, Q::Message>>
        ensures { result ≡ in_force self.now which }
    {
        match which {
            WhichKind::First => Some(Either::First(self.first_in.in_force()?)),
            WhichKind::Second => Some(Either::Second(self.second_in.in_force()?)),
        }
    }

    /// The end in set-up, with its profile.
    pub fn stop(self) -> SetUp
        ensures { result ≡ self.profile }
    {
        SetUp {
            profile: self.profile,
        }
    }
}
