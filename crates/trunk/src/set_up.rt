//! An end in set-up.
ghost use Rattle.std.specs.Prelude.{◌≡◌, false, is_some, MatchResult};
ghost use Rattle.profile.specs.Examples.{entries_of};
ghost use Rattle.profile.specs.declared.examples.Example.TheVariants.{A};
ghost use Rattle.profile.specs.Questions.{refusal};
ghost use Rattle.profile.specs.declared.load.LoadError.TheVariants.{Memory};
ghost use Rattle.trunk.specs.End.{started};
ghost use Rattle.trunk.specs.SettingUp.{loaded, Loads};

use crate::service::InService;
use placing::{Receiver, Timeline};
use profile::{Entry, Example, LoadError, Profile};
use sending::{AudioSender, Sender};
use std::alloc::Global;
use std::marker::Model;
use type3::Kind;

/// An end in set-up holds the profile with which it will start. In contracts it is that profile.
#[derive(Drop)]
pub struct SetUp {
    pub(crate) profile: Profile,
}

impl Model for SetUp {
    ghost use Rattle.std.specs.Prelude.{◌≡◌, List, false, is_some};
    ghost use Rattle.profile.specs.declared.entry.Entry.{Entry};
    ghost use Rattle.profile.specs.Questions.{refusal};

    ghost Value = { List Entry };

    ghost view = { λ s. s.profile };

    ghost invariant = { λ s. is_some (refusal s.profile) ≡ false };
}

impl SetUp {
    /// A new end holds example profile A.
    pub fn new(alloc: Global) -> Result<SetUp, LoadError>
        ensures { MatchResult result (λ s. s ≡ entries_of A) (λ e. e ≡ Memory) }
    {
        Ok(SetUp {
            profile: Example::A.load(alloc)?,
        })
    }

    /// The profile becomes that of the offered entries, if they pass every question.
    ///
    /// Refused with 1 to 7, as a profile is loaded, or want of memory; then the profile stays.
    pub fn load(&mut self, alloc: Global, offered: &[Entry]) -> Result<(), LoadError>
        ensures value { Loads offered.now result }
        ensures after { self.new ≡ loaded offered.now self.old result }
    {
        self.profile = Profile::load(alloc, offered)?;
        Ok(())
    }

    /// The end in service, over two kinds, with nothing sent and nothing received.
    pub fn start<P: Kind, Q: Kind>(self) -> InService<P, Q>
        ensures value { result ≡ started self }
        ensures loads { is_some (refusal self) ≡ false }
    {
        InService {
            profile: self.profile,
            audio_out: AudioSender::new(),
            first_out: Sender::<P>::new(),
            second_out: Sender::<Q>::new(),
            clock: 0,
            audio_in: Timeline::new(),
            first_in: Receiver::<P>::new(),
            second_in: Receiver::<Q>::new(),
        }
    }
}
