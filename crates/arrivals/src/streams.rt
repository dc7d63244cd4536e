//! The receiving streams of one trunk.
ghost use Rattle.std.specs.Prelude.{◌≡◌, IfOk, IfErr};
ghost use Rattle.profile.specs.declared.load.LoadError.TheVariants.{Memory};
ghost use Rattle.arrivals.specs.Answers.{new_streams, begin, load, arrive_at, arrive, answer};

use crate::answer::Answer;
use crate::call::{Call, Packet};
use crate::messages::hear;
use kinds::{Cas, Digits};
use placing::{Labelling, Receiver, Timeline};
use profile::{Entry, LoadError, Profile};
use refusal::Time;
use std::alloc::Global;
use text::refusals::loaded_or_refused;

/// A stream of labels, as that of audio, and two of messages.
#[derive(Drop)]
pub struct Streams {
    labelling: Labelling,
    labels: Timeline,
    digits: Receiver<Digits>,
    cas: Receiver<Cas>,
}

impl Streams {
    /// New streams, on which labels are stamps.
    pub fn new() -> Streams
        ensures { result ≡ new_streams }
    {
        Streams {
            labelling: Labelling::of_stamps(),
            labels: Timeline::new(),
            digits: Receiver::<Digits>::new(),
            cas: Receiver::<Cas>::new(),
        }
    }

    /// A call: its answer. The error is want of memory.
    pub fn answer(&mut self, alloc: Global, call: &Call) -> Result<Answer, LoadError>
        ensures value { IfOk result (λ a. a ≡ (answer self.old call.now).0) }
        ensures after { IfOk result (λ a. self.new ≡ (answer self.old call.now).1) }
        ensures memory { IfErr result (λ e. e ≡ Memory) }
    {
        match call {
            Call::New => {
                *self = Streams::new();
                Ok(Answer::New)
            }
            Call::Profile(example) => self.load(alloc, example.entries()),
            Call::Entry(entry) => self.load(alloc, &[*entry]),
            Call::Unit(unit) => Ok(self.begin(Labelling {
                span: self.labelling.span,
                unit: *unit,
            })),
            Call::Arrives { time, packet } => Ok(self.arrive_at(*time, packet)),
            Call::DigitInForce => Ok(Answer::DigitInForce(self.digits.in_force())),
            Call::CasInForce => Ok(Answer::CasInForce(self.cas.in_force())),
        }
    }

    // The stream of labels begins anew, with those of a profile of these entries.
    fn load(&mut self, alloc: Global, offered: &[Entry]) -> Result<Answer, LoadError>
        ensures value { IfOk result (λ a. a ≡ (load self.old offered.now).0) }
        ensures after { IfOk result (λ a. self.new ≡ (load self.old offered.now).1) }
        ensures memory { IfErr result (λ e. e ≡ Memory) }
    {
        match loaded_or_refused(Profile::load(alloc, offered))? {
            Ok(profile) => Ok(self.begin(Labelling::of_profile(&profile))),
            Err(refusal) => Ok(Answer::Refused(refusal)),
        }
    }

    // The stream of labels begins anew, with such labels.
    fn begin(&mut self, labelling: Labelling) -> Answer
        ensures value { result ≡ (begin self.old labelling).0 }
        ensures after { self.new ≡ (begin self.old labelling).1 }
    {
        let answer = Answer::Begun {
            span: labelling.span.get(),
            unit: labelling.unit,
        };
        self.labelling = labelling;
        self.labels = Timeline::new();
        answer
    }

    fn arrive_at(&mut self, time: u64, packet: &Packet) -> Answer
        ensures value { result ≡ (arrive_at self.old time packet.now).0 }
        ensures after { self.new ≡ (arrive_at self.old time packet.now).1 }
    {
        match Time::new(time) {
            Some(time) => self.arrive(time, packet),
            None => Answer::BadLine,
        }
    }

    fn arrive(&mut self, time: Time, packet: &Packet) -> Answer
        ensures value { result ≡ (arrive self.old time packet.now).0 }
        ensures after { self.new ≡ (arrive self.old time packet.now).1 }
    {
        match packet {
            Packet::Label(label) => self
                .labels
                .place(self.labelling, *label, time)
                .map_or_else(Answer::Refused, Answer::Label),
            Packet::Digit(octets) => hear(&mut self.digits, time, octets.as_slice()).map_or_else(
                Answer::Refused,
                Answer::Digit,
            ),
            Packet::Cas(octets) => hear(&mut self.cas, time, octets.as_slice()).map_or_else(
                Answer::Refused,
                Answer::Cas,
            ),
        }
    }
}
