//! The receiving half of a message stream.
ghost use Rattle.std.specs.Prelude.{◌≡◌, Some, IfErr};
ghost use Rattle.placing.specs.Receiving.{text_of, new_receiver, class_of, receive};
ghost use Rattle.placing.specs.InForce.{InForceIsTheLatestNews};

use crate::span::Labelling;
use crate::stream::{Advance, Novelty, Timeline};
use refusal::{Refusal, Time};
use std::fmt;
use std::marker::Model;
use type3::{Kind, Payload, Redundancy};

/// News of a message stream: a copy of an event is an event; a refresh confirms the message in force, or recovers one that was
/// lost.
#[derive(Clone, Copy, Debug, PartialEq, Eq)]
pub enum Class {
    /// a copy of an event was heard for the first time
    Event,
    /// a refresh of the message in force
    Confirmed,
    /// a refresh of a message that was not in force: no copy of its event was news
    Recovered,
}

impl fmt::Display for Class {
    ghost output = { λ class. Some (text_of class) };

    fn fmt<W: fmt::Write>(&self, f: &mut fmt::Formatter<W>) -> fmt::Result {
        match self {
            Class::Event => write!(f, "event"),
            Class::Confirmed => write!(f, "confirmed"),
            Class::Recovered => write!(f, "recovered"),
        }
    }
}

/// News of a message stream.
#[derive(Clone, Copy, Debug, PartialEq, Eq)]
pub struct MessageNews<T> {
    /// what sort of news it is
    pub class: Class,
    /// which copy was heard, or that it was a refresh
    pub redundancy: Redundancy,
    /// the time since the news before, and since the first news
    pub advance: Advance,
    /// the message, which is in force now
    pub message: T,
}

/// The receiving half of a message stream of a kind. In contracts it is its latest news, and the message in force.
#[derive(Drop)]
pub struct Receiver<K: Kind> {
    stream: Timeline,
    force: Option<K::Message>,
}

impl<K: Kind> Model for Receiver<K> {
    ghost use Rattle.placing.specs.Receiving.{Inbound};

    ghost Value = { Inbound K.Message };

    ghost view = { λ r. record { last_news = r.stream; force = r.force } };
}

impl<K: Kind> Receiver<K> {
    /// A new stream, on which the message in force is that of the latest news.
    pub fn new() -> Receiver<K>
        ensures new { result ≡ new_receiver }
        ensures force { InForceIsTheLatestNews K.Kind.model }
    {
        Receiver {
            stream: Timeline::new(),
            force: None,
        }
    }

    /// The message in force: that of the latest news.
    pub fn in_force(&self) -> Option<K::Message>
        ensures { result ≡ self.now.force }
    {
        self.force
    }

    /// A payload that was read, arriving at a time.
    ///
    /// Refused, and then unchanged, in this order: 28, two elapsed times are equally near; 29, the position would pass the
    /// range of times.
    pub fn receive(
        &mut self,
        time: Time,
        payload: Payload<K::Message>,
    ) -> Result<Novelty<MessageNews<K::Message>>, Refusal>
        ensures value { result ≡ (receive K.Kind.model self.old time payload).0 }
        ensures after { self.new ≡ (receive K.Kind.model self.old time payload).1 }
        ensures unchanged { IfErr result (λ _. self.new ≡ self.old) }
    {
        let novelty = self
            .stream
            .place(Labelling::of_stamps(), payload.stamp.get(), time)?;
        let novelty = novelty.map(|advance| MessageNews {
            class: self.class_of(payload),
            redundancy: payload.redundancy,
            advance,
            message: payload.message,
        });
        if let Novelty::News(_) = novelty {
            self.force = Some(payload.message);
        }
        Ok(novelty)
    }

    fn class_of(&self, payload: Payload<K::Message>) -> Class
        ensures { result ≡ class_of K.Kind.model self.now.force payload }
    {
        if !payload.redundancy.is_refresh() {
            Class::Event
        } else if self.force == Some(payload.message) {
            Class::Confirmed
        } else {
            Class::Recovered
        }
    }
}
