//! The sending half of a message stream.
ghost use Rattle.std.specs.Prelude.{◌≡◌, true, length, IfErr};
ghost use Rattle.refusal.specs.Questions.{first_no, allowed};
ghost use Rattle.sending.specs.Sending.{new_sender, event_in_range, event_questions, event, due_of, due_questions, next_refresh};
ghost use Rattle.sending.specs.Sending.{after_packet, due};
ghost use Rattle.sending.specs.Runs.{SendsLawfully, KeepsItsMoments};
ghost use Rattle.sending.specs.Answered.{counted, put};

use crate::event::{DuePacket, Event};
use refusal::{Refusal, SendingFault, Time};
use std::marker::Model;
use type3::{Kind, Redundancy, payload_len, write_payload};

// An event has so many copies.
const COPIES: u8 = 3;

// They are so many milliseconds apart.
const COPY_SPACING: u64 = 5;

/// The sending half of a message stream of a kind. In contracts it is the record `Stream`.
#[derive(Drop)]
pub struct Sender<K: Kind> {
    // the time of the latest call that was not refused
    clock: u64,
    // the latest event, whose message is in force
    latest: Option<Event<K::Message>>,
    // the redundancy of the next packet of it: as many copies have gone out
    next: Redundancy,
    // when the next refresh is due
    refresh: Option<u64>,
    // when the last refresh went out, of any event
    refreshed: Option<Time>,
}

impl<K: Kind> Model for Sender<K> {
    ghost use Rattle.std.specs.Prelude.{◌≡◌, true};
    ghost use Rattle.sending.specs.Sending.{Outbound, event_in_range};

    ghost Value = { Outbound K.Message };

    ghost view = { λ s. record { clock = s.clock; latest = s.latest; copies = s.next; refresh = s.refresh; refreshed = s.refreshed } };

    ghost invariant = { λ s. event_in_range s.latest ≡ true };
}

impl<K: Kind> Sender<K> {
    /// A new stream, with no event.
    pub fn new() -> Sender<K>
        ensures { result ≡ new_sender }
    {
        Sender {
            clock: 0,
            latest: None,
            next: Redundancy::first(),
            refresh: None,
            refreshed: None,
        }
    }

    /// An event at a time, in milliseconds: it ends what was due of an earlier one, and its message is in force. Whatever is
    /// called on a new stream, what it sends is lawful.
    ///
    /// Refused, and then unchanged, in this order: 10, no time; 15, before the latest event or due call that was not refused;
    /// 16, not later than the latest event, or than the last refresh.
    #[tactic(auto, using(crate::proofs::Histories::sends_lawfully))]
    pub fn event(&mut self, time: u64, message: K::Message) -> Result<(), Refusal>
        ensures value { result ≡ (event self.old time message).0 }
        ensures after { self.new ≡ (event self.old time message).1 }
        ensures unchanged { IfErr result (λ _. self.new ≡ self.old) }
        ensures in_range { event_in_range self.new.latest ≡ true }
        ensures lawful { SendsLawfully K.Kind.model }
    {
        // (For the proof alone: once a field was read, the type's invariant is known on every way out, and `in_range` tells it.)
        let _ = &self.latest;
        let time = Time::new(time).ok_or(SendingFault::TimeOutOfRange)?;
        self.check_event(time)?;
        self.clock = time.get();
        self.latest = Some(Event { time, message });
        self.next = Redundancy::first();
        self.refresh = None;
        Ok(())
    }

    fn check_event(&self, time: Time) -> Result<(), Refusal>
        ensures { result ≡ allowed (first_no (event_questions self.now time)) }
    {
        if time.get() < self.clock {
            return Err(SendingFault::BehindClock.into());
        }
        if let Some(event) = self.latest
            && time <= event.time
        {
            return Err(SendingFault::NotLater.into());
        }
        if let Some(refreshed) = self.refreshed
            && time <= refreshed
        {
            return Err(SendingFault::NotLater.into());
        }
        Ok(())
    }

    /// What is due at a time, in milliseconds: the first unsent packet whose moment has come is written to the start of `out`,
    /// and its length in octets is answered. Called at every millisecond after an event, it sends each packet at its moment.
    ///
    /// Refused, and then stream and buffer are unchanged, in this order, whether or not anything is due: 10, no time; 15,
    /// before the latest event or due call that was not refused; 19, the buffer does not hold a packet of this kind.
    #[tactic(auto, using(crate::proofs::Milliseconds::keeps_its_moments))]
    pub fn due(&mut self, time: u64, out: &mut [u8]) -> Result<Option<usize>, Refusal>
        ensures value { result ≡ counted (due K.Kind.model self.old time (length out.old)).0 }
        ensures after { self.new ≡ (due K.Kind.model self.old time (length out.old)).1 }
        ensures octets { out.new ≡ put out.old (due K.Kind.model self.old time (length out.old)).0 }
        ensures unchanged { IfErr result (λ _. (self.new ≡ self.old) × (out.new ≡ out.old)) }
        ensures in_range { event_in_range self.new.latest ≡ true }
        ensures moments { KeepsItsMoments K.Kind.model }
    {
        // (For the proof alone: once a field was read, the type's invariant is known on every way out, and `in_range` tells it.)
        let _ = &self.latest;
        let time = Time::new(time).ok_or(SendingFault::TimeOutOfRange)?;
        self.check_due(time, out.len())?;
        let Some(packet) = self.packet(time) else {
            self.clock = time.get();
            return Ok(None);
        };
        let count = write_payload::<K>(packet.payload(), out)?;
        self.after_packet(time, &packet);
        Ok(Some(count))
    }

    fn check_due(&self, time: Time, room: usize) -> Result<(), Refusal>
        ensures { result ≡ allowed (first_no (due_questions K.Kind.model self.now time room)) }
    {
        if time.get() < self.clock {
            return Err(SendingFault::BehindClock.into());
        }
        if room < payload_len::<K>() {
            return Err(SendingFault::BufferTooShort.into());
        }
        Ok(())
    }

    // The packet that a call at this time sends, if one is due.
    fn packet(&self, time: Time) -> Option<DuePacket<K::Message>>
        ensures { result ≡ due_of self.now time }
    {
        let event = self.latest?;
        let copies = self.next.get();
        let (moment, made) = if copies < COPIES {
            (
                event.time.get() + COPY_SPACING * u64::from(copies),
                event.time,
            )
        } else {
            (self.refresh?, time)
        };
        if moment <= time.get() {
            Some(DuePacket {
                redundancy: self.next,
                time: made,
                message: event.message,
            })
        } else {
            None
        }
    }

    // A packet has gone out.
    fn after_packet(&mut self, time: Time, packet: &DuePacket<K::Message>)
        ensures { self.new ≡ after_packet K.Kind.model self.old time packet.now }
    {
        let redundancy = packet.redundancy.get();
        self.clock = time.get();
        self.next = packet.redundancy.next();
        if redundancy >= 2 {
            self.refresh = Self::next_refresh(time, packet.message);
        }
        if packet.redundancy.is_refresh() {
            self.refreshed = Some(time);
        }
    }

    // When the refresh after a packet is due.
    fn next_refresh(time: Time, message: K::Message) -> Option<u64>
        ensures { result ≡ next_refresh K.Kind.model time message }
    {
        K::gap(message).map(|gap| time.get() + u64::from(gap))
    }
}
