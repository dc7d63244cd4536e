//! The calls of an end that send.
ghost use Rattle.std.specs.Prelude.{◌≡◌, IfErr, length};
ghost use Rattle.sending.specs.Answered.{counted, put};
ghost use Rattle.trunk.specs.End.{audio, event, due};

use crate::answer::WhichKind;
use crate::service::InService;
use refusal::Refusal;
use type3::{Either, Kind, LONGEST, OctetBuffer};

impl<P: Kind, Q: Kind> InService<P, Q> {
    /// Audio from a time on, in ms, under the entry at a place: the label of its packet, its UUI by I.366.2. Nothing is written.
    ///
    /// Refused, and then unchanged, in this order: 10, no time; 11, no entry at the place; 12, the payload has not the entry's length;
    /// 13, the time is no multiple of the interval; 14, before the end of the last accepted packet.
    pub fn audio(&mut self, time: u64, place: usize, payload: &[u8]) -> Result<u16, Refusal>
        ensures value { result ≡ (audio self.old time place (length payload.now)).0 }
        ensures after { self.new ≡ (audio self.old time place (length payload.now)).1 }
        ensures unchanged { IfErr result (λ _. self.new ≡ self.old) }
    {
        self.audio_out.audio(&self.profile, time, place, payload)
    }

    /// An event at a time, in ms, of the one kind or of the other.
    ///
    /// Refused, and then unchanged, in this order: 10, no time; 15, before the latest event or due call of the stream that was not
    /// refused; 16, not later than its last event and its last refresh.
    pub fn event(
        &mut self,
        time: u64,
        message: Either<P::Message, Q::Message>,
    ) -> Result<(), Refusal>
        ensures value { result ≡ (event self.old time message).0 }
        ensures after { self.new ≡ (event self.old time message).1 }
        ensures unchanged { IfErr result (λ _. self.new ≡ self.old) }
    {
        match message {
            Either::First(message) => self.first_out.event(time, message),
            Either::Second(message) => self.second_out.event(time, message),
        }
    }

    /// What is due of a kind at a time, in ms: the packet is written to the start of `out`, the rest of which stays, and its length is
    /// answered, in octets.
    ///
    /// Refused, and then end and buffer are unchanged, in this order: 10, no time; 15, before the latest event or due call of the stream
    /// that was not refused; 19, the buffer is shorter than a packet of the kind.
    pub fn due(
        &mut self,
        which: WhichKind,
        time: u64,
        out: &mut [u8],
    ) -> Result<Option<usize>, Refusal>
        ensures value { result ≡ counted (due P.Kind.model Q.Kind.model self.old which time (length out.old)).0 }
        ensures after { self.new ≡ (due P.Kind.model Q.Kind.model self.old which time (length out.old)).1 }
        ensures octets { out.new ≡ put out.old (due P.Kind.model Q.Kind.model self.old which time (length out.old)).0 }
        ensures unchanged { IfErr result (λ _. (self.new ≡ self.old) × (out.new ≡ out.old)) }
    {
        match which {
            WhichKind::First => self.first_out.due(time, out),
            WhichKind::Second => self.second_out.due(time, out),
        }
    }

    /// The same with the octets themselves, for a caller who lends no buffer: they are written in so much room, in octets. Refused as
    /// `due` is.
    pub fn due_octets(
        &mut self,
        which: WhichKind,
        time: u64,
        room: usize,
    ) -> Result<Option<OctetBuffer<LONGEST>>, Refusal>
        ensures value { result ≡ (due P.Kind.model Q.Kind.model self.old which time room).0 }
        ensures after { self.new ≡ (due P.Kind.model Q.Kind.model self.old which time room).1 }
        ensures unchanged { IfErr result (λ _. self.new ≡ self.old) }
    {
        let mut octets = [0; LONGEST];
        let Some(count) = self.due(which, time, &mut octets[..room.min(LONGEST)])? else {
            return Ok(None);
        };
        Ok(Some(OctetBuffer::new(octets, count)))
    }
}
