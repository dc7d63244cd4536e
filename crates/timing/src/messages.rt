//! The calls on a message stream.
ghost use Rattle.std.specs.Prelude.{◌≡◌};
ghost use Rattle.sending.specs.Sending.{event, due};
ghost use Rattle.timing.specs.Answers.{accepted, packet, answer_by};

use crate::answer::Answer;
use crate::room::{MOST_ROOM, Room};
use sending::Sender;
use type3::{Kind, OctetBuffer};

/// The event of a message at a time.
pub fn answer_event<K: Kind>(sender: &mut Sender<K>, time: u64, message: K::Message) -> Answer
    ensures value { result ≡ answer_by accepted (event sender.old time message).0 }
    ensures after { sender.new ≡ (event sender.old time message).1 }
{
    match sender.event(time, message) {
        Ok(()) => Answer::Accepted,
        Err(refusal) => Answer::Refused(refusal),
    }
}

/// What is due at a time, in a buffer of so many octets.
pub fn answer_due<K: Kind>(sender: &mut Sender<K>, time: u64, room: Room) -> Answer
    ensures value { result ≡ answer_by packet (due K.Kind.model sender.old time room.octets).0 }
    ensures after { sender.new ≡ (due K.Kind.model sender.old time room.octets).1 }
{
    let mut octets = [0; MOST_ROOM];
    match sender.due(time, &mut octets[..room.get()]) {
        Ok(Some(count)) => Answer::Octets(OctetBuffer::new(octets, count)),
        Ok(None) => Answer::Nothing,
        Err(refusal) => Answer::Refused(refusal),
    }
}
