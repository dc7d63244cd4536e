//! The calls on a message stream.
ghost use Rattle.std.specs.Prelude.{◌≡◌};
ghost use Rattle.arrivals.specs.Answers.{hear};

use placing::{MessageNews, Novelty, Receiver};
use refusal::{Refusal, Time};
use type3::{Kind, read_payload};

/// Octets arrive at a time: they are read, and what they say is received.
pub fn hear<K: Kind>(
    receiver: &mut Receiver<K>,
    time: Time,
    octets: &[u8],
) -> Result<Novelty<MessageNews<K::Message>>, Refusal>
    ensures value { result ≡ (hear K.Kind.model receiver.old time octets.now).0 }
    ensures after { receiver.new ≡ (hear K.Kind.model receiver.old time octets.now).1 }
{
    receiver.receive(time, read_payload::<K>(octets)?)
}
