//! The calls on an end in service.
ghost use Rattle.std.specs.Prelude.{◌≡◌};
ghost use Rattle.session.specs.Serving.{label, message_of, serve};

use crate::answer::Answer;
use crate::call::{Message, ServiceCall};
use kinds::{Cas, CasBits, Digit, Digits};
use refusal::Refusal;
use trunk::InService;
use type3::Either;

/// The end of a session has digits as its first kind, and signalling bits as its second.
pub type Service = InService<Digits, Cas>;

/// Makes a call of service on an end: the answer, or the end's refusal.
pub fn serve(end: &mut Service, call: &ServiceCall) -> Result<Answer, Refusal>
    ensures value { result ≡ (serve end.old call.now).0 }
    ensures after { end.new ≡ (serve end.old call.now).1 }
{
    match call {
        ServiceCall::Audio {
            time,
            place,
            length,
        } => audio(end, *time, *place, *length),
        ServiceCall::Event { time, message } => {
            end.event(*time, message.make()?)?;
            Ok(Answer::Done)
        }
        ServiceCall::Due { which, time, room } => {
            let octets = end.due_octets(*which, *time, *room)?;
            Ok(octets.map_or(Answer::Nothing, Answer::Sent))
        }
        ServiceCall::Arrive { time, uui, octets } => {
            Ok(Answer::Arrived(end.arrive(*time, *uui, octets.as_slice())?))
        }
        ServiceCall::Force(which) => Ok(Answer::InForce(end.in_force(*which))),
    }
}

impl Message {
    // A digit is made of its parts, if it is one.
    fn make(&self) -> Result<Either<Digit, CasBits>, Refusal>
        ensures { result ≡ message_of self.now }
    {
        match self {
            Message::Digit { system, code, dbm0 } => Ok(Either::First(Digit::new(
                *system, *code, *dbm0,
            )?)),
            Message::Cas(bits) => Ok(Either::Second(*bits)),
        }
    }
}

// So many octets of audio. (Which octets does not matter: they are not read.)
fn audio(end: &mut Service, time: u64, place: usize, length: u16) -> Result<Answer, Refusal>
    ensures value { result ≡ (label end.old time place length).0 }
    ensures after { end.new ≡ (label end.old time place length).1 }
{
    let octets = [0; 65_535];
    Ok(Answer::Label(end.audio(time, place, &octets[..usize::from(length)])?))
}
