//! The end of a session, in set-up or in service.
ghost use Rattle.std.specs.Prelude.{◌≡◌};
ghost use Rattle.session.specs.Session.{start, stop, serve_at};

use crate::answer::Answer;
use crate::call::ServiceCall;
use crate::service::{Service, serve};
use kinds::{Cas, Digits};
use trunk::SetUp;

/// An end in one of its two states. A call that the state does not allow is answered so, and changes nothing.
#[derive(Drop)]
pub enum End {
    SetUp(SetUp),
    InService(Service),
}

impl End {
    /// Starts an end in set-up.
    pub fn start(self) -> (Answer, End)
        ensures { result ≡ start self }
    {
        match self {
            End::SetUp(set_up) => (Answer::Done, End::InService(set_up.start::<Digits, Cas>())),
            End::InService(service) => (Answer::NotAllowed, End::InService(service)),
        }
    }

    /// Stops an end in service.
    pub fn stop(self) -> (Answer, End)
        ensures { result ≡ stop self }
    {
        match self {
            End::SetUp(set_up) => (Answer::NotAllowed, End::SetUp(set_up)),
            End::InService(service) => (Answer::Done, End::SetUp(service.stop())),
        }
    }

    /// A call of service.
    pub fn serve(&mut self, call: &ServiceCall) -> Answer
        ensures value { result ≡ (serve_at self.old call.now).0 }
        ensures after { self.new ≡ (serve_at self.old call.now).1 }
    {
        match self {
            End::SetUp(_) => Answer::NotAllowed,
            End::InService(end) => serve(end, call).unwrap_or_else(Answer::Refused),
        }
    }
}
