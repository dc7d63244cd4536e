//! One end, and the entries that were collected for it.
ghost use Rattle.std.specs.Prelude.{◌≡◌, IfOk, IfErr, MatchResult};
ghost use Rattle.profile.specs.declared.load.LoadError.TheVariants.{Memory};
ghost use Rattle.session.specs.Session.{answer, load, new_session};

use crate::answer::Answer;
use crate::call::Call;
use crate::end::End;
use profile::{Entry, LoadError};
use std::alloc::{AllocError, Global};
use std::marker::Model;
use trunk::SetUp;

/// A session. In contracts it is its end, and the list of the collected entries.
#[derive(Drop)]
pub struct Session {
    end: End,
    collected: Vec<Entry>,
}

impl Model for Session {
    ghost use Rattle.session.specs.Session.{Session};

    ghost Value = { Session };

    ghost view = { λ s. record { end = s.end; collected = s.collected.items } };
}

impl Session {
    /// A new end in set-up, and no entry. The error is want of memory.
    pub fn new(alloc: Global) -> Result<Session, LoadError>
        ensures { MatchResult result (λ s. s ≡ new_session) (λ e. e ≡ Memory) }
    {
        Ok(Session {
            end: End::SetUp(SetUp::new(alloc)?),
            collected: Vec::new(alloc),
        })
    }

    /// A call: what is answered, and the session after it. The error is want of memory.
    pub fn answer(self, alloc: Global, call: Call) -> Result<(Answer, Session), LoadError>
        ensures value { IfOk result (λ r. r ≡ answer self call) }
        ensures memory { IfErr result (λ e. e ≡ Memory) }
    {
        let Session {
            mut end,
            mut collected,
        } = self;
        let (answer, end) = match call {
            Call::Entry(entry) => {
                collected.push(entry).map_err(AllocError::from)?;
                (Answer::Done, end)
            }
            Call::Load => {
                let answer = load(alloc, &mut end, &mut collected)?;
                (answer, end)
            }
            Call::Start => end.start(),
            Call::Stop => end.stop(),
            Call::Serve(call) => {
                let answer = end.serve(&call);
                (answer, end)
            }
        };
        Ok((answer, Session { end, collected }))
    }
}

// In set-up the collected entries are offered, and forgotten.
fn load(alloc: Global, end: &mut End, collected: &mut Vec<Entry>) -> Result<Answer, LoadError>
    ensures value { IfOk result (λ a. a ≡ (load end.old collected.old.items).0) }
    ensures end { IfOk result (λ a. end.new ≡ (load end.old collected.old.items).1.end) }
    ensures collected { IfOk result (λ a. collected.new.items ≡ (load end.old collected.old.items).1.collected) }
    ensures memory { IfErr result (λ e. e ≡ Memory) }
{
    let End::SetUp(set_up) = end else {
        return Ok(Answer::NotAllowed);
    };
    let loaded = set_up.load(alloc, collected.as_slice());
    collected.clear();
    match loaded {
        Ok(()) => Ok(Answer::Done),
        Err(LoadError::Refused(refusal)) => Ok(Answer::Refused(refusal)),
        Err(LoadError::Memory) => Err(LoadError::Memory),
    }
}
