//! A list of calls on two ends that are just started.
ghost use Rattle.std.specs.Prelude.{◌≡◌, IfOk, IfErr, map};
ghost use Rattle.profile.specs.declared.load.LoadError.TheVariants.{Memory};
ghost use Rattle.network.specs.Runs.{begun, after, history};
ghost use Rattle.network.specs.Answers.{turn_of, said_at};
ghost use Rattle.network.specs.Law.{Law};
ghost use Rattle.network.specs.Once.{EachEventOnce};

use crate::call::{Answer, Turn};
use crate::ends::Ends;
use profile::LoadError;
use std::alloc::Global;
use trunk::SetUp;
use type3::{Either, Kind};

/// The two ends after a list of calls, and each call's answer.
#[derive(Drop)]
pub struct Run<P: Kind, Q: Kind> {
    pub ends: Ends<P, Q>,
    pub answers: Vec<Answer<P::Message, Q::Message>>,
}

/// There was no memory for the answers, and nothing was started.
#[derive(Drop)]
pub struct NoMemory {
    pub near: SetUp,
    pub far: SetUp,
}

// (By hand, as each conversion here is: a derived one has no contract.)
impl From<NoMemory> for LoadError {
    ghost from_gives = { λ _ error. error ≡ Memory };

    fn from(_: NoMemory) -> LoadError {
        LoadError::Memory
    }
}

/// Starts two ends, and makes the calls one after another.
pub fn simulate<P: Kind, Q: Kind>(
    alloc: Global,
    near: SetUp,
    far: SetUp,
    turns: &[Turn<&[u8], Either<P::Message, Q::Message>>],
) -> Result<Run<P, Q>, NoMemory>
    ensures answers { IfOk result (λ run. run.answers.items ≡ map said_at (history P.Kind.model Q.Kind.model (begun near far) (map turn_of turns.now))) }
    ensures ends { IfOk result (λ run. run.ends ≡ after P.Kind.model Q.Kind.model (begun near far) (map turn_of turns.now)) }
    ensures law { IfOk result (λ run. Law P.Kind.model Q.Kind.model near far (map turn_of turns.now) run.ends) }
    ensures once { IfOk result (λ run. EachEventOnce P.Kind.model Q.Kind.model near far (map turn_of turns.now)) }
    ensures unchanged { IfErr result (λ back. (back.near ≡ near) × (back.far ≡ far)) }
{
    let Ok(mut answers) = Vec::with_capacity(alloc, turns.len()) else {
        return Err(NoMemory { near, far });
    };
    let mut ends = Ends::<P, Q>::start(near, far);
    for turn in turns {
        answers.push(ends.take(turn)).unwrap();
    }
    Ok(Run { ends, answers })
}
