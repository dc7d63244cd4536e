//! Refusals in a line of answers.
ghost use Rattle.std.specs.Prelude.{◌≡◌};
ghost use Rattle.text.specs.Loaded.{apart_from_memory};

use profile::LoadError;
use refusal::{Layer, Refusal};
use std::fmt;

/// What loading answers where no memory was wanting: what was loaded, or why it is refused. The error is want of memory.
pub fn loaded_or_refused<T>(answer: Result<T, LoadError>) -> Result<Result<T, Refusal>, LoadError>
    ensures { result ≡ apart_from_memory answer }
{
    match answer {
        Ok(loaded) => Ok(Ok(loaded)),
        Err(LoadError::Refused(refusal)) => Ok(Err(refusal)),
        Err(LoadError::Memory) => Err(LoadError::Memory),
    }
}

/// A refusal by its number, and its cause if it has one.
#[derive(Clone, Copy)]
pub struct NumberAndCause(pub Refusal);

impl fmt::Display for NumberAndCause {
    fn fmt<W: fmt::Write>(&self, f: &mut fmt::Formatter<W>) -> fmt::Result {
        write!(f, "refused {}", self.0.number())?;
        show_cause(self.0, f)
    }
}

/// A refusal by its number and its layer, and by the entry's place or the kind's cause if it has one.
#[derive(Clone, Copy)]
pub struct NumberAndLayer(pub Refusal);

impl fmt::Display for NumberAndLayer {
    fn fmt<W: fmt::Write>(&self, f: &mut fmt::Formatter<W>) -> fmt::Result {
        let number = self.0.number();
        let layer = layer_word(self.0.layer());
        write!(f, "refused {number} {layer}")?;
        if let Some(place) = self.0.place() {
            write!(f, " place {place}")?;
        }
        show_cause(self.0, f)
    }
}

fn show_cause<W: fmt::Write>(refusal: Refusal, f: &mut fmt::Formatter<W>) -> fmt::Result {
    match refusal.cause() {
        Some(cause) => write!(f, " cause {cause}"),
        None => Ok(()),
    }
}

fn layer_word(layer: Layer) -> &'static str {
    match layer {
        Layer::Profile => "profile",
        Layer::Sending => "sending",
        Layer::Arrival => "arrival",
        Layer::Type3 => "type3",
        Layer::Kind => "kind",
        Layer::Placing => "placing",
    }
}
