//! What octets say.
ghost use Rattle.std.specs.Prelude.{◌≡◌};
ghost use Rattle.vectors.specs.Answers.{read, read_wide, export};

use crate::answer::Answer;
use examples::wide::Wide;
use kinds::{Cas, Digits, read_as_number};
use type3::{Either, read_either, read_payload};

/// Read as a digit or as signalling bits.
pub fn read(octets: &[u8]) -> Answer
    ensures { result ≡ read octets.now }
{
    match read_either::<Digits, Cas>(octets) {
        Ok(Either::First(payload)) => Answer::Digit(payload),
        Ok(Either::Second(payload)) => Answer::Cas(payload),
        Err(refusal) => Answer::Refused(refusal),
    }
}

/// Read as a mark.
pub fn read_wide(octets: &[u8]) -> Answer
    ensures { result ≡ read_wide octets.now }
{
    match read_payload::<Wide>(octets) {
        Ok(payload) => Answer::Wide(payload),
        Err(refusal) => Answer::Refused(refusal),
    }
}

/// Read for a C program.
pub fn export(octets: &[u8]) -> Answer
    ensures { result ≡ export octets.now }
{
    Answer::Number(read_as_number(octets))
}
