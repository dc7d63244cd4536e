//! One case, by its words. The first says what is done.
use crate::answer::Answer;
use crate::reading::{export, read, read_wide};
use crate::writing::WriteRequest;
use std::alloc::{AllocError, Global};
use text::hex::{Letters, octets_of};

/// The answer to a case. Words that are no case, or have a number out of its range, are a bad line.
pub fn answer_to(alloc: Global, words: &[&str]) -> Result<Answer, AllocError> {
    let answer = match words {
        ["read", octets] => answer_octets(alloc, octets, read)?,
        ["readwide", octets] => answer_octets(alloc, octets, read_wide)?,
        ["export", octets] => answer_octets(alloc, octets, export)?,
        [kind, words @ ..] => WriteRequest::of(kind, words).map(|request| request.answer()),
        [] => None,
    };
    Ok(answer.unwrap_or(Answer::BadLine))
}

// The answer to octets, where the text is such.
fn answer_octets<F: FnOnce(&[u8]) -> Answer>(
    alloc: Global,
    text: &str,
    answer: F,
) -> Result<Option<Answer>, AllocError>
    requires { F.IsAlwaysCallable answer }
{
    let octets = octets_of(alloc, Letters::Upper, text)?;
    Ok(octets.map(|octets| answer(octets.as_slice())))
}
