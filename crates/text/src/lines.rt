//! Programs that answer each line of their input by a line of their output.
use std::alloc::Global;
use std::fmt;
use std::io::{BufRead, BufReader};

/// Answers each line of text, as words with one blank between two.
pub fn answer_words<A: fmt::Display + Drop, F: FnMut(Global, &[&str]) -> anyhow::Result<A>>(
    rt: &HostRuntime,
    mut answer: F,
) -> anyhow::Result<()>
    requires { F.IsAlwaysCallable answer }
{
    let alloc = rt.alloc();
    for line in BufReader::new(alloc, rt.stdin())?.lines(alloc) {
        let line = line?;
        let words: Vec<&str> = line.as_str().split(' ').collect(alloc)?;
        let answer = answer(alloc, words.as_slice())?;
        println!(rt; "{answer}")?;
    }
    Ok(())
}

/// The same where a line is octets, which need be no text, and all that stands before the line break is of the line. What the
/// program keeps goes from line to line.
pub fn answer_octets<
    S: Drop,
    A: fmt::Display + Drop,
    F: FnMut(Global, S, &[u8]) -> anyhow::Result<(A, S)>,
>(rt: &HostRuntime, mut state: S, mut answer: F) -> anyhow::Result<()>
    requires { F.IsAlwaysCallable answer }
{
    let alloc = rt.alloc();
    for line in BufReader::new(alloc, rt.stdin())?.split(alloc, b'\n') {
        let line = line?;
        let (answer, after) = answer(alloc, state, line.as_slice())?;
        state = after;
        println!(rt; "{answer}")?;
    }
    Ok(())
}
