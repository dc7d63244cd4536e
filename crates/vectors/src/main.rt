//! Answers cases of type 3 payloads, one to a line of the input: the octets that are written, what they say when they are read,
//! or the refusal.
#![tactic(auto)]

use case::answer_to;
use text::lines::answer_words;

mod answer;
mod case;
mod reading;
mod writing;

fn main(rt: HostRuntime) -> anyhow::Result<()> {
    answer_words(&rt, |alloc, words| Ok(answer_to(alloc, words)?))
}
