//! Asks the receiving streams of one trunk, one call to a line of the input: what an arrival is on its stream, which message is
//! in force, or the refusal.
#![tactic(auto)]

use answer::Answer;
use call::Call;
use streams::Streams;
use text::lines::answer_words;

mod answer;
mod call;
mod messages;
mod streams;

fn main(rt: HostRuntime) -> anyhow::Result<()> {
    let mut streams = Streams::new();
    answer_words(&rt, |alloc, words| match Call::of(alloc, words)? {
        Some(call) => Ok(streams.answer(alloc, &call)?),
        None => Ok(Answer::BadLine),
    })
}
