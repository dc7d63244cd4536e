//! Asks the sending streams of one trunk, one call to a line of the input: whether an event is accepted, which octets are due,
//! which label audio has, or the refusal.
#![tactic(auto)]

use answer::Answer;
use call::Call;
use streams::Streams;
use text::lines::answer_words;

mod answer;
mod audio;
mod call;
mod messages;
mod room;
mod streams;

fn main(rt: HostRuntime) -> anyhow::Result<()> {
    let mut streams = Streams::new();
    answer_words(&rt, |alloc, words| match Call::of(words) {
        Some(call) => Ok(streams.answer(alloc, &call)?),
        None => Ok(Answer::BadLine),
    })
}
