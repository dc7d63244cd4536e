//! What an end answers to an arrival, and which of its kinds is meant.
ghost use Rattle.std.specs.Prelude.{◌≡◌};
ghost use Rattle.trunk.specs.Streams.{on_stream};

use placing::{Advance, MessageNews, Novelty};

/// One of the two kinds of message that an end has.
#[derive(Clone, Copy, Debug, PartialEq, Eq)]
pub enum WhichKind {
    First,
    Second,
}

/// News of the audio stream: the place of its entry in the profile, from 0, and how far it is after the news before.
#[derive(Clone, Copy, Debug, PartialEq, Eq)]
pub struct AudioNews {
    pub place: usize,
    pub advance: Advance,
}

/// The streams of an end, each way: one of audio, and one of each kind of message.
#[derive(Clone, Copy, Debug, PartialEq, Eq)]
pub enum Stream {
    Audio,
    Messages(WhichKind),
}

/// What an arrival is: news of audio or of a kind of message, which has its class; or, with the name of its stream, a repeat of the
/// latest news, or late, made for an earlier time than that.
#[derive(Clone, Copy, Debug, PartialEq, Eq)]
pub enum Arrived<X, Y> {
    Audio(AudioNews),
    First(MessageNews<X>),
    Second(MessageNews<Y>),
    Repeat(Stream),
    Late(Stream),
}

impl<X, Y> Arrived<X, Y> {
    /// A stream's answer, as the end's.
    pub(crate) fn on(stream: Stream, novelty: Novelty<Arrived<X, Y>>) -> Arrived<X, Y>
        ensures { result ≡ on_stream stream (λ news. news) novelty }
    {
        match novelty {
            Novelty::News(news) => news,
            Novelty::Repeat => Arrived::Repeat(stream),
            Novelty::Late => Arrived::Late(stream),
        }
    }
}
