//! The receiving half of a stream: where in time an arrival stands, by its label and the time since the latest news, and what
//! it tells. The labels are those of ITU-T I.366.2: stamps of messages, and UUIs of audio. Times are milliseconds.
#![tactic(auto)]

mod receiver;
mod span;
mod stream;

pub use receiver::{Class, MessageNews, Receiver};
pub use span::{Labelling, Span};
pub use stream::{Advance, LatestNews, Novelty, Timeline};
