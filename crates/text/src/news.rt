//! News in a line of answers.
use placing::{Advance, MessageNews};
use std::fmt;

/// How far news moves its stream: the time since the news before, and since the first news, in milliseconds.
#[derive(Clone, Copy)]
pub struct ElapsedAndPosition(pub Advance);

impl fmt::Display for ElapsedAndPosition {
    fn fmt<W: fmt::Write>(&self, f: &mut fmt::Formatter<W>) -> fmt::Result {
        write!(f, "{} {}", self.0.elapsed, self.0.position)
    }
}

/// Writes all of the news of a message but the message: its class, its redundancy, and how far it moves its stream.
pub fn show_news<T: Copy, W: fmt::Write>(
    news: &MessageNews<T>,
    f: &mut fmt::Formatter<W>,
) -> fmt::Result {
    let redundancy = news.redundancy.get();
    write!(
        f,
        "{} {redundancy} {}",
        news.class,
        ElapsedAndPosition(news.advance)
    )
}
