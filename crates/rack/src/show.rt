//! Answers, in one line each.
use kinds::{CasBits, Digit};
use session::answer::Answer;
use std::fmt;
use text::bits::FourWords;
use text::digit::TypeCodeLevel;
use text::hex::LowerHex;
use text::news::{ElapsedAndPosition, show_news};
use text::refusals::NumberAndLayer;
use trunk::{Arrived, Stream, WhichKind};
use type3::Either;

/// What is written for a line of the input.
#[derive(Drop)]
pub enum Line {
    /// It is a call, with this answer.
    Answer(Answer),
    NoCall,
}

impl fmt::Display for Line {
    fn fmt<W: fmt::Write>(&self, f: &mut fmt::Formatter<W>) -> fmt::Result {
        match self {
            Line::Answer(answer) => show_answer(answer, f),
            Line::NoCall => write!(f, "error"),
        }
    }
}

fn show_answer<W: fmt::Write>(answer: &Answer, f: &mut fmt::Formatter<W>) -> fmt::Result {
    match answer {
        Answer::Done => write!(f, "ok"),
        Answer::Label(uui) => write!(f, "label {uui}"),
        Answer::Nothing => write!(f, "nothing"),
        Answer::Sent(octets) => write!(f, "sent {}", LowerHex(octets.as_slice())),
        Answer::Arrived(arrived) => show_arrived(arrived, f),
        Answer::InForce(message) => show_in_force(message, f),
        Answer::Refused(refusal) => write!(f, "{}", NumberAndLayer(*refusal)),
        Answer::NotAllowed => write!(f, "error"),
    }
}

fn show_arrived<W: fmt::Write>(
    arrived: &Arrived<Digit, CasBits>,
    f: &mut fmt::Formatter<W>,
) -> fmt::Result {
    match arrived {
        Arrived::Audio(news) => {
            write!(
                f,
                "audio {} {}",
                news.place,
                ElapsedAndPosition(news.advance)
            )
        }
        Arrived::First(news) => {
            write!(f, "digit ")?;
            show_news(news, f)?;
            write!(f, " {}", TypeCodeLevel(news.message))
        }
        Arrived::Second(news) => {
            write!(f, "cas ")?;
            show_news(news, f)?;
            write!(f, " {}", FourWords(news.message))
        }
        Arrived::Repeat(stream) => write!(f, "repeat {}", stream_name(*stream)),
        Arrived::Late(stream) => write!(f, "late {}", stream_name(*stream)),
    }
}

fn stream_name(stream: Stream) -> &'static str {
    match stream {
        Stream::Audio => "audio",
        Stream::Messages(WhichKind::First) => "digit",
        Stream::Messages(WhichKind::Second) => "cas",
    }
}

fn show_in_force<W: fmt::Write>(
    message: &Option<Either<Digit, CasBits>>,
    f: &mut fmt::Formatter<W>,
) -> fmt::Result {
    match message {
        Some(Either::First(digit)) => write!(f, "digit {}", TypeCodeLevel(*digit)),
        Some(Either::Second(bits)) => write!(f, "cas {}", FourWords(*bits)),
        None => write!(f, "none"),
    }
}
