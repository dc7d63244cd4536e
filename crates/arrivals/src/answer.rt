//! The answer to a call, in one line.
use kinds::{CasBits, Digit};
use placing::{Advance, MessageNews, Novelty};
use refusal::Refusal;
use std::fmt;
use text::bits::FourDigits;
use text::digit::LevelTypeCode;
use text::news::{ElapsedAndPosition, show_news};
use text::refusals::NumberAndCause;

/// The answer to a call. A refusal is one, and no error of the program.
#[derive(Drop)]
pub enum Answer {
    /// All streams are new.
    New,
    /// The stream of labels is new: after how much time they repeat, and what they count, in milliseconds.
    Begun { span: u32, unit: u16 },
    Label(Novelty<Advance>),
    Digit(Novelty<MessageNews<Digit>>),
    Cas(Novelty<MessageNews<CasBits>>),
    DigitInForce(Option<Digit>),
    CasInForce(Option<CasBits>),
    Refused(Refusal),
    BadLine,
}

impl fmt::Display for Answer {
    fn fmt<W: fmt::Write>(&self, f: &mut fmt::Formatter<W>) -> fmt::Result {
        match self {
            Answer::New => write!(f, "new"),
            Answer::Begun { span, unit } => write!(f, "span {span} unit {unit}"),
            Answer::Label(Novelty::News(advance)) => write!(
                f,
                "news {}",
                ElapsedAndPosition(*advance)
            ),
            Answer::Digit(Novelty::News(news)) => {
                show_news(news, f)?;
                write!(f, " digit {}", LevelTypeCode(news.message))
            }
            Answer::Cas(Novelty::News(news)) => {
                show_news(news, f)?;
                write!(f, " cas {}", FourDigits(news.message))
            }
            Answer::Label(Novelty::Repeat)
            | Answer::Digit(Novelty::Repeat)
            | Answer::Cas(Novelty::Repeat) => { write!(f, "repeat") }
            Answer::Label(Novelty::Late)
            | Answer::Digit(Novelty::Late)
            | Answer::Cas(Novelty::Late) => { write!(f, "late") }
            Answer::DigitInForce(Some(digit)) => {
                write!(f, "in force digit {}", LevelTypeCode(*digit))
            }
            Answer::CasInForce(Some(bits)) => write!(f, "in force cas {}", FourDigits(*bits)),
            Answer::DigitInForce(None) | Answer::CasInForce(None) => write!(f, "nothing in force"),
            Answer::Refused(refusal) => write!(f, "{}", NumberAndCause(*refusal)),
            Answer::BadLine => write!(f, "bad line"),
        }
    }
}
