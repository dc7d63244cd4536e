//! The checksum of a list of answers: a number of each, and these folded into one.
ghost use Rattle.std.specs.Prelude.{◌≡◌, ◌≤◌};
ghost use Rattle.pace.specs.Checksum.{add, of_digit, of_force, of_moved, of_stream, of_class, of_news, of_refusal, of_answer};
ghost use Rattle.kinds.specs.Cas.{octet};

use kinds::{CasBits, Digit};
use placing::{Advance, Class, MessageNews};
use refusal::Refusal;
use trunk::{Arrived, Stream, WhichKind};
use type3::Either;

/// The sum so far, and a further number.
pub fn add(sum: u64, number: u64) -> u64
    ensures { result ≡ add sum number }
{
    sum.wrapping_mul(31).wrapping_add(number)
}

/// The number of what is in force, and 0 for nothing.
pub fn of_force(force: Option<Either<Digit, CasBits>>) -> u64
    ensures { result ≡ of_force force }
{
    match force {
        Some(Either::First(digit)) => add(1, of_digit(&digit)),
        Some(Either::Second(bits)) => add(1, of_bits(bits)),
        None => 0,
    }
}

/// The number of an answer to an arrival.
pub fn of_answer(answer: Result<Arrived<Digit, CasBits>, Refusal>) -> u64
    ensures { result ≡ of_answer answer }
{
    match answer {
        Ok(Arrived::Audio(news)) => add(of_moved(10, news.advance), news.place as u64),
        Ok(Arrived::First(news)) => of_news(20, &news, of_digit(&news.message)),
        Ok(Arrived::Second(news)) => of_news(30, &news, of_bits(news.message)),
        Ok(Arrived::Repeat(stream)) => of_stream(stream) + 1,
        Ok(Arrived::Late(stream)) => of_stream(stream) + 2,
        Err(refusal) => of_refusal(refusal),
    }
}

fn of_stream(stream: Stream) -> u64
    ensures value { result ≡ of_stream stream }
    ensures small { result ≤ 30 }
{
    match stream {
        Stream::Audio => 10,
        Stream::Messages(WhichKind::First) => 20,
        Stream::Messages(WhichKind::Second) => 30,
    }
}

// News of a message with this number.
fn of_news<T: Copy>(stream: u64, news: &MessageNews<T>, message: u64) -> u64
    ensures { result ≡ of_news stream news.now message }
{
    let advance = of_moved(stream, news.advance);
    let redundancy = u64::from(news.redundancy.get());
    add(add(add(advance, of_class(news.class)), redundancy), message)
}

// Which stream moved how far.
fn of_moved(stream: u64, advance: Advance) -> u64
    ensures { result ≡ of_moved stream advance }
{
    add(add(stream, advance.elapsed), advance.position)
}

fn of_class(class: Class) -> u64
    ensures { result ≡ of_class class }
{
    match class {
        Class::Event => 0,
        Class::Confirmed => 1,
        Class::Recovered => 2,
    }
}

fn of_digit(digit: &Digit) -> u64
    ensures { result ≡ of_digit digit.now }
{
    let system: u8 = digit.system().into();
    u64::from(digit.level()) * 256 + u64::from(system) * 32 + u64::from(digit.code())
}

fn of_bits(bits: CasBits) -> u64
    ensures { result ≡ octet bits }
{
    u64::from(bits.octet())
}

fn of_refusal(refusal: Refusal) -> u64
    ensures { result ≡ of_refusal refusal }
{
    add(
        u64::from(refusal.number()),
        u64::from(refusal.cause().unwrap_or(0)),
    )
}
