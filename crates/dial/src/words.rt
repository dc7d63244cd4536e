//! Messages, packets and answers as text.
use crate::script::Message;
use kinds::{Cas, CasBits, Digit, Digits, key_of};
use placing::MessageNews;
use refusal::Refusal;
use std::fmt;
use text::bits::FourDigits;
use text::hex::Hex;
use trunk::{Arrived, Stream, WhichKind};
use type3::{Either, Redundancy, TYPE_3_UUI, read_either};

/// A message.
#[derive(Drop)]
pub struct MessageText(pub Message);

impl fmt::Display for MessageText {
    fn fmt<W: fmt::Write>(&self, f: &mut fmt::Formatter<W>) -> fmt::Result {
        match self.0 {
            Either::First(digit) => match key_of(digit.code()) {
                Some(key) => write!(f, "key {key}"),
                None => write!(f, "tone-off"),
            },
            Either::Second(bits) => {
                let hook = if bits.a { "off-hook" } else { "on-hook" };
                write!(f, "bits {} ({hook})", FourDigits(bits))
            }
        }
    }
}

/// How a message was sent.
#[derive(Drop)]
pub struct RedundancyText(pub Redundancy);

impl fmt::Display for RedundancyText {
    fn fmt<W: fmt::Write>(&self, f: &mut fmt::Formatter<W>) -> fmt::Result {
        match self.0.get() {
            3 => write!(f, "refresh"),
            copy => write!(f, "copy {copy}"),
        }
    }
}

/// What the octets of a packet carry.
#[derive(Drop)]
pub struct PayloadText<'a>(pub &'a [u8]);

impl<'a> fmt::Display for PayloadText<'a> {
    fn fmt<W: fmt::Write>(&self, f: &mut fmt::Formatter<W>) -> fmt::Result {
        let (message, redundancy) = match read_either::<Digits, Cas>(self.0) {
            Ok(Either::First(payload)) => (Either::First(payload.message), payload.redundancy),
            Ok(Either::Second(payload)) => (Either::Second(payload.message), payload.redundancy),
            Err(refusal) => return write!(f, "{refusal}"),
        };
        write!(
            f,
            "{}, {}",
            MessageText(message),
            RedundancyText(redundancy)
        )
    }
}

/// A packet: its octets are shown where it is of type 3, and otherwise their number.
#[derive(Drop)]
pub struct PacketText<'a> {
    pub uui: u16,
    pub octets: &'a [u8],
}

impl<'a> fmt::Display for PacketText<'a> {
    fn fmt<W: fmt::Write>(&self, f: &mut fmt::Formatter<W>) -> fmt::Result {
        let uui = self.uui;
        if uui == TYPE_3_UUI {
            write!(f, "UUI {uui}, {}", Hex(self.octets))
        } else {
            write!(f, "UUI {uui}, {} octets", self.octets.len())
        }
    }
}

fn stream_name(stream: Stream) -> &'static str {
    match stream {
        Stream::Audio => "audio",
        Stream::Messages(WhichKind::First) => "digits",
        Stream::Messages(WhichKind::Second) => "bits",
    }
}

/// The answer to an arrival.
#[derive(Drop)]
pub struct ArrivalText<'a>(pub &'a Result<Arrived<Digit, CasBits>, Refusal>);

impl<'a> fmt::Display for ArrivalText<'a> {
    fn fmt<W: fmt::Write>(&self, f: &mut fmt::Formatter<W>) -> fmt::Result {
        match self.0 {
            Ok(Arrived::Audio(news)) => {
                let place = news.place;
                let elapsed = news.advance.elapsed;
                write!(
                    f,
                    "news, audio of entry {place}, {elapsed} ms after the news before"
                )
            }
            Ok(Arrived::First(news)) => message_news(news, Either::First(news.message), f),
            Ok(Arrived::Second(news)) => message_news(news, Either::Second(news.message), f),
            Ok(Arrived::Repeat(stream)) => write!(f, "repeat, {}", stream_name(*stream)),
            Ok(Arrived::Late(stream)) => write!(f, "late, {}", stream_name(*stream)),
            Err(refusal) => write!(f, "{refusal}"),
        }
    }
}

fn message_news<T: Copy, W: fmt::Write>(
    news: &MessageNews<T>,
    message: Message,
    f: &mut fmt::Formatter<W>,
) -> fmt::Result {
    let class = news.class;
    let said = MessageText(message);
    let elapsed = news.advance.elapsed;
    let sent_as = RedundancyText(news.redundancy);
    write!(
        f,
        "news, {class}, {said}, {sent_as}, {elapsed} ms after the news before"
    )
}
