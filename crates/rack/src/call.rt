//! Calls, by their lines. The first word says what is asked.
use session::call::{Call, Message, ServiceCall};
use std::alloc::{AllocError, Global};
use text::bits::bits_of_words;
use text::entry::entry_of;
use text::hex::{Letters, octets_of};
use text::number::{number, number_if_any, signed_number};
use trunk::WhichKind;

/// The call of a line. `None` where the octets are no call, or a number is out of its range.
pub fn call_of(alloc: Global, line: &[u8]) -> Result<Option<Call>, AllocError> {
    let Ok(line) = str::from_utf8(line) else {
        return Ok(None);
    };
    let words: Vec<&str> = line.split(' ').collect(alloc)?;
    match words.as_slice() {
        // `arrive TIME UUI HEX`
        ["arrive", time, uui, octets] => {
            let octets = octets_of(alloc, Letters::Lower, octets)?;
            Ok(octets.and_then(|octets| arrival_of(time, uui, octets)))
        }
        words => Ok(call_of_words(words)),
    }
}

fn arrival_of(time: &str, uui: &str, octets: Vec<u8>) -> Option<Call> {
    Some(Call::Serve(ServiceCall::Arrive {
        time: number::<u64>(time)?,
        uui: number::<u16>(uui)?,
        octets,
    }))
}

fn call_of_words(words: &[&str]) -> Option<Call> {
    match words {
        // `entry INDEX FORMAT FIRST LAST LENGTH PACKET_TIME INTERVAL`
        ["entry", index, format, words @ ..] => Some(Call::Entry(entry_of(
            number_if_any::<u8>(index)?,
            number::<u8>(format)?,
            words,
        )?)),
        ["load"] => Some(Call::Load),
        ["start"] => Some(Call::Start),
        ["stop"] => Some(Call::Stop),
        words => Some(Call::Serve(service_call_of(words)?)),
    }
}

fn service_call_of(words: &[&str]) -> Option<ServiceCall> {
    match words {
        // `audio TIME PLACE LENGTH`
        ["audio", time, place, length] => Some(ServiceCall::Audio {
            time: number::<u64>(time)?,
            place: number::<usize>(place)?,
            length: number::<u16>(length)?,
        }),
        ["event", kind, time, words @ ..] => Some(ServiceCall::Event {
            time: number::<u64>(time)?,
            message: message_of(kind, words)?,
        }),
        // `due digit TIME ROOM`, `due cas TIME ROOM`
        ["due", kind, time, room] => Some(ServiceCall::Due {
            which: which_of(kind)?,
            time: number::<u64>(time)?,
            room: number::<usize>(room)?,
        }),
        // `force digit`, `force cas`
        ["force", kind] => Some(ServiceCall::Force(which_of(kind)?)),
        _ => None,
    }
}

// `event digit TIME TYPE CODE LEVEL`, `event cas TIME A B C D`
fn message_of(kind: &str, words: &[&str]) -> Option<Message> {
    match (kind, words) {
        ("digit", [system, code, dbm0]) => Some(Message::Digit {
            system: number::<u8>(system)?,
            code: number::<u8>(code)?,
            dbm0: signed_number(dbm0)?,
        }),
        ("cas", words) => Some(Message::Cas(bits_of_words(words)?)),
        _ => None,
    }
}

// The end's first kind is digits, the second signalling bits.
fn which_of(kind: &str) -> Option<WhichKind> {
    match kind {
        "digit" => Some(WhichKind::First),
        "cas" => Some(WhichKind::Second),
        _ => None,
    }
}
