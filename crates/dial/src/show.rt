//! The lines of the call, and how often it came to what.
use crate::script::{DialTurn, time_of};
use crate::words::{ArrivalText, MessageText, PacketText, PayloadText};
use dialling::heard::Reply;
use dialling::tone::Tone;
use kinds::{CasBits, Digit};
use network::{Answer, Call, Side};
use placing::Class;
use std::fmt;
use trunk::Arrived;
use type3::{Either, TYPE_3_UUI};

// What came of a packet: sent and not lost, lost, or how it was answered where it arrived.
#[derive(Clone, Copy, PartialEq)]
enum Outcome {
    Sent,
    Lost,
    // news of a message
    Message(Class),
    // news of audio
    Audio,
    Repeat,
    Late,
    Refused,
}

const SENT: &[Outcome] = &[Outcome::Sent, Outcome::Lost];

const NEWS: &[Outcome] = &[
    Outcome::Message(Class::Event),
    Outcome::Message(Class::Confirmed),
    Outcome::Message(Class::Recovered),
    Outcome::Audio,
];

const NO_NEWS: &[Outcome] = &[Outcome::Repeat, Outcome::Late, Outcome::Refused];

/// How often it came to what.
#[derive(Drop)]
pub struct Counts {
    outcomes: Vec<Outcome>,
}

impl Counts {
    fn of(&self, outcome: Outcome) -> usize {
        self.of_any(&[outcome])
    }

    fn of_any(&self, outcomes: &[Outcome]) -> usize {
        self.outcomes
            .iter()
            .filter(|outcome| outcomes.contains(outcome))
            .count()
    }
}

impl fmt::Display for Counts {
    fn fmt<W: fmt::Write>(&self, f: &mut fmt::Formatter<W>) -> fmt::Result {
        let sent = self.of_any(SENT);
        let lost = self.of(Outcome::Lost);
        let news = self.of_any(NEWS);
        let arrived = news.saturating_add(self.of_any(NO_NEWS));
        write!(
            f,
            "sent {sent} packets, {lost} of them lost; {arrived} arrived: {news} news ("
        )?;
        let event = self.of(Outcome::Message(Class::Event));
        let confirmed = self.of(Outcome::Message(Class::Confirmed));
        let recovered = self.of(Outcome::Message(Class::Recovered));
        let audio = self.of(Outcome::Audio);
        write!(
            f,
            "{event} event, {confirmed} confirmed, {recovered} recovered, {audio} audio), "
        )?;
        let repeat = self.of(Outcome::Repeat);
        let late = self.of(Outcome::Late);
        let refused = self.of(Outcome::Refused);
        write!(f, "{repeat} repeat, {late} late, {refused} refused")
    }
}

// What an answer comes to, of a packet that is lost or not.
fn outcome_of(answer: &Reply, lost: bool) -> Option<Outcome> {
    match answer {
        Answer::Audio(Ok(_)) | Answer::Due(Ok(Some(_))) if lost => Some(Outcome::Lost),
        Answer::Audio(Ok(_)) | Answer::Due(Ok(Some(_))) => Some(Outcome::Sent),
        Answer::Arrive(Ok(arrived)) => Some(outcome_of_arrived(arrived)),
        Answer::Arrive(Err(_)) => Some(Outcome::Refused),
        _ => None,
    }
}

fn outcome_of_arrived(arrived: &Arrived<Digit, CasBits>) -> Outcome {
    match arrived {
        Arrived::Audio(_) => Outcome::Audio,
        Arrived::First(news) => Outcome::Message(news.class),
        Arrived::Second(news) => Outcome::Message(news.class),
        Arrived::Repeat(_) => Outcome::Repeat,
        Arrived::Late(_) => Outcome::Late,
    }
}

// A call and its answer, in a line.
#[derive(Drop)]
struct Line<'a> {
    turn: &'a DialTurn<'a>,
    answer: &'a Reply,
    // no copy of its packet arrives
    lost: bool,
}

impl<'a> fmt::Display for Line<'a> {
    fn fmt<W: fmt::Write>(&self, f: &mut fmt::Formatter<W>) -> fmt::Result {
        let side = match self.turn.side {
            Side::Near => "near",
            Side::Far => "far",
        };
        let time = time_of(self.turn);
        write!(f, "{side:4}{time:>9}  ")?;
        self.about(f)
    }
}

impl<'a> Line<'a> {
    // What the call is about.
    fn about<W: fmt::Write>(&self, f: &mut fmt::Formatter<W>) -> fmt::Result {
        let lost = if self.lost { ", lost" } else { "" };
        match (self.turn.call, self.answer) {
            (Call::Event { message, .. }, Answer::Event(Ok(()))) => {
                write!(f, "event  {}", MessageText(message))
            }
            (Call::Audio { place, payload, .. }, Answer::Audio(Ok(uui))) => {
                let packet = PacketText {
                    uui: *uui,
                    octets: payload,
                };
                write!(f, "sends  {packet}: audio of entry {place}{lost}")
            }
            (_, Answer::Due(Ok(Some(octets)))) => {
                let octets = octets.as_slice();
                let packet = PacketText {
                    uui: TYPE_3_UUI,
                    octets,
                };
                write!(f, "sends  {packet}: {}{lost}", PayloadText(octets))
            }
            (Call::Arrive { uui, octets, .. }, Answer::Arrive(answer)) => {
                let packet = PacketText { uui, octets };
                write!(f, "hears  {packet}: {}", ArrivalText(answer))
            }
            (
                _,
                Answer::Audio(Err(refusal))
                | Answer::Event(Err(refusal))
                | Answer::Due(Err(refusal)),
            ) => { write!(f, "asks   {refusal}") }
            _ => Ok(()),
        }
    }
}

// Whether a call is the arrival of a copy of what the call at a place made.
fn is_copy(turn: &DialTurn, place: usize) -> bool {
    match turn.call {
        Call::Arrive { copies, .. } => copies == Some(place),
        _ => false,
    }
}

/// Prints each call that came to something, in its line.
pub fn show_turns(
    rt: &HostRuntime,
    turns: &[DialTurn],
    answers: &[Reply],
) -> anyhow::Result<Counts> {
    let mut outcomes = Vec::new(rt.alloc());
    for (place, (turn, answer)) in turns.iter().zip(answers).enumerate() {
        if let Answer::Due(Ok(None)) = answer {
            continue;
        }
        let lost = !turns.iter().any(|turn| is_copy(turn, place));
        println!(rt; "{}", Line { turn, answer, lost })?;
        if let Some(outcome) = outcome_of(answer, lost) {
            outcomes.push(outcome)?;
        }
    }
    Ok(Counts { outcomes })
}

/// Prints the tones of a side, in a line each, with the pause before each.
pub fn show_tones(rt: &HostRuntime, word: &str, tones: &[Tone]) -> anyhow::Result<()> {
    for tone in tones {
        let key = MessageText(Either::First(tone.key));
        let held = tone.held;
        let pause = tone.pause;
        println!(rt; "{word:7}  {key} for {held:>5} ms, after a pause of {pause:>5} ms")?;
    }
    Ok(())
}
