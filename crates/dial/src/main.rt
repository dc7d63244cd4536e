//! One call from its beginning to its end, over a network that loses, repeats, delays, reorders and spoils: what was sent, what
//! arrived, how each arrival was answered, and what the far end made of it.
#![tactic(auto)]

use anyhow::bail;
use carriage::{carry, merge};
use dialling::heard::tones_heard;
use dialling::tone::Tone;
use kinds::{Cas, Digits};
use network::{Run, Side, simulate};
use profile::LoadError;
use script::{DialTurn, Script};
use show::{show_tones, show_turns};
use std::alloc::Global;
use std::env;
use text::hex::Hex;
use timeline::show_timeline;
use trunk::{SetUp, WhichKind};
use words::{MessageText, PayloadText};

mod carriage;
mod script;
mod show;
mod timeline;
mod words;

// What is dialled where no argument says otherwise: two keys, a character that is no key, and a third key.
const NUMBER: &str = "5#x0";

// Octets that no honest end sends: a spoiled octet, and too few.
const HOSTILE: [&[u8]; 2] = [
    &[0x00, 0x00, 0x0a, 0x05, 0x0a, 0xea],
    &[0x00, 0x00, 0x0a, 0x05],
];

// What the arguments ask for.
#[derive(Clone, Copy)]
enum Request<'a> {
    /// the lines of the call to a number
    Lines(&'a str),
    /// its time line
    Timeline(&'a str),
    Help,
}

const HELP: &str =
    "dial [NUMBER]              plays a call to the number, or to 5#x0, and prints its lines
dial --timeline [NUMBER]   draws the keys of that call to scale, as keyed and as heard
dial --help                prints these lines
bin/dial --proved ..       proves the program first, and then does the same
The lines and the time line are explained in docs/dial.md.";

fn main(rt: HostRuntime) -> anyhow::Result<()> {
    let alloc = rt.alloc();
    let mut args = env::args(&rt)?;
    let _program = args.next();
    let args: Vec<String> = args.collect(alloc)?;
    let words: Vec<&str> = args.iter().map(|word| word.as_str()).collect(alloc)?;
    match request_of(words.as_slice()) {
        Some(Request::Lines(number)) => dial(&rt, number, false),
        Some(Request::Timeline(number)) => dial(&rt, number, true),
        Some(Request::Help) => Ok(println!(rt; "{HELP}")?),
        None => bail!("wrong arguments; dial --help says which there are"),
    }
}

// `None` where the arguments are wrong. No number begins with `-`.
fn request_of<'a>(words: &[&'a str]) -> Option<Request<'a>> {
    match words {
        [] => Some(Request::Lines(NUMBER)),
        ["--help"] => Some(Request::Help),
        ["--timeline"] => Some(Request::Timeline(NUMBER)),
        ["--timeline", number] if !number.starts_with('-') => Some(Request::Timeline(number)),
        [number] if !number.starts_with('-') => Some(Request::Lines(number)),
        _ => None,
    }
}

// Plays the call to a number, and shows its lines or its time line.
fn dial(rt: &HostRuntime, number: &str, draws: bool) -> anyhow::Result<()> {
    let alloc = rt.alloc();
    let script = Script::of(rt, number)?;
    // what the near end sends, and then the same with what arrives of it
    let calls = script.calls(alloc)?;
    let sent = play(alloc, calls.as_slice())?;
    let arrivals = carry(alloc, calls.as_slice(), sent.answers.as_slice())?;
    let turns = merge(alloc, calls.as_slice(), arrivals.as_slice())?;
    let run = play(alloc, turns.as_slice())?;
    let dialled = script.tones.as_slice();
    if draws {
        let heard = tones_heard(alloc, run.answers.as_slice())?;
        show_timeline(rt, dialled, heard.as_slice())?;
        show_whether_heard(rt, dialled, heard.as_slice())
    } else {
        show_call(rt, dialled, turns.as_slice(), &run)
    }
}

// A list of calls on two new ends.
fn play(alloc: Global, turns: &[DialTurn]) -> Result<Run<Digits, Cas>, LoadError> {
    let near = SetUp::new(alloc)?;
    let far = SetUp::new(alloc)?;
    Ok(simulate::<Digits, Cas>(alloc, near, far, turns)?)
}

// The call, in lines.
fn show_call(
    rt: &HostRuntime,
    dialled: &[Tone],
    turns: &[DialTurn],
    run: &Run<Digits, Cas>,
) -> anyhow::Result<()> {
    let answers = run.answers.as_slice();
    let counts = show_turns(rt, turns, answers)?;
    let heard = tones_heard(rt.alloc(), answers)?;
    show_tones(rt, "dialled", dialled)?;
    show_tones(rt, "heard", heard.as_slice())?;
    show_whether_heard(rt, dialled, heard.as_slice())?;
    match run.ends.end(Side::Far).in_force(WhichKind::Second) {
        Some(bits) => println!(rt; "in force at the far end: {}", MessageText(bits))?,
        None => println!(rt; "in force at the far end: nothing")?,
    }
    for octets in HOSTILE {
        println!(rt; "octets {}: {}", Hex(octets), PayloadText(octets))?;
    }
    println!(rt; "{counts}")?;
    Ok(())
}

fn show_whether_heard(rt: &HostRuntime, dialled: &[Tone], heard: &[Tone]) -> anyhow::Result<()> {
    let not = if heard == dialled { "" } else { "not " };
    println!(rt; "{not}heard as dialled")?;
    Ok(())
}
