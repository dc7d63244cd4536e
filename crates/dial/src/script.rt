//! What the caller does, and the calls on the near end that come of it. Times are in milliseconds of its clock.
use dialling::tone::{Tone, holding_time, pause_before};
use kinds::{CasBits, Digit};
use network::{Call, Side, Turn};
use std::alloc::{AllocError, Global};
use text::digit::{key_digit, tone_off};
use trunk::WhichKind;
use type3::{Either, LONGEST};

/// A message of one of the two kinds.
pub type Message = Either<Digit, CasBits>;

/// A call on one of the ends, with octets that are lent.
pub type DialTurn<'a> = Turn<&'a [u8], Message>;

// An event that the caller brings about.
#[derive(Clone, Copy)]
struct Step {
    time: u64,
    message: Message,
}

/// What happens in the call, by the near end's clock in milliseconds.
#[derive(Drop)]
pub struct Script {
    /// Those that are dialled.
    pub tones: Vec<Tone>,
    steps: Vec<Step>,
    // the start of each talk spurt
    spurts: [u64; 2],
    end: u64,
}

const OFF_HOOK: Message = Either::Second(CasBits {
    a: true,
    b: false,
    c: false,
    d: false,
});

const ON_HOOK: Message = Either::Second(CasBits {
    a: false,
    b: false,
    c: false,
    d: false,
});

const MOST_KEYS: usize = 64;

const OFF_HOOK_TIME: u64 = 1000;

const DIALLING_TIME: u64 = 8000;

// From the last pause to talk, from one spurt to the next, from talk to on-hook, and from that to the end.
const BEFORE_TALK: u64 = 500;

const SILENCE: u64 = 1000;

const BEFORE_ON_HOOK: u64 = 20_000;

const AFTER_ON_HOOK: u64 = 20;

// The entry of audio, its payload, how long that lasts, and how long a spurt does.
const ENTRY: usize = 4;

const SPEECH: &[u8] = &[0; 10];

const PACKET_TIME: usize = 5;

const SPURT: u64 = 60;

impl Script {
    /// The call to a number.
    pub fn of(rt: &HostRuntime, number: &str) -> anyhow::Result<Script> {
        let tones = tones_of(rt, number)?;
        let off = Either::First(tone_off()?);
        let mut steps = Vec::new(rt.alloc());
        steps.push(Step {
            time: OFF_HOOK_TIME,
            message: OFF_HOOK,
        })?;
        let mut time = DIALLING_TIME;
        for tone in &tones {
            time = time.saturating_add(tone.pause);
            steps.push(Step {
                time,
                message: Either::First(tone.key),
            })?;
            time = time.saturating_add(tone.held);
            steps.push(Step { time, message: off })?;
        }
        let first = time
            .saturating_add(pause_before(tones.len()))
            .saturating_add(BEFORE_TALK);
        let second = first.saturating_add(SPURT + SILENCE);
        let on_hook = second.saturating_add(SPURT + BEFORE_ON_HOOK);
        steps.push(Step {
            time: on_hook,
            message: ON_HOOK,
        })?;
        Ok(Script {
            tones,
            steps,
            spurts: [first, second],
            end: on_hook.saturating_add(AFTER_ON_HOOK),
        })
    }

    /// The calls of the near end: at each fifth millisecond its events, audio, and what is due.
    pub fn calls(&self, alloc: Global) -> Result<Vec<DialTurn<'static>>, AllocError> {
        let mut calls = Vec::new(alloc);
        for time in (0..=self.end).step_by(PACKET_TIME) {
            for step in self.steps.iter().filter(|step| step.time == time) {
                let message = step.message;
                calls.push(near(Call::Event { time, message }))?;
            }
            if self.talks_at(time) {
                calls.push(near(Call::Audio {
                    time,
                    place: ENTRY,
                    payload: SPEECH,
                }))?;
            }
            for which in [WhichKind::First, WhichKind::Second] {
                calls.push(near(Call::Due {
                    which,
                    time,
                    room: LONGEST,
                }))?;
            }
        }
        Ok(calls)
    }

    // Whether audio is sent at a time.
    fn talks_at(&self, time: u64) -> bool {
        self.spurts.iter().any(|start| *start <= time && time < start.saturating_add(SPURT))
    }
}

/// The time of a call, on its end's clock.
pub fn time_of(turn: &DialTurn) -> u64 {
    match turn.call {
        Call::Audio { time, .. }
        | Call::Event { time, .. }
        | Call::Due { time, .. }
        | Call::Arrive { time, .. } => time,
    }
}

fn near(call: Call<&'static [u8], Message>) -> DialTurn<'static> {
    Turn {
        side: Side::Near,
        call,
    }
}

// The tones of a number. A character that is no key is told, and left out.
fn tones_of(rt: &HostRuntime, number: &str) -> anyhow::Result<Vec<Tone>> {
    let mut tones = Vec::new(rt.alloc());
    for character in number.chars() {
        let place = tones.len();
        match key_digit(character) {
            Err(refusal) => println!(rt; "key {character}: {refusal}")?,
            Ok(_) if place == MOST_KEYS => {
                println!(rt; "only the first {MOST_KEYS} keys are dialled")?;
                break;
            }
            Ok(key) => tones.push(Tone {
                key,
                pause: pause_before(place),
                held: holding_time(place),
            })?,
        }
    }
    Ok(tones)
}
