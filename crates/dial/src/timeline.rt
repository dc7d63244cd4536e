//! The keys of both ends on a time line, drawn to scale: those that were keyed, and beside them those that were heard.
use dialling::tone::Tone;
use kinds::key_of;
use std::fmt;

// How many milliseconds a character stands for, and how many a line does.
const STEP: u64 = 10;

const RANGE: u64 = 400;

// What one end's line has of the tones, from a time since its first key began.
#[derive(Drop)]
struct Strip<'a> {
    tones: &'a [Tone],
    from: u64,
}

impl<'a> fmt::Display for Strip<'a> {
    fn fmt<W: fmt::Write>(&self, f: &mut fmt::Formatter<W>) -> fmt::Result {
        let mut time = self.from;
        for _ in 0..RANGE / STEP {
            write!(f, "{}", mark_at(self.tones, time))?;
            time = time.saturating_add(STEP);
        }
        Ok(())
    }
}

// The key whose tone is on at a time, or a point in a pause, or a blank after the last tone.
fn mark_at(tones: &[Tone], time: u64) -> char {
    let mut ended = 0u64;
    for tone in tones {
        let began = ended.saturating_add(tone.pause);
        ended = began.saturating_add(tone.held);
        if time < began {
            return '.';
        }
        if time < ended {
            return key_of(tone.key.code()).unwrap_or('?');
        }
    }
    ' '
}

// How long the tones and the pauses before them last together.
fn length_of(tones: &[Tone]) -> u64 {
    let mut length = 0u64;
    for tone in tones {
        length = length.saturating_add(tone.pause).saturating_add(tone.held);
    }
    length
}

/// Prints the time line, a range of time in a line.
pub fn show_timeline(rt: &HostRuntime, keyed: &[Tone], heard: &[Tone]) -> anyhow::Result<()> {
    println!(rt; "a character is {STEP} ms: a key while its tone is on, or a point in a pause")?;
    println!(rt;
        "       ms  {:40}   heard at the far end",
        "keyed at the near end"
    )?;
    let length = length_of(keyed).max(length_of(heard));
    let mut from = 0u64;
    for _ in 0..length.div_ceil(RANGE) {
        let near = Strip { tones: keyed, from };
        let far = Strip { tones: heard, from };
        println!(rt; "{from:>9} |{near}| |{far}|")?;
        from = from.saturating_add(RANGE);
    }
    Ok(())
}
