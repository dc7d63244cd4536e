//! A host's program in short: an end is set up, started, used, stopped and started again.
#![tactic(auto)]

use kinds::{Cas, CasBits, Digit, Digits};
use profile::Example;
use text::hex::Hex;
use trunk::{Arrived, InService, SetUp, WhichKind};
use type3::{Either, LONGEST, TYPE_3_UUI};

#[cfg(test)]
mod tests;

// In dBm0.
const LEVEL: i8 = -10;

const BITS: CasBits = CasBits {
    a: true,
    b: false,
    c: false,
    d: false,
};

fn main(rt: HostRuntime) -> anyhow::Result<()> {
    let alloc = rt.alloc();
    let mut early = SetUp::new(alloc)?;
    early.load(alloc, Example::B.entries())?;
    let mut busy = early.start::<Digits, Cas>();
    busy.event(1000, Either::First(Digit::of_key('5', LEVEL)?))?;
    for time in 1000..1020 {
        tell_due(&rt, &mut busy, time)?;
    }
    let label = busy.audio(1005, 0, &[0xd5; 40])?;
    println!(rt; "audio with UUI {label}")?;
    tell_arrival(&rt, &mut busy, 1003, &[0x00, 0x00, 0x0a, 0x05, 0x0a, 0xeb])?;
    tell_arrival(&rt, &mut busy, 1004, &[0x00, 0x00, 0x0a, 0x05, 0x0a, 0xea])?;
    let mut end = busy.stop();
    end.load(alloc, Example::C.entries())?;
    let mut end = end.start::<Digits, Cas>();
    end.event(0, Either::Second(BITS))?;
    tell_due(&rt, &mut end, 0)?;
    end.stop();
    Ok(())
}

// What is due of each kind at a time.
fn tell_due(rt: &HostRuntime, end: &mut InService<Digits, Cas>, time: u64) -> anyhow::Result<()> {
    for which in [WhichKind::First, WhichKind::Second] {
        let mut octets = [0; LONGEST];
        if let Some(count) = end.due(which, time, &mut octets)? {
            println!(rt; "due at {time}: {}", Hex(&octets[..count]))?;
        }
    }
    Ok(())
}

// A type 3 packet arrives.
fn tell_arrival(
    rt: &HostRuntime,
    end: &mut InService<Digits, Cas>,
    time: u64,
    octets: &[u8],
) -> anyhow::Result<()> {
    match end.arrive(time, TYPE_3_UUI, octets) {
        Ok(Arrived::First(news)) => println!(rt; "digit {}", news.message.code())?,
        Ok(Arrived::Second(news)) => println!(rt; "bits {}", news.message.octet())?,
        Ok(_) => println!(rt; "no news")?,
        Err(refusal) => println!(rt; "{refusal}")?,
    }
    Ok(())
}
