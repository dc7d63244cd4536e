//! A list of arrivals, and the profile that they arrive under.
use anyhow::Context;
use profile::Entry;
use std::alloc::Global;
use std::io::{BufRead, BufReader};
use text::entry::entry_of;
use text::hex::{Letters, octets_of};
use text::number::number;

/// A packet that arrives at a time.
#[derive(Drop)]
pub struct Packet {
    pub time: u64,
    pub uui: u16,
    pub octets: Vec<u8>,
}

/// The entries of the profile, and the packets in the order in which they arrive.
#[derive(Drop)]
pub struct List {
    pub entries: Vec<Entry>,
    pub packets: Vec<Packet>,
}

impl List {
    /// From the input, an entry or a packet to a line.
    pub fn read(rt: &HostRuntime) -> anyhow::Result<List> {
        let alloc = rt.alloc();
        let mut list = List {
            entries: Vec::new(alloc),
            packets: Vec::new(alloc),
        };
        for line in BufReader::new(alloc, rt.stdin())?.lines(alloc) {
            let line = line?;
            let words: Vec<&str> = line.as_str().split(' ').collect(alloc)?;
            list.take(alloc, words.as_slice())?;
        }
        Ok(list)
    }

    // `entry FIRST LAST LENGTH PACKET_TIME INTERVAL`, or `TIME UUI OCTETS` with two hexadecimal digits for each octet and `-` for
    // none.
    fn take(&mut self, alloc: Global, words: &[&str]) -> anyhow::Result<()> {
        match words {
            ["entry", words @ ..] => {
                let entry = entry_of(None, 0, words).context("an entry has five numbers")?;
                self.entries.push(entry)?;
            }
            [time, uui, octets] => self.packets.push(Packet {
                time: number::<u64>(time).context("the time is no number")?,
                uui: number::<u16>(uui).context("the UUI is no number")?,
                octets: octets_of(alloc, Letters::Upper, octets)?.context("these are no octets")?,
            })?,
            _ => anyhow::bail!("a line has three words, or six of an entry"),
        }
        Ok(())
    }
}
