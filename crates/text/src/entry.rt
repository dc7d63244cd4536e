//! Entries of a profile by their words.
use crate::number::number;
use profile::Entry;

/// An entry by the five words `FIRST LAST LENGTH PACKET_TIME INTERVAL`, plain numbers. Its index and its format, which no rule
/// asks for, are given apart.
pub fn entry_of(index: Option<u8>, format: u8, words: &[&str]) -> Option<Entry> {
    let [first, last, length, packet_time, interval] = words else {
        return None;
    };
    Some(Entry {
        index,
        format,
        first: number::<u16>(first)?,
        last: number::<u16>(last)?,
        length: number::<u16>(length)?,
        packet_time: number::<u32>(packet_time)?,
        interval: number::<u16>(interval)?,
    })
}
