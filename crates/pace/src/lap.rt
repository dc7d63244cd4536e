//! A lap: a fresh end, and every packet of a list arrives.
use crate::checksum::{add, of_answer, of_force};
use crate::list::List;
use kinds::{Cas, Digits};
use std::alloc::Global;
use trunk::{SetUp, WhichKind};

/// The checksum of the answers, and of what is in force at the end.
pub fn lap(alloc: Global, list: &List) -> anyhow::Result<u64> {
    let mut set_up = SetUp::new(alloc)?;
    set_up.load(alloc, list.entries.as_slice())?;
    let mut end = set_up.start::<Digits, Cas>();
    let mut sum = 0;
    for packet in &list.packets {
        let answer = end.arrive(packet.time, packet.uui, packet.octets.as_slice());
        sum = add(sum, of_answer(answer));
    }
    let sum = add(sum, of_force(end.in_force(WhichKind::First)));
    Ok(add(sum, of_force(end.in_force(WhichKind::Second))))
}
