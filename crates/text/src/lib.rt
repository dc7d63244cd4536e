//! Text that programs share: octets, numbers, signalling bits, digits, entries, news and refusals as words, and lines that are
//! answered.
#![tactic(auto)]

pub mod bits;
pub mod digit;
pub mod entry;
pub mod hex;
pub mod lines;
pub mod news;
pub mod number;
pub mod refusals;
