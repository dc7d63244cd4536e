//! Two kinds of message that no other crate knows, one at every limit and one of plain numbers, and tests of payloads that are
//! known octet by octet.
#![tactic(auto)]

pub mod plain;
#[cfg(test)]
mod tests;
pub mod wide;
