//! What is proved of the call that the program `dial` plays: how keys are dialled, what the network does with packets, and which
//! tones are heard. Times are in milliseconds.
#![tactic(auto)]

pub mod deliveries;
pub mod heard;
pub mod octets;
pub mod tone;
