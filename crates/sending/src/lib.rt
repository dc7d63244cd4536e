//! Sending, as ITU-T I.366.2 has it: the events of a message stream, each with three copies 5 ms apart and then refreshes, each
//! packet at its moment; and labelled audio. Times are milliseconds from 0.
#![tactic(auto)]

mod audio;
mod event;
mod sender;

pub use audio::AudioSender;
pub use event::{DuePacket, Event};
pub use sender::Sender;
