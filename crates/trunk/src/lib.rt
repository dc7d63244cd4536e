//! One end of an I.366.2 trunk: audio and messages of two kinds, sent and received. It is set up, put into service, and stopped.
#![tactic(auto)]

mod answer;
mod arrive;
mod send;
mod service;
mod set_up;

pub use answer::{Arrived, AudioNews, Stream, WhichKind};
pub use service::InService;
pub use set_up::SetUp;
