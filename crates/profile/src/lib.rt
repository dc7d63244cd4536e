//! Profiles, as ITU-T I.366.2 has them for audio: which packets a trunk carries, known by UUI and length, and how they are
//! labelled. What is otherwise than in the standard stands in `docs/DECISIONS.md`.
#![tactic(auto)]

mod entry;
mod examples;
mod load;
mod profile;
mod questions;

pub use entry::Entry;
pub use examples::{Example, UnknownExample};
pub use load::LoadError;
pub use profile::Profile;
