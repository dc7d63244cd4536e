//! Lists of calls on two ends that are run, with their answers: they show that what is promised of every list is not empty.
#![tactic(auto)]

mod lists;

pub use lists::{sample, sample_in_order};
