//! Two ends of a trunk and a network between them: what is true of every list of calls on them.
#![tactic(auto)]

mod call;
mod ends;
mod runs;
mod side;

pub use call::{Answer, Call, Turn};
pub use ends::Ends;
pub use runs::{NoMemory, Run, simulate};
pub use side::Side;
