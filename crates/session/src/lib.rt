//! A session with one end: what each of its calls is answered, in set-up and in service, and how the session stands after it.
//! The program `rack` reads these calls from lines and prints the answers.
#![tactic(auto)]

pub mod answer;
pub mod call;
pub mod end;
pub mod service;
pub mod session;
