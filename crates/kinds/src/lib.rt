//! The kinds of message of the product, dialled digits and channel-associated signalling as ITU-T I.366.2 has them, and
//! reading them from C.
#![tactic(auto)]

mod cas;
mod digit;
mod digits;
mod export;
mod keys;
mod system;

pub use cas::{Cas, CasBits};
pub use digit::{Digit, TONE_OFF};
pub use digits::{Digits, NoDigit};
pub use export::read_as_number;
pub use keys::{key_code, key_of};
pub use system::System;
