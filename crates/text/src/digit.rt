//! Digits as text, and those that programs make.
ghost use Rattle.std.specs.Prelude.{◌≡◌};
ghost use Rattle.text.specs.Tones.{key_digit, tone_off};

use kinds::{Digit, System, TONE_OFF};
use refusal::Refusal;
use std::fmt;

/// The level of the digits that programs make, in dBm0.
const LEVEL: i8 = -10;

/// The DTMF digit of a key, at the programs' level. Refused with 18 where the character names no key.
pub fn key_digit(key: char) -> Result<Digit, Refusal>
    ensures { result ≡ key_digit key }
{
    Digit::of_key(key, LEVEL)
}

/// The DTMF digit that ends a tone, at the programs' level. (It is never refused.)
pub fn tone_off() -> Result<Digit, Refusal>
    ensures { result ≡ tone_off }
{
    Digit::new(System::Dtmf.into(), TONE_OFF, LEVEL)
}

/// A digit that is shown by its level, 0 to 31, its digit type and its code.
#[derive(Clone, Copy)]
pub struct LevelTypeCode(pub Digit);

impl fmt::Display for LevelTypeCode {
    fn fmt<W: fmt::Write>(&self, f: &mut fmt::Formatter<W>) -> fmt::Result {
        let digit = self.0;
        let system: u8 = digit.system().into();
        write!(f, "{} {system} {}", digit.level(), digit.code())
    }
}

/// A digit that is shown by its digit type, its code and its level.
#[derive(Clone, Copy)]
pub struct TypeCodeLevel(pub Digit);

impl fmt::Display for TypeCodeLevel {
    fn fmt<W: fmt::Write>(&self, f: &mut fmt::Formatter<W>) -> fmt::Result {
        let digit = self.0;
        let system: u8 = digit.system().into();
        write!(f, "{system} {} {}", digit.code(), digit.level())
    }
}
