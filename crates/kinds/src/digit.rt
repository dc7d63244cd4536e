//! A dialled digit: its level, and a code of a digit type.
ghost use Rattle.std.specs.Prelude.{◌≡◌, true, nat_lt};
ghost use Rattle.kinds.specs.Codes.{is_code};
ghost use Rattle.kinds.specs.Systems.{number_of};

use crate::keys::key_code;
use crate::system::System;
use refusal::{KindFault, Refusal};

/// The code that ends a tone, of every digit type.
// (Codes are numbers, since each type has its own.)
pub const TONE_OFF: u8 = 31;

/// A dialled digit: a tone of a signalling system, at a level. A level n, 0 to 31, stands for -n dBm0. No digit exists whose
/// code its type lacks.
// (Ghost fields hold the proofs, and no model's invariant, since the laws of a kind speak of every value of its message type.
// The methods have `ghost use` lines of their own, since those of the file are imported where the type is declared, and the
// definitions of the methods speak of it.)
#[derive(Clone, Copy, Debug, PartialEq, Eq)]
pub struct Digit {
    level: u8,
    system: System,
    code: u8,
    ghost low: { nat_lt level 32 ≡ true },
    ghost known: { is_code (number_of system) code ≡ true },
}

impl Digit {
    ghost use Rattle.kinds.specs.Digits.{digit_in, level_of, make, make_key};

    /// The digit of a digit type, by its number, and a code, at a level in whole dBm0: 0 and above give the level 0, and -31 and
    /// below give 31.
    ///
    /// Refused, in this order: 17, the type is above 3; 18, the code is not of its type.
    pub fn new(system: u8, code: u8, dbm0: i8) -> Result<Digit, Refusal>
        ensures { result ≡ make system code dbm0 }
    {
        let system = System::try_from(system)?;
        Digit::of_parts(Digit::level_of(dbm0), system, code).ok_or(KindFault::DigitCode.into())
    }

    /// The DTMF digit of a key, at a level in whole dBm0.
    ///
    /// Refused with 18 where the character names no key: it is taken as a code that DTMF lacks.
    pub fn of_key(key: char, dbm0: i8) -> Result<Digit, Refusal>
        ensures { result ≡ make_key key dbm0 }
    {
        let code = key_code(key).ok_or(KindFault::DigitCode)?;
        Digit::new(System::Dtmf.into(), code, dbm0)
    }

    // The digit of these parts, if there is one.
    pub(crate) fn of_parts(level: u8, system: System, code: u8) -> Option<Digit>
        ensures { result ≡ digit_in level system code }
    {
        if level < 32 && system.has(code) {
            Some(Digit {
                level,
                system,
                code,
            })
        } else {
            None
        }
    }

    // The level of whole dBm0: 0 and above give 0, -31 and below give 31, and otherwise -n gives n.
    fn level_of(dbm0: i8) -> u8
        ensures { result ≡ level_of dbm0 }
    {
        dbm0.clamp(-31, 0).unsigned_abs()
    }

    /// Its level, 0 to 31: so many dB below 0 dBm0.
    pub fn level(self) -> u8
        ensures { result ≡ self.level }
    {
        self.level
    }

    /// Its digit type.
    pub fn system(self) -> System
        ensures { result ≡ self.system }
    {
        self.system
    }

    /// Its code, 0 to 15 or `TONE_OFF`.
    pub fn code(self) -> u8
        ensures { result ≡ self.code }
    {
        self.code
    }
}
