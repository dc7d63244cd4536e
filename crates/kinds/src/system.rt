//! The digit types (I.366.2): the signalling system whose tone a digit is.
ghost use Rattle.std.specs.Prelude.{◌≡◌};
ghost use Rattle.std.specs.Option.{ok_or};
ghost use Rattle.refusal.specs.declared.KindFault.TheVariants.{DigitType};
ghost use Rattle.kinds.specs.Codes.{is_code};
ghost use Rattle.kinds.specs.Systems.{number_of, system_of};

use crate::digit::TONE_OFF;
use refusal::KindFault;

/// A digit type.
#[derive(Clone, Copy, Debug, PartialEq, Eq)]
pub enum System {
    /// type 0: the keys of a telephone
    Dtmf,
    /// type 1
    MfR1,
    /// type 2
    MfR2Forward,
    /// type 3
    MfR2Backward,
}

impl System {
    // Whether a digit of this type may have the code.
    pub(crate) fn has(self, code: u8) -> bool
        ensures { result ≡ is_code (number_of self) code }
    {
        match self {
            System::Dtmf if matches!(code, 0..=15) => true,
            System::MfR1 if matches!(code, 0..=14) => true,
            System::MfR2Forward | System::MfR2Backward if matches!(code, 1..=15) => true,
            _ => code == TONE_OFF,
        }
    }
}

impl From<System> for u8 {
    ghost from_gives = { λ system number. number ≡ number_of system };

    fn from(system: System) -> u8 {
        match system {
            System::Dtmf => 0,
            System::MfR1 => 1,
            System::MfR2Forward => 2,
            System::MfR2Backward => 3,
        }
    }
}

impl TryFrom<u8> for System {
    type Error = KindFault;

    ghost try_from_gives = { λ number made. made ≡ ok_or (system_of number) DigitType };

    fn try_from(number: u8) -> Result<System, KindFault> {
        match number {
            0 => Ok(System::Dtmf),
            1 => Ok(System::MfR1),
            2 => Ok(System::MfR2Forward),
            3 => Ok(System::MfR2Backward),
            _ => Err(KindFault::DigitType),
        }
    }
}
