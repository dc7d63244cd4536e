//! What a C program is told of a payload. The static library over this crate calls it, under the C name.
ghost use Rattle.std.specs.Prelude.{◌≡◌};
ghost use Rattle.type3.specs.Octets.{read_either};
ghost use Rattle.kinds.specs.Cas.{cas};
ghost use Rattle.kinds.specs.Digits.{digits};
ghost use Rattle.kinds.specs.Export.{type_of, number_told, number_for_c, Apart};

use crate::cas::{Cas, CasBits};
use crate::digit::Digit;
use crate::digits::Digits;
use refusal::{Refusal, Type3Fault};
use type3::{Either, Kind, Payload, read_either};

/// Reads one payload of digits or of CAS. Read, it is message type × 65,536 + octet 1 × 256 + octet 2 of the payload.
///
/// Refused, it is the refusal's number, 23 to 27 in this order, and of 27 that number + 256 × the cause. Those are all below
/// 131,072, and a payload that is read gives that or more.
#[tactic(auto, using(crate::proofs::Numbers::refused_told))]
pub fn read_as_number(payload: &[u8]) -> u32
    ensures value { result ≡ number_for_c payload.now }
    ensures apart { Apart (read_either digits cas payload.now) result }
{
    let [first, second, ..] = payload else {
        return number_of_refusal(Type3Fault::PayloadSize.into());
    };
    let head = u32::from(*first) * 256 + u32::from(*second);
    match read_either::<Digits, Cas>(payload) {
        Ok(read) => type_of(read) * 65536 + head,
        Err(refusal) => number_of_refusal(refusal),
    }
}

// The message type of a payload that was read.
fn type_of(read: Either<Payload<Digit>, Payload<CasBits>>) -> u32
    ensures { result ≡ type_of read }
{
    match read {
        Either::First(_) => u32::from(Digits::message_type()),
        Either::Second(_) => u32::from(Cas::message_type()),
    }
}

// A refusal's number, with 256 × the cause added where there is one.
fn number_of_refusal(refusal: Refusal) -> u32
    ensures { result ≡ number_told refusal }
{
    let number = u32::from(refusal.number());
    refusal
        .cause()
        .map_or(number, |cause| number + 256 * u32::from(cause))
}
