//! What a C program calls: the library's reading of type 3 payloads, under its C name. (A crate of its own, since the toolchain
//! builds a crate as a library or as a static library.)
#![tactic(auto)]

ghost use Rattle.std.specs.Prelude.{◌≡◌};
ghost use Rattle.type3.specs.Octets.{read_either};
ghost use Rattle.kinds.specs.Cas.{cas};
ghost use Rattle.kinds.specs.Digits.{digits};
ghost use Rattle.kinds.specs.Export.{number_for_c, Apart};

use kinds::read_as_number;

/// Reads one payload of digits or of CAS. Read, it is message type × 65,536 + octet 1 × 256 + octet 2 of the payload.
///
/// Refused, it is the refusal's number, 23 to 27 in this order, and of 27 that number + 256 × the cause. Those are all below
/// 131,072, and a payload that is read gives that or more.
#[unsafe(no_mangle)]
pub extern "C" fn gublaisma_read_type3(payload: &[u8]) -> u32
    ensures value { result ≡ number_for_c payload.now }
    ensures apart { Apart (read_either digits cas payload.now) result }
{
    read_as_number(payload)
}
