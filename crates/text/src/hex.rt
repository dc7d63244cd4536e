//! Octets in hexadecimal.
ghost use Rattle.std.specs.Prelude.{◌≡◌, ◌<◌, IfSome};
ghost use Rattle.text.specs.Hex.{hex_value, octet_of};

use std::alloc::{AllocError, Global};
use std::fmt;

/// Which letters are the digits from ten on: `A` to `F`, or `a` to `f`.
#[derive(Clone, Copy)]
pub enum Letters {
    Upper,
    Lower,
}

/// The value of a digit.
fn value_of(letters: Letters, digit: u8) -> Option<u8>
    ensures value { result ≡ hex_value letters digit }
    ensures below { IfSome result (λ n. n < 16) }
{
    match (letters, digit) {
        (_, b'0'..=b'9') => Some(digit - b'0'),
        (Letters::Upper, b'A'..=b'F') => Some(digit - b'A' + 10),
        (Letters::Lower, b'a'..=b'f') => Some(digit - b'a' + 10),
        _ => None,
    }
}

/// The octet of two digits.
fn octet_of(letters: Letters, pair: &[u8]) -> Option<u8>
    ensures { result ≡ octet_of letters pair.now }
{
    let [high, low] = pair else {
        return None;
    };
    let high = value_of(letters, *high)?;
    let low = value_of(letters, *low)?;
    Some(high * 16 + low)
}

/// The octets of a text of two digits for each, or of `-` for none. (No `FromStr`: it takes an allocator.)
pub fn octets_of(
    alloc: Global,
    letters: Letters,
    text: &str,
) -> Result<Option<Vec<u8>>, AllocError> {
    match text {
        "" => Ok(None),
        "-" => Ok(Some(Vec::new(alloc))),
        _ => {
            let pairs = text.as_bytes().chunks(2);
            pairs.map(|pair| octet_of(letters, pair)).collect(alloc)
        }
    }
}

/// Octets that are shown by two digits for each, with blanks between them.
#[derive(Drop)]
pub struct Hex<'a>(pub &'a [u8]);

impl<'a> fmt::Display for Hex<'a> {
    fn fmt<W: fmt::Write>(&self, f: &mut fmt::Formatter<W>) -> fmt::Result {
        let [first, rest @ ..] = self.0 else {
            return Ok(());
        };
        write!(f, "{first:02X}")?;
        for octet in rest {
            write!(f, " {octet:02X}")?;
        }
        Ok(())
    }
}

/// The same by lower-case digits, with nothing between them.
#[derive(Drop)]
pub struct LowerHex<'a>(pub &'a [u8]);

impl<'a> fmt::Display for LowerHex<'a> {
    fn fmt<W: fmt::Write>(&self, f: &mut fmt::Formatter<W>) -> fmt::Result {
        for octet in self.0 {
            write!(f, "{octet:02x}")?;
        }
        Ok(())
    }
}
