//! Signalling bits as text.
ghost use Rattle.std.specs.Prelude.{◌≡◌};
ghost use Rattle.text.specs.Bits.{bit_of, bits_of};

use kinds::CasBits;
use std::fmt;

/// A signalling bit by its digit, `0` or `1`.
fn bit_of(digit: u8) -> Option<bool>
    ensures { result ≡ bit_of digit }
{
    match digit {
        b'0' => Some(false),
        b'1' => Some(true),
        _ => None,
    }
}

/// Signalling bits by four digits, A first. (No `FromStr`: the type is of another crate.)
pub fn bits_of(digits: &[u8]) -> Option<CasBits>
    ensures { result ≡ bits_of digits.now }
{
    let [a, b, c, d] = digits else {
        return None;
    };
    Some(CasBits {
        a: bit_of(*a)?,
        b: bit_of(*b)?,
        c: bit_of(*c)?,
        d: bit_of(*d)?,
    })
}

/// Signalling bits by four words of one digit each, A first.
pub fn bits_of_words(words: &[&str]) -> Option<CasBits> {
    let [a, b, c, d] = words else {
        return None;
    };
    bits_of(&[
        only_octet(a)?,
        only_octet(b)?,
        only_octet(c)?,
        only_octet(d)?,
    ])
}

/// The octet of a word that has just one.
fn only_octet(word: &str) -> Option<u8> {
    match word.as_bytes() {
        [octet] => Some(*octet),
        _ => None,
    }
}

/// Signalling bits that are shown by four digits, A first.
#[derive(Clone, Copy)]
pub struct FourDigits(pub CasBits);

impl fmt::Display for FourDigits {
    fn fmt<W: fmt::Write>(&self, f: &mut fmt::Formatter<W>) -> fmt::Result {
        write!(f, "{:04b}", self.0.octet())
    }
}

/// Signalling bits that are shown by four words of one digit each, A first.
#[derive(Clone, Copy)]
pub struct FourWords(pub CasBits);

impl fmt::Display for FourWords {
    fn fmt<W: fmt::Write>(&self, f: &mut fmt::Formatter<W>) -> fmt::Result {
        let CasBits { a, b, c, d } = self.0;
        write!(f, "{}", u8::from(a))?;
        for bit in [b, c, d] {
            write!(f, " {}", u8::from(bit))?;
        }
        Ok(())
    }
}
