//! Numbers in a line.
use std::str::FromStr;

/// A number by decimal digits alone, without zeros in front; and no greater than the type holds. (The type's own `parse` also
/// takes a plus sign, and zeros in front.)
pub fn number<N: FromStr>(word: &str) -> Option<N>
where
    N::Err: Drop,
{
    if is_plain(word) {
        word.parse::<N>().ok()
    } else {
        None
    }
}

/// The same with a minus sign in front, if it is below zero.
pub fn signed_number(word: &str) -> Option<i8> {
    let digits = word.strip_prefix('-').unwrap_or(word);
    if is_plain(digits) && word != "-0" {
        word.parse::<i8>().ok()
    } else {
        None
    }
}

/// A number, or nothing by a `-`.
pub fn number_if_any<N: FromStr>(word: &str) -> Option<Option<N>>
where
    N::Err: Drop,
{
    match word {
        "-" => Some(None),
        _ => Some(Some(number::<N>(word)?)),
    }
}

fn is_plain(digits: &str) -> bool {
    match digits.as_bytes() {
        [] | [b'0', _, ..] => false,
        digits => digits.iter().all(|digit| digit.is_ascii_digit()),
    }
}
