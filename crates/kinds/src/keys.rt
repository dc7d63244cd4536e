//! The keys of a telephone.
ghost use Rattle.std.specs.Prelude.{◌≡◌, Some, IfSome, is_some, nat_le};
ghost use Rattle.kinds.specs.Keys.{key_code};

/// The DTMF code, 0 to 15, of a key that is named by its character: `0` to `9`, `*`, `#`, `A` to `D`.
pub fn key_code(key: char) -> Option<u8>
    ensures { result ≡ key_code key }
{
    match key {
        '0' => Some(0),
        '1' => Some(1),
        '2' => Some(2),
        '3' => Some(3),
        '4' => Some(4),
        '5' => Some(5),
        '6' => Some(6),
        '7' => Some(7),
        '8' => Some(8),
        '9' => Some(9),
        '*' => Some(10),
        '#' => Some(11),
        'A' => Some(12),
        'B' => Some(13),
        'C' => Some(14),
        'D' => Some(15),
        _ => None,
    }
}

/// The key of a DTMF code, 0 to 15.
pub fn key_of(code: u8) -> Option<char>
    ensures key { IfSome result (λ key. key_code key ≡ Some code) }
    ensures known { is_some result ≡ nat_le code 15 }
{
    match code {
        0 => Some('0'),
        1 => Some('1'),
        2 => Some('2'),
        3 => Some('3'),
        4 => Some('4'),
        5 => Some('5'),
        6 => Some('6'),
        7 => Some('7'),
        8 => Some('8'),
        9 => Some('9'),
        10 => Some('*'),
        11 => Some('#'),
        12 => Some('A'),
        13 => Some('B'),
        14 => Some('C'),
        15 => Some('D'),
        _ => None,
    }
}
