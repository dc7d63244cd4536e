//! Tones, and how long they and the pauses between them are.
ghost use Rattle.std.specs.Prelude.{◌≡◌};
ghost use Rattle.dialling.specs.Dialling.{holding_time, pause_before};

use kinds::Digit;

/// A tone, as a caller makes it or as a listener hears it, and the pause before it, in milliseconds.
#[derive(Clone, Copy, PartialEq)]
pub struct Tone {
    pub key: Digit,
    pub pause: u64,
    pub held: u64,
}

// How long keys are held, and the pauses after them. After the last of a row comes the first again.
const HELD: [u64; 5] = [120, 90, 1100, 80, 150];

const PAUSES: [u64; 5] = [70, 12_000, 250, 90, 60];

/// How long the key at a place of the number is held.
pub fn holding_time(place: usize) -> u64
    ensures { result ≡ holding_time place }
{
    HELD[place % 5]
}

/// The pause before the key at a place: that after the key before.
pub fn pause_before(place: usize) -> u64
    ensures { result ≡ pause_before place }
{
    match place.checked_sub(1) {
        Some(before) => PAUSES[before % 5],
        None => 0,
    }
}
