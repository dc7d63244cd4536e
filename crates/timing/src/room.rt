//! The length of a buffer, with a bound. (It has a ghost field, and no model: a match on an enum that holds a struct with a
//! model gets no proof today.)
ghost use Rattle.std.specs.Prelude.{◌≡◌, true, Some, None, if◌then◌else◌, nat_le};
ghost use Rattle.std.specs.Option.{option_map};
ghost use Rattle.timing.specs.declared.room.TheConstants.{MOST_ROOM};

/// The longest buffer, in octets.
pub const MOST_ROOM: usize = 16;

/// A buffer's length in octets, at most the longest.
#[derive(Clone, Copy)]
pub struct Room {
    octets: usize,
    ghost bound: { nat_le octets MOST_ROOM ≡ true },
}

impl Room {
    /// `None` for more than the longest.
    pub fn new(octets: usize) -> Option<Room>
        ensures { option_map (λ room. room.octets) result ≡ (if nat_le octets MOST_ROOM then Some octets else None) }
    {
        if octets <= MOST_ROOM {
            Some(Room { octets })
        } else {
            None
        }
    }

    /// The length by its word.
    pub fn of(word: &str) -> Option<Room> {
        Room::new(word.parse::<usize>().ok()?)
    }

    /// The length, in octets.
    pub fn get(self) -> usize
        ensures { result ≡ self.octets }
    {
        self.octets
    }
}
