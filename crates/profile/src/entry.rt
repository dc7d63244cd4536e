//! An entry of a profile.
ghost use Rattle.std.specs.Prelude.{◌≡◌};
ghost use Rattle.profile.specs.Questions.{width, in_range, good_length, is_aligned, good_times, share};
ghost use Rattle.profile.specs.Labels.{has};

/// An entry of a profile: the UUIs `first` to `last` carry packets of `length` octets, each of `packet_time` milliseconds of
/// audio, and count intervals of `interval` milliseconds. The fields hold malformed values too: loading refuses those, with 2
/// to 7.
#[derive(Clone, Copy, Debug, PartialEq, Eq)]
pub struct Entry {
    /// how rate control names the entry, if it does; it is never checked
    pub index: Option<u8>,
    /// which encoding the packets have; any number is taken, since it is never checked
    pub format: u8,
    /// the first of its UUIs: at most `last`, and a multiple of the width, which is `last` - `first` + 1
    pub first: u16,
    /// the last of its UUIs, at most 15
    pub last: u16,
    /// the octets of each packet, 1 to 64
    pub length: u16,
    /// the milliseconds of audio in each packet: one interval or several whole ones, up to 65,535
    pub packet_time: u32,
    /// the milliseconds that a step of the label stands for, 1 to 255: one number for all entries of a profile
    pub interval: u16,
}

impl Entry {
    // Whether it has packets with this UUI and length. (The length is asked first, since entries more often differ in it.)
    pub(crate) fn has(self, uui: u16, length: usize) -> bool
        ensures { result ≡ has self uui length }
    {
        usize::from(self.length) == length && self.first <= uui && uui <= self.last
    }

    pub(crate) fn in_range(self) -> bool
        ensures { result ≡ in_range self }
    {
        self.first <= self.last && self.last <= 15
    }

    pub(crate) fn good_length(self) -> bool
        ensures { result ≡ good_length self }
    {
        matches!(self.length, 1..=64)
    }

    // How many UUIs it has, where its range is in order.
    pub(crate) fn width(self) -> u32
        ensures { result ≡ width self }
    {
        u32::from(self.last.saturating_sub(self.first)) + 1
    }

    pub(crate) fn is_aligned(self) -> bool
        ensures { result ≡ is_aligned self }
    {
        let width = self.width();
        matches!(width, 1 | 2 | 4 | 8 | 16) && u32::from(self.first) % width == 0
    }

    pub(crate) fn good_times(self) -> bool
        ensures { result ≡ good_times self }
    {
        matches!(self.interval, 1..=255)
            && matches!(self.packet_time, 1..=65_535)
            && self.packet_time % u32::from(self.interval) == 0
    }

    // Whether it shares a UUI with another, and has its length, where both ranges are in order.
    pub(crate) fn shares(self, other: Entry) -> bool
        ensures { result ≡ share self other }
    {
        self.length == other.length && self.first <= other.last && other.first <= self.last
    }
}
