//! What the network does with packets: it loses, repeats, holds back and spoils them by their numbers, and takes longer and
//! longer.
ghost use Rattle.std.specs.Prelude.{◌≡◌, ◌<◌, ◌^◌};
ghost use Rattle.dialling.specs.Network.{treatment, arrival, repeat_delay, holding_delay, delivery_at, deliveries, far_time};

use refusal::Time;

/// Packets of a sort are numbered by themselves, and have a delay of their own.
#[derive(Clone, Copy, PartialEq)]
pub enum Sort {
    Message,
    Audio,
}

/// What happens to a packet.
#[derive(Clone, Copy)]
pub enum Treatment {
    Lost,
    Arrives,
    /// and once more, some time later
    Twice,
    /// for some time
    HeldBack,
    /// a spoiled copy arrives, and then the packet
    Spoiled,
    /// and a foreign packet with it
    WithForeign,
}

/// How a packet is when it arrives.
#[derive(Clone, Copy)]
pub enum Condition {
    Sound,
    /// the lowest bit of the third octet is changed
    Spoiled,
    /// a packet of nobody, in its place
    Foreign,
}

/// What arrives of a packet, at a time of the near end's clock.
#[derive(Clone, Copy)]
pub struct Delivery {
    pub time: u64,
    pub condition: Condition,
}

// In milliseconds: from a spoiled copy to the packet.
const AFTER_SPOILED: u64 = 20;

// By how much the far end's clock is ahead.
const AHEAD: u64 = 5_000_000;

impl Sort {
    /// What happens to the packet of a number. (The first three messages are the copies of off-hook.)
    pub fn treatment(self, number: usize) -> Treatment
        ensures { result ≡ treatment self number }
    {
        match self {
            Sort::Message if number < 3 => Treatment::Lost,
            Sort::Message => match number % 8 {
                0 => Treatment::Lost,
                2 => Treatment::Twice,
                4 => Treatment::HeldBack,
                6 => Treatment::Spoiled,
                7 => Treatment::WithForeign,
                _ => Treatment::Arrives,
            },
            Sort::Audio => match number % 5 {
                1 => Treatment::Lost,
                2 => Treatment::Twice,
                3 => Treatment::HeldBack,
                _ => Treatment::Arrives,
            },
        }
    }

    /// When a packet that was sent at a time arrives, if nothing happens to it.
    pub fn arrival(self, sent: Time) -> u64
        ensures value { result ≡ arrival self sent }
        ensures below { result < 2 ^ 41 }
    {
        let sent = sent.get();
        match self {
            Sort::Message => sent + 40 + sent / 2,
            Sort::Audio => sent + 30,
        }
    }

    // How long after a packet it arrives once more.
    fn repeat_delay(self) -> u64
        ensures value { result ≡ repeat_delay self }
        ensures below { result < 2 ^ 10 }
    {
        match self {
            Sort::Message => 700,
            Sort::Audio => 3,
        }
    }

    // How long a packet is held back.
    fn holding_delay(self) -> u64
        ensures value { result ≡ holding_delay self }
        ensures below { result < 2 ^ 10 }
    {
        match self {
            Sort::Message => 1000,
            Sort::Audio => 8,
        }
    }

    /// What arrives of the packet of a number that was sent at a time.
    pub fn deliveries(self, number: usize, sent: Time) -> [Option<Delivery>; 2]
        ensures { result ≡ deliveries self number sent }
    {
        let time = self.arrival(sent);
        match self.treatment(number) {
            Treatment::Lost => [None, None],
            Treatment::Arrives => [delivery_at(Condition::Sound, time), None],
            Treatment::Twice => [
                delivery_at(Condition::Sound, time),
                delivery_at(Condition::Sound, time + self.repeat_delay()),
            ],
            Treatment::HeldBack => [
                delivery_at(Condition::Sound, time + self.holding_delay()),
                None,
            ],
            Treatment::Spoiled => [
                delivery_at(Condition::Spoiled, time),
                delivery_at(Condition::Sound, time + AFTER_SPOILED),
            ],
            Treatment::WithForeign => [
                delivery_at(Condition::Sound, time),
                delivery_at(Condition::Foreign, time),
            ],
        }
    }
}

fn delivery_at(condition: Condition, time: u64) -> Option<Delivery>
    ensures { result ≡ delivery_at condition time }
{
    Some(Delivery { time, condition })
}

/// A time of the near end's clock, on the far end's.
pub fn far_time(time: u64) -> u64
    ensures { result ≡ far_time time }
{
    time.saturating_add(AHEAD)
}
