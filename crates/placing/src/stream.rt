//! A stream of arrivals: audio, or the messages of a kind.
ghost use Rattle.std.specs.Prelude.{◌≡◌, None, IfErr};
ghost use Rattle.placing.specs.Placing.{place, by_sign};
ghost use Rattle.placing.specs.Arrivals.{StampsTell, LabelsTell, PlacedWhereMade, PlacesRightly};
ghost use Rattle.placing.specs.News.{IfNews, Changed};

use crate::span::Labelling;
use refusal::{PlacingFault, Refusal, Time, is_time};
use std::marker::Model;

/// The latest news of a stream: its label, when it arrived, and the time since the first news.
#[derive(Clone, Copy, Debug, PartialEq, Eq)]
pub struct LatestNews {
    /// its label: a stamp, or a UUI as a receiver takes it
    pub label: u16,
    /// when it arrived, in milliseconds
    pub arrival: u64,
    /// the milliseconds since the first news
    pub position: u64,
}

/// What an arrival is on its stream.
#[derive(Clone, Copy, Debug, PartialEq, Eq)]
pub enum Novelty<T> {
    /// the elapsed time is above 0, or nothing was news before
    News(T),
    /// it is 0: made for the same time as the latest news
    Repeat,
    /// it is below 0: made for an earlier time than the latest news
    Late,
}

impl<T> Novelty<T> {
    /// News is changed by a function, all else stays.
    pub fn map<U, F: FnOnce(T) -> U>(self, change: F) -> Novelty<U>
        requires { IfNews self (F.pre change) }
        ensures { Changed (F.post change) self result }
    {
        match self {
            Novelty::News(news) => Novelty::News(change(news)),
            Novelty::Repeat => Novelty::Repeat,
            Novelty::Late => Novelty::Late,
        }
    }
}

/// How far news moved its stream, in milliseconds.
// (Numbers, as a host reads them.)
#[derive(Clone, Copy, Debug, PartialEq, Eq)]
pub struct Advance {
    /// since the news before
    pub elapsed: u64,
    /// since the first news
    pub position: u64,
}

/// A stream holds its latest news, if there was any. In contracts it is that.
#[derive(Clone, Copy, Debug, PartialEq, Eq)]
pub struct Timeline {
    pub(crate) latest: Option<LatestNews>,
}

impl Model for Timeline {
    ghost use Rattle.std.specs.Prelude.{Option};
    ghost use Rattle.placing.specs.declared.stream.LatestNews.{LatestNews};

    ghost Value = { Option LatestNews };

    ghost view = { λ s. s.latest };

    ghost inverse = { λ latest. record { latest = latest } };
}

impl Timeline {
    /// A new stream. Its laws: labels tell the time, and every list of arrivals on it is placed rightly.
    pub fn new() -> Timeline
        ensures latest { result ≡ None }
        ensures stamps { StampsTell }
        ensures labels { LabelsTell }
        ensures last_news { PlacedWhereMade }
        ensures rightly { PlacesRightly }
    {
        Timeline { latest: None }
    }

    /// An arrival with this label, at a time.
    ///
    /// Refused, and then unchanged, in this order: 28, two elapsed times are equally near; 29, the position would pass the
    /// range of times.
    pub fn place(
        &mut self,
        labelling: Labelling,
        label: u16,
        time: Time,
    ) -> Result<Novelty<Advance>, Refusal>
        ensures value { result ≡ (place labelling.span labelling.unit self.old label time).0 }
        ensures after { self.new ≡ (place labelling.span labelling.unit self.old label time).1 }
        ensures unchanged { IfErr result (λ _. self.new ≡ self.old) }
    {
        let novelty = novelty_beside(labelling, self.latest, label, time)?;
        if let Novelty::News(advance) = novelty {
            self.latest = Some(LatestNews {
                label,
                arrival: time.get(),
                position: advance.position,
            });
        }
        Ok(novelty)
    }
}

// What the arrival is, beside the latest news.
fn novelty_beside(
    labelling: Labelling,
    latest: Option<LatestNews>,
    label: u16,
    time: Time,
) -> Result<Novelty<Advance>, Refusal>
    ensures { result ≡ (place labelling.span labelling.unit latest label time).0 }
{
    let Some(before) = latest else {
        return Ok(Novelty::News(Advance {
            elapsed: 0,
            position: 0,
        }));
    };
    let gap = time.since(before.arrival);
    let elapsed = labelling
        .nearest(before.label, label, gap)
        .ok_or(PlacingFault::EquallyNear)?;
    by_sign(before.position, elapsed)
}

// The sign of the elapsed time decides.
fn by_sign(position: u64, elapsed: i64) -> Result<Novelty<Advance>, Refusal>
    ensures { result ≡ by_sign position elapsed }
{
    match elapsed {
        i64::MIN..=-1 => Ok(Novelty::Late),
        0 => Ok(Novelty::Repeat),
        _ => {
            let elapsed = elapsed as u64;
            let position = position
                .checked_add(elapsed)
                .filter(|position| is_time(*position))
                .ok_or(PlacingFault::PositionOutOfRange)?;
            Ok(Novelty::News(Advance { elapsed, position }))
        }
    }
}
