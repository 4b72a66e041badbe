// The best list by trying every selection.
use crate::links::Links;
use crate::sample::Sample;
use crate::stations::Stations;
use crate::tree::Turn;
use plant::records::Hold;
use std::cmp::Ordering;
use yardsticks::money::Money;
use yardsticks::urgent::UrgentFirst;
use yardsticks::yardstick::Yardstick;

#[derive(Clone, Copy, Default)]
pub struct Totals {
    pub hours: u32,
    pub gain: i64,
    pub urgent: i64,
    pub links: i64,
}

// A yardstick, and what it ranks first, seen from the totals alone.
pub trait Ranked: Yardstick {
    type Rank: Ord + Copy;

    fn rank(&self, totals: &Totals) -> Self::Rank;
}

impl Ranked for Money {
    type Rank = i64;

    fn rank(&self, totals: &Totals) -> i64 {
        totals.gain
    }
}

impl Ranked for UrgentFirst {
    type Rank = (i64, i64);

    fn rank(&self, totals: &Totals) -> (i64, i64) {
        (totals.urgent, totals.gain)
    }
}

impl Ranked for Links {
    type Rank = i64;

    fn rank(&self, totals: &Totals) -> i64 {
        totals.links
    }
}

// The selection to hand out, its totals, and how many others that fit are equal to it in rank and hours.
#[derive(Clone, Copy)]
pub struct Best {
    pub selection: Stations,
    pub totals: Totals,
    pub ties: usize,
}

fn hours_within(sample: &Sample, selection: Stations) -> u32 {
    sample
        .spots
        .iter()
        .enumerate()
        .filter(|(k, _)| selection.has(*k))
        .fold(0, |hours: u32, (_, spot)| hours.saturating_add(spot.hours))
}

fn totals_of(sample: &Sample, selection: Stations) -> Totals {
    let mut totals = Totals::default();
    for (k, spot) in sample.spots.iter().enumerate() {
        if selection.has(k) {
            totals.hours = totals.hours.saturating_add(spot.hours);
            totals.gain = totals.gain.saturating_add(spot.gain);
            totals.urgent = totals.urgent.saturating_add(i64::from(spot.urgent));
            totals.links = totals.links.saturating_sub(1);
        }
    }
    for wire in &sample.wires {
        if selection.has(wire.from) && selection.has(wire.to) {
            totals.gain = totals.gain.saturating_add(wire.gain);
            totals.links = totals.links.saturating_add(1);
        }
    }
    totals
}

fn keeps_holds(sample: &Sample, selection: Stations) -> bool {
    sample.spots.iter().enumerate().all(|(k, spot)| match spot.hold {
        Hold::Free => true,
        Hold::Open => selection.has(k),
        Hold::Shut => !selection.has(k),
    })
}

// Shut before open.
fn by_station(station: usize, a: Stations, b: Stations) -> Ordering {
    a.has(station).cmp(&b.has(station))
}

// The middle shut before open, and fewer hours inside the first half.
fn by_turn(sample: &Sample, turn: &Turn, a: Stations, b: Stations) -> Ordering {
    let hours = hours_within(sample, a & turn.inside_first);
    let middle = match turn.middle {
        Some(middle) => by_station(middle, a, b),
        None => Ordering::Equal,
    };
    middle.then(hours.cmp(&hours_within(sample, b & turn.inside_first)))
}

// The line-up of equals: the left end shut first, then the right end, then from the root down.
fn in_line(sample: &Sample, a: Stations, b: Stations) -> Ordering {
    let last = sample.spots.len().saturating_sub(1);
    let ends = by_station(0, a, b).then(by_station(last, a, b));
    sample.turns.iter().fold(ends, |order, turn| order.then(by_turn(sample, turn, a, b)))
}

impl Best {
    fn only(sample: &Sample, selection: Stations) -> Best {
        Best {
            selection,
            totals: totals_of(sample, selection),
            ties: 0,
        }
    }

    fn fits(&self, sample: &Sample, budget: u32) -> bool {
        keeps_holds(sample, self.selection) && self.totals.hours <= budget
    }

    // The better of two that fit: by rank, then by fewer hours, then by the line-up.
    fn or<Y: Ranked>(self, sample: &Sample, y: &Y, other: Best) -> Best {
        let order = y
            .rank(&other.totals)
            .cmp(&y.rank(&self.totals))
            .then(self.totals.hours.cmp(&other.totals.hours));
        match order {
            Ordering::Less => self,
            Ordering::Greater => other,
            Ordering::Equal => {
                let first = if in_line(sample, other.selection, self.selection).is_lt() {
                    other
                } else {
                    self
                };
                Best {
                    ties: self.ties.saturating_add(1),
                    ..first
                }
            }
        }
    }
}

pub fn best_of<Y: Ranked>(sample: &Sample, y: &Y, budget: u32) -> Option<Best> {
    Stations::sets(sample.spots.len())
        .map(|bits| Best::only(sample, Stations(bits)))
        .filter(|best| best.fits(sample, budget))
        .reduce(|best, other| best.or(sample, y, other))
}
