// A selection: which stations are to be opened.
ghost use Rattle.std.specs.Prelude.{◌≡◌, length, if◌then◌else◌};

use crate::limits::MAX_STATIONS;
use crate::records::Station;
use std::array;

#[derive(Clone, Copy, PartialEq, Eq, Debug)]
pub struct Selection {
    pub open: [bool; MAX_STATIONS],
    pub ghost wide: { length «open» ≡ 64 },
}

// What counts where a station is open, and nothing where it is shut.
pub fn counted<T: Copy>(counts: bool, figure: T, nothing: T) -> T
    ensures { result ≡ (if counts then figure else nothing) }
{
    if counts { figure } else { nothing }
}

impl Selection {
    ghost use Rattle.std.specs.Prelude.{ℕ, ◌+◌, ◌*◌, ◌<◌, ◌≤◌, true, false, not, ◌&&◌, replicate, slice_set};
    ghost use Rattle.plant.specs.Records.{StationsInRange};
    ghost use Rattle.plant.specs.Selections.{among, hours as hoursBy};

    pub fn none() -> Selection
        ensures { result.open ≡ replicate 64 false }
    {
        Selection {
            open: [false; MAX_STATIONS],
        }
    }

    // Whether the station is in it; no number past the largest is.
    pub fn has(&self, station: usize) -> bool
        ensures { result ≡ among self.now station }
    {
        station < MAX_STATIONS && self.open[station]
    }

    // This selection, and one station more.
    pub fn with(&self, station: usize) -> Selection
        requires { station < 64 }
        ensures { result.open ≡ slice_set self.now.open station true }
    {
        let mut open = self.open;
        open[station] = true;
        Selection { open }
    }

    // The stations of this selection that are not in the other.
    pub fn without(&self, other: &Selection) -> Selection
        ensures { (k : ℕ) → among result k ≡ (among self.now k && not (among other.now k)) }
    {
        Selection {
            open: array::from_fn(|k| self.open[k] && !other.open[k]),
        }
    }

    // The hours of its stations.
    pub fn hours(&self, stations: &[Station]) -> u32
        requires few { length stations.now ≤ 64 }
        requires range { StationsInRange stations.now }
        ensures value { result ≡ hoursBy stations.now (among self.now) }
        ensures bound { result ≤ 64000 }
    {
        let mut total = 0;
        for (i, station) in stations.iter().enumerate() {
            total += counted(self.has(i), station.hours, 0);
        }
        total
    }
}
