// Sets of stations, of which a small plant has few.

use std::ops::{BitAnd, BitOr, Range};

// A bit for each station.
#[derive(Clone, Copy, Default)]
pub struct Stations(pub u64);

impl Stations {
    // The bits of each set of the first so many stations.
    pub fn sets(count: usize) -> Range<u64> {
        0..if count < 64 { 1 << count } else { 0 }
    }

    pub fn one(station: usize) -> Stations {
        Stations(if station < 64 { 1 << station } else { 0 })
    }

    pub fn has(self, station: usize) -> bool {
        station < 64 && self.0 >> station & 1 == 1
    }
}

impl BitOr for Stations {
    type Output = Stations;

    fn bitor(self, other: Stations) -> Stations {
        Stations(self.0 | other.0)
    }
}

impl BitAnd for Stations {
    type Output = Stations;

    fn bitand(self, other: Stations) -> Stations {
        Stations(self.0 & other.0)
    }
}
