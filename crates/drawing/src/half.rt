// A half that waits for its join.
ghost use Rattle.std.specs.Prelude.{◌≡◌, false, ◌||◌, Decides, slice_index_or};
ghost use Rattle.drawing.specs.Halves.{AllMarked, ShareOnly, Meet, Spans, marks, either};

use plant::limits::MAX_STATIONS;
use plant::tree::Join;
use std::array;

// Its node, the ends of its piece, and the stations of its piece.
#[derive(Clone, Copy, Default)]
pub struct Half {
    pub node: usize,
    pub left: usize,
    pub right: usize,
    pub stations: [bool; MAX_STATIONS],
}

impl Half {
    // Whether the two meet as the join asks.
    pub fn meets(&self, join: Join, other: &Half) -> bool
        ensures { Decides result (Meet join self.now other.now) }
    {
        match join {
            Join::Series => {
                self.right == other.left
                    && share_only(&self.stations, &other.stations, self.right, self.right)
            }
            Join::Parallel => {
                self.left == other.left
                    && self.right == other.right
                    && share_only(&self.stations, &other.stations, self.left, self.right)
            }
        }
    }

    // Whether its piece has all of so many stations, and runs from the first to the last.
    pub fn spans(&self, stations: usize) -> bool
        ensures { Decides result (Spans stations self.now) }
    {
        stations != 0
            && self.left == 0
            && self.right == stations - 1
            && all_marked(&self.stations, stations)
    }
}

// Whether the two share no station but `x` and `y`.
fn share_only(a: &[bool], b: &[bool], x: usize, y: usize) -> bool
    ensures { Decides result (ShareOnly a.now b.now x y) }
{
    a.iter()
        .zip(b)
        .enumerate()
        .all(|(i, (a, b))| !(*a && *b) || i == x || i == y)
}

// Whether the first `n` are marked; where there are fewer, they are not.
pub fn all_marked(marks: &[bool], n: usize) -> bool
    ensures { Decides result (AllMarked marks.now n) }
{
    n <= marks.len() && marks[..n].iter().all(|mark| *mark)
}

// The set of two stations.
pub fn two_stations(x: usize, y: usize) -> [bool; MAX_STATIONS]
    ensures { result ≡ marks (either x y) }
{
    array::from_fn(|i| x == i || y == i)
}

// The stations of both.
pub fn union(a: &[bool; MAX_STATIONS], b: &[bool; MAX_STATIONS]) -> [bool; MAX_STATIONS]
    ensures { result ≡ marks (λ i. slice_index_or a.now i false || slice_index_or b.now i false) }
{
    array::from_fn(|i| a[i] || b[i])
}
