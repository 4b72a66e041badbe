// The join of two rows of cells. The index of a row is a number that adds up: the hours.
ghost use Rattle.std.specs.Prelude.{◌≡◌, ◌+◌, ◌<◌, ◌≤◌, length, Some};
ghost use Rattle.plant.specs.Records.{StationInRange, allows};
ghost use Rattle.yardsticks.specs.Laws.{limit};
ghost use Rattle.cells.specs.Tops.{Tops, Split, Fair, cell_of, better_of, joined_of};
ghost use Rattle.joins.specs.Shares.{share as shareBy, Joined};
ghost use Rattle.joins.specs.Firsts.{FirstBest};

use crate::cell::Cell;
use crate::share::Share;
use plant::records::{Hold, Station};
use plant::selection::counted;
use yardsticks::yardstick::Yardstick;

// The one that is above, and the first of equals.
pub fn first_best<T: Copy, F: Fn(T, T) -> bool>(
    a: Option<T>,
    b: Option<T>,
    is_above: F,
) -> Option<T>
    requires { F.IsAlwaysCallable is_above }
    ensures { FirstBest (F.post is_above) a b result }
{
    match (a, b) {
        (Some(p), Some(q)) => { if is_above(q, p) { Some(q) } else { Some(p) } }
        (Some(p), None) => Some(p),
        (None, _) => b,
    }
}

// The better of two cells, and the first of equals.
pub fn better<Y: Yardstick>(y: &Y, a: Cell<Y::Figure>, b: Cell<Y::Figure>) -> Cell<Y::Figure>
    ensures { result ≡ better_of Y.Yardstick.above a b }
{
    first_best(a, b, |p, q| y.is_above(p, q))
}

// The sum of two cells and the figure between them; absence is passed on.
pub fn joined<Y: Yardstick>(
    y: &Y,
    a: Cell<Y::Figure>,
    b: Cell<Y::Figure>,
    between: Y::Figure,
) -> Cell<Y::Figure>
    requires { (p q : Y.Figure) → a ≡ Some p → b ≡ Some q → Y.Yardstick.size p + Y.Yardstick.size q + Y.Yardstick.size between ≤ limit }
    ensures { result ≡ joined_of Y.Yardstick.plus between a b }
{
    match (a, b) {
        (Some(p), Some(q)) => Some(y.sum(y.sum(p, q), between)),
        _ => None,
    }
}

// Whether a station that is held so may be in this state.
fn allows_state(hold: Hold, open: bool) -> bool
    ensures { result ≡ allows hold «open» }
{
    match hold {
        Hold::Free => true,
        Hold::Open => open,
        Hold::Shut => !open,
    }
}

// What the station adds in this state, where its hold allows it.
pub fn share_of<Y: Yardstick>(y: &Y, station: &Station, opened: bool) -> Option<Share<Y::Figure>>
    requires { StationInRange station.now }
    ensures { result ≡ shareBy Y.Yardstick.nil Y.Yardstick.station station.now opened }
{
    if !allows_state(station.hold, opened) {
        return None;
    }
    Some(Share {
        figure: counted(opened, y.of_station(station), y.zero()),
        hours: counted(opened, station.hours as usize, 0),
    })
}

// The best of the sums of a cell of each row and the share between them, where the indices add up to `total`.
pub fn best_split<Y: Yardstick>(
    y: &Y,
    first: &[Cell<Y::Figure>],
    second: &[Cell<Y::Figure>],
    between: &Share<Y::Figure>,
    total: usize,
) -> Cell<Y::Figure>
    requires some { 0 < length second.now }
    requires fair { Fair Y.Yardstick.size limit (cell_of first.now) (cell_of second.now) between.now.figure }
    ensures { Tops Y.Yardstick.above (Joined Y.Yardstick.plus first.now second.now between.now total) result }
{
    let rest = total.checked_sub(between.hours)?;
    best_sum(y, first, second, between.figure, rest)
}

// The same where `rest` is left for the two rows; past their ends the cells are absent.
// By index: the index of each cell is what the other leaves of `rest`.
fn best_sum<Y: Yardstick>(
    y: &Y,
    first: &[Cell<Y::Figure>],
    second: &[Cell<Y::Figure>],
    between: Y::Figure,
    rest: usize,
) -> Cell<Y::Figure>
    requires some { 0 < length second.now }
    requires fair { Fair Y.Yardstick.size limit (cell_of first.now) (cell_of second.now) between }
    ensures { Tops Y.Yardstick.above (Split Y.Yardstick.plus (cell_of first.now) (cell_of second.now) between 0 rest) result }
{
    let from = rest.saturating_sub(second.len() - 1);
    let to = first.len().min(rest.saturating_add(1));
    let mut best = None;
    for i in from..to {
        let sum = joined(y, first[i], second[rest - i], between);
        best = better(y, best, sum);
    }
    best
}
