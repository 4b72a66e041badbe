// The figure of a selection, and what it is by each yardstick.
ghost use Rattle.std.specs.Prelude.{◌≡◌, ◌*◌, ◌≤◌, length, unsigned_abs};
ghost use Rattle.plant.specs.Records.{StationsInRange, LinesInRange};
ghost use Rattle.plant.specs.Selections.{among, upto, open_station, open_line, figure as figureBy, gain as gainBy};
ghost use Rattle.yardsticks.specs.Laws.{record_limit};
ghost use Rattle.yardsticks.specs.Models.{urgent_gain};

use crate::figures::UrgentGain;
use crate::money::Money;
use crate::urgent::UrgentFirst;
use crate::yardstick::Yardstick;
use plant::records::{Line, Station};
use plant::selection::{Selection, counted};

// Stations and lines apart: what counts, and the definition that they add up to, are not the same.
fn of_stations<Y: Yardstick>(y: &Y, stations: &[Station], s: &Selection) -> Y::Figure
    requires few { length stations.now ≤ 64 }
    requires range { StationsInRange stations.now }
    ensures value { result ≡ upto Y.Yardstick.nil Y.Yardstick.plus (open_station Y.Yardstick.nil Y.Yardstick.station stations.now (among s.now)) (length stations.now) }
    ensures bound { Y.Yardstick.size result ≤ 64 * record_limit }
{
    let mut total = y.zero();
    for (i, station) in stations.iter().enumerate() {
        let figure = counted(s.has(i), y.of_station(station), y.zero());
        total = y.sum(total, figure);
    }
    total
}

fn of_lines<Y: Yardstick>(y: &Y, lines: &[Line], s: &Selection) -> Y::Figure
    requires few { length lines.now ≤ 128 }
    requires range { LinesInRange lines.now }
    ensures value { result ≡ upto Y.Yardstick.nil Y.Yardstick.plus (open_line Y.Yardstick.nil Y.Yardstick.line lines.now (among s.now)) (length lines.now) }
    ensures bound { Y.Yardstick.size result ≤ 128 * record_limit }
{
    let mut total = y.zero();
    for line in lines {
        let both = s.has(line.from) && s.has(line.to);
        let figure = counted(both, y.of_line(line), y.zero());
        total = y.sum(total, figure);
    }
    total
}

// The figure of the selection: those of its stations, and of the lines with both ends in it.
// Not of a lent plant, which would ask for a tree; and a struct of the two slices would be made for this one call.
pub fn figure_of<Y: Yardstick>(
    y: &Y,
    stations: &[Station],
    lines: &[Line],
    s: &Selection,
) -> Y::Figure
    requires few { (length stations.now ≤ 64) × (length lines.now ≤ 128) }
    requires range { (StationsInRange stations.now) × (LinesInRange lines.now) }
    ensures value { result ≡ figureBy Y.Yardstick.nil Y.Yardstick.plus Y.Yardstick.station Y.Yardstick.line stations.now lines.now (among s.now) }
    ensures bound { Y.Yardstick.size result ≤ 192 * record_limit }
{
    y.sum(of_stations(y, stations, s), of_lines(y, lines, s))
}

// Two functions for two yardsticks: each says in the subject's words what the one figure is by its own.
// By money, it is the gain.
pub fn money_of(stations: &[Station], lines: &[Line], s: &Selection) -> i64
    requires few { (length stations.now ≤ 64) × (length lines.now ≤ 128) }
    requires range { (StationsInRange stations.now) × (LinesInRange lines.now) }
    ensures value { result ≡ gainBy stations.now lines.now (among s.now) }
    ensures bound { unsigned_abs result ≤ 192000000000 }
{
    figure_of(&Money, stations, lines, s)
}

// By urgent-first, it is the count of urgent stations with the gain.
#[tactic(auto, using(crate::proofs::Sums::urgent_figure))]
pub fn urgency_of(stations: &[Station], lines: &[Line], s: &Selection) -> UrgentGain
    requires few { (length stations.now ≤ 64) × (length lines.now ≤ 128) }
    requires range { (StationsInRange stations.now) × (LinesInRange lines.now) }
    ensures { result ≡ urgent_gain stations.now lines.now (among s.now) }
{
    figure_of(&UrgentFirst, stations, lines, s)
}
