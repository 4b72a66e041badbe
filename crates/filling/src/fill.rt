// Filling the tables, node by node in the order of their numbers.
ghost use Rattle.std.specs.Prelude.{◌≡◌, ℕ, ◌+◌, ◌<◌, ◌≤◌, min, true, None, length};
ghost use Rattle.plant.specs.Records.{line as line_at};
ghost use Rattle.cells.specs.Joins.{between_hours};
ghost use Rattle.cells.specs.Subtrees.{sub};
ghost use Rattle.cells.specs.Tables.{most};
ghost use Rattle.cells.specs.Tops.{cell_of};
ghost use Rattle.filling.specs.Sites.{site, tree, Room, Known, middle, leaf_cell};
ghost use Rattle.filling.specs.Tabled.{FilledBelow, BestAt, BestThrough, Begun, FillsRow, FillsNodes};

use crate::joint::Joint;
use crate::tables::Tables;
use joins::cell::{Cell, Spot, put_cell};
use joins::joins::{best_split, better};
use plant::limits::MAX_NODES;
use plant::site::Plant;
use plant::tree::{Join, Shape};
use yardsticks::yardstick::Yardstick;

// The best of a join's choices through one state of the middle. Past its reach the row of a half is empty.
// What is filled and known stands in clauses, here and below: it names the choices, so no type can hold it.
fn through<Y: Yardstick>(joint: &Joint<'_, Y>, reach: &[usize], opened: bool) -> Cell<Y::Figure>
    requires filled { FilledBelow joint.now.tables.now joint.now.spot.node }
    requires known { Known joint.now.tables.now.plant.now reach.now joint.now.spot.node }
    ensures { BestThrough joint.now opened result }
{
    let share = joint.between(opened)?;
    let tables = joint.tables;
    let first = tables.row(joint.first_spot(opened, reach[joint.first]));
    let second = tables.row(joint.second_spot(opened, reach[joint.second]));
    best_split(tables.y, first, second, &share, joint.spot.hours)
}

// The best of a join's choices: through either state of the middle.
fn join_cell<Y: Yardstick>(joint: &Joint<'_, Y>, reach: &[usize]) -> Cell<Y::Figure>
    requires filled { FilledBelow joint.now.tables.now joint.now.spot.node }
    requires known { Known joint.now.tables.now.plant.now reach.now joint.now.spot.node }
    ensures { BestAt Y.Yardstick joint.now.tables.now.plant.now joint.now.spot result }
{
    let shut = through(joint, reach, false);
    let open = through(joint, reach, true);
    better(joint.tables.y, shut, open)
}

// The line's figure where both of its ends are open. A line has no inner stations, so it takes no hours.
fn leaf_cell<Y: Yardstick>(
    tables: &Tables<'_, '_, '_, Y>,
    line: usize,
    spot: Spot,
) -> Cell<Y::Figure>
    requires { line < length tables.now.plant.now.lines.now }
    ensures { result ≡ leaf_cell Y.Yardstick.nil (Y.Yardstick.line (line_at tables.now.plant.now.lines.now line)) spot.left spot.right spot.hours }
{
    if spot.hours > 0 {
        return None;
    }
    if spot.left && spot.right {
        Some(tables.y.of_line(&tables.plant.lines[line]))
    } else {
        Some(tables.y.zero())
    }
}

// The best of a node's choices.
fn cell_at<Y: Yardstick>(
    tables: &Tables<'_, '_, '_, Y>,
    reach: &[usize],
    spot: Spot,
) -> Cell<Y::Figure>
    requires within { spot.node < length tables.now.plant.now.nodes.now }
    requires filled { FilledBelow tables.now spot.node }
    requires known { Known tables.now.plant.now reach.now (spot.node + 1) }
    requires hours { spot.hours ≤ tables.now.plant.now.budget }
    ensures { BestAt Y.Yardstick tables.now.plant.now spot result }
{
    if spot.hours > reach[spot.node] {
        return None;
    }
    match tables.plant.nodes[spot.node].shape {
        Shape::Leaf(line) => leaf_cell(tables, line, spot),
        Shape::Join(join, first, second) => {
            let joint = Joint {
                tables,
                spot,
                join,
                first,
                second,
            };
            join_cell(&joint, reach)
        }
    }
}

fn middle_hours(plant: &Plant<'_>, join: Join, first: usize) -> usize
    requires first { first < length plant.now.nodes.now }
    requires within { middle plant.now first < length plant.now.stations.now }
    ensures value { result ≡ between_hours (site plant.now) join (middle plant.now first) true }
    ensures small { result ≤ 1000 }
{
    match join {
        Join::Series => plant.stations[plant.nodes[first].right].hours as usize,
        Join::Parallel => 0,
    }
}

// The hours of all inner stations of a node, as far as the budget goes: past this reach its rows are empty. That a number is a node's stands
// in a clause, here and below: a type of such numbers would be no plainer than the number that a loop counts.
fn reach_of(plant: &Plant<'_>, reach: &[usize], node: usize) -> usize
    requires within { node < length plant.now.nodes.now }
    requires known { Known plant.now reach.now node }
    ensures { result ≡ min plant.now.budget (most (site plant.now) (sub (tree plant.now) node)) }
{
    match plant.nodes[node].shape {
        Shape::Leaf(_) => 0,
        Shape::Join(join, first, second) => {
            let hours = reach[first] + reach[second] + middle_hours(plant, join, first);
            hours.min(plant.budget as usize)
        }
    }
}

// Leaves the cells from one place up to another absent.
fn clear<F: Copy>(cells: &mut [Cell<F>], from: usize, to: usize)
    requires { (from ≤ to) × (to ≤ length cells.old) }
    ensures absent { (k : ℕ) → from ≤ k → k < to → cell_of cells.new k ≡ None }
    ensures below { (k : ℕ) → k < from → cell_of cells.new k ≡ cell_of cells.old k }
    ensures past { (k : ℕ) → to ≤ k → cell_of cells.new k ≡ cell_of cells.old k }
{
    for at in from..to {
        put_cell(cells, at, None);
    }
}

// Fills the row of a node and two states of its ends. The cells are lent to be written here, so they come apart from the tables to be read.
// Most of many rows lies past the reach of their node, so no choice is looked for there.
fn fill_row<'p, Y: Yardstick>(
    plant: &'p Plant<'p>,
    y: &Y,
    cells: &mut [Cell<Y::Figure>],
    reach: &[usize],
    node: usize,
    left: bool,
    right: bool,
)
    requires within { node < length plant.now.nodes.now }
    requires filled { Begun Y.Yardstick plant.now cells.old node }
    requires known { Known plant.now reach.now (node + 1) }
    ensures { FillsRow Y.Yardstick plant.now cells.old cells.new node left right }
{
    let width = plant.budget as usize + 1;
    let past = reach[node] + 1;
    let row = Spot {
        node,
        left,
        right,
        hours: 0,
    };
    let begin = row.place(width);
    for hours in 0..past {
        let tables = Tables { plant, y, cells };
        let cell = cell_at(&tables, reach, Spot { hours, ..row });
        put_cell(cells, begin + hours, cell);
    }
    clear(cells, begin + past, begin + width);
}

// Fills the four rows of a node: four calls, since two loops over the states would be no plainer.
fn fill_node<'p, Y: Yardstick>(
    plant: &'p Plant<'p>,
    y: &Y,
    cells: &mut [Cell<Y::Figure>],
    reach: &[usize],
    node: usize,
)
    requires within { node < length plant.now.nodes.now }
    requires filled { Begun Y.Yardstick plant.now cells.old node }
    requires known { Known plant.now reach.now (node + 1) }
    ensures { FillsNodes Y.Yardstick plant.now cells.old cells.new (node + 1) }
{
    fill_row(plant, y, cells, reach, node, false, false);
    fill_row(plant, y, cells, reach, node, false, true);
    fill_row(plant, y, cells, reach, node, true, false);
    fill_row(plant, y, cells, reach, node, true, true);
}

// Fills the rows of all nodes; halves have smaller numbers than their join. By number: the reach of a node is read off those before it.
pub fn fill<'p, Y: Yardstick>(plant: &'p Plant<'p>, y: &Y, cells: &mut [Cell<Y::Figure>])
    requires room { Room plant.now cells.old }
    ensures { FillsNodes Y.Yardstick plant.now cells.old cells.new (length plant.now.nodes.now) }
{
    let mut reach = [0; MAX_NODES];
    for node in 0..plant.nodes.len() {
        reach[node] = reach_of(plant, &reach, node);
        fill_node(plant, y, cells, &reach, node);
    }
}
