// The plan of a stop: what is to be solved, the list that comes of it, and the ticks on that list.
#![tactic(auto)]

ghost use Rattle.std.specs.Prelude.{◌≤◌};
ghost use Rattle.plant.specs.Nodes.{IsPlant};
ghost use Rattle.plant.specs.Props.{plant_prop};
ghost use Rattle.plant.specs.Tables.{listed};

use plant::limits::{MAX_LINES, MAX_NODES, MAX_STATIONS};
use plant::records::{Line, Station};
use plant::table::Table;
use plant::tree::Node;

pub mod changes;
pub mod pick;
pub mod script;
pub mod sheet;

// What a plan holds once it is filled: a plant's records, the nodes of its tree, and the budget of hours.
#[derive(Drop)]
struct Filled {
    stations: Table<Station, MAX_STATIONS>,
    lines: Table<Line, MAX_LINES>,
    nodes: Table<Node, MAX_NODES>,
    budget: u32,
    ghost plant: { IsPlant (listed stations) (listed lines) (listed nodes) } by { plant_prop (listed stations) (listed lines) (listed nodes) },
    ghost cheap: { budget ≤ 1000 },
}

// A plan is blank until it is filled.
#[derive(Drop)]
pub struct Plan {
    filled: Option<Filled>,
}
