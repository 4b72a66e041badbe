// A plant, lent: its records, the nodes of its tree, and the budget of hours.
ghost use Rattle.std.specs.Prelude.{◌≤◌};
ghost use Rattle.plant.specs.Nodes.{IsPlant};
ghost use Rattle.plant.specs.Props.{plant_prop};

use crate::records::{Line, Station};
use crate::tree::Node;

#[derive(Clone, Copy)]
pub struct Plant<'a> {
    pub stations: &'a [Station],
    pub lines: &'a [Line],
    pub nodes: &'a [Node],
    pub budget: u32,
    pub ghost drawn: { IsPlant stations.now lines.now nodes.now } by { plant_prop stations.now lines.now nodes.now },
    pub ghost cheap: { budget ≤ 1000 },
}
