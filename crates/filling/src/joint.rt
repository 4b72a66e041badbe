// A cell of a join in the tables, with the two halves of its node.
ghost use Rattle.std.specs.Prelude.{◌≤◌};
ghost use Rattle.filling.specs.Sites.{JoinAt};
ghost use Rattle.filling.specs.Props.{join_prop};

use crate::tables::Tables;
use joins::cell::Spot;
use joins::joins::share_of;
use joins::share::Share;
use plant::tree::Join;
use yardsticks::yardstick::Yardstick;

#[derive(Drop)]
pub struct Joint<'a, Y: Yardstick> {
    pub tables: &'a Tables<'a, 'a, 'a, Y>,
    pub spot: Spot,
    pub join: Join,
    pub first: usize,
    pub second: usize,
    pub ghost stands: { JoinAt tables.now.plant.now spot.node join first second } by { join_prop tables.now.plant.now spot.node join first second },
    pub ghost within: { spot.hours ≤ tables.now.plant.now.budget },
}

impl<Y: Yardstick> Joint<'_, Y> {
    ghost use Rattle.std.specs.Prelude.{◌≡◌, ◌<◌, length};
    ghost use Rattle.cells.specs.Joins.{first_right, second_left};
    ghost use Rattle.filling.specs.Sites.{middle, between_share};

    // The state of the end at which a half meets the other: that of the middle, where there is one, else that of the join's end.
    fn meeting(&self, end: bool, opened: bool) -> bool
        ensures first { result ≡ first_right self.now.join end opened }
        ensures second { result ≡ second_left self.now.join end opened }
    {
        match self.join {
            Join::Series => opened,
            Join::Parallel => end,
        }
    }

    // The cell of the first half that takes these hours, in a state of the middle.
    pub fn first_spot(&self, opened: bool, hours: usize) -> Spot
        ensures { result ≡ record { node = self.now.first; left = self.now.spot.left; right = first_right self.now.join self.now.spot.right opened; hours = hours } }
    {
        Spot {
            node: self.first,
            right: self.meeting(self.spot.right, opened),
            hours,
            ..self.spot
        }
    }

    // The cell of the second half that takes these hours, in a state of the middle.
    pub fn second_spot(&self, opened: bool, hours: usize) -> Spot
        ensures { result ≡ record { node = self.now.second; left = second_left self.now.join self.now.spot.left opened; right = self.now.spot.right; hours = hours } }
    {
        Spot {
            node: self.second,
            left: self.meeting(self.spot.left, opened),
            hours,
            ..self.spot
        }
    }

    // The station where the halves of a series meet.
    pub fn middle(&self) -> usize
        ensures value { result ≡ middle self.now.tables.now.plant.now self.now.first }
        ensures within { result < length self.now.tables.now.plant.now.stations.now }
    {
        let tables = self.tables;
        tables.plant.nodes[self.first].right
    }

    // What stands between the halves, in a state of the middle that is gone through. A parallel join has no middle: it is gone through once.
    pub fn between(&self, opened: bool) -> Option<Share<Y::Figure>>
        ensures { result ≡ between_share Y.Yardstick.nil Y.Yardstick.station Y.Yardstick.line self.now.tables.now.plant.now self.now.join (middle self.now.tables.now.plant.now self.now.first) opened }
    {
        let tables = self.tables;
        match self.join {
            Join::Series => share_of(tables.y, &tables.plant.stations[self.middle()], opened),
            Join::Parallel if opened => None,
            Join::Parallel => Some(Share {
                figure: tables.y.zero(),
                hours: 0,
            }),
        }
    }
}
