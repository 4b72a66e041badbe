// The tables of a plant by a yardstick, to be read: for each node and two states of its ends a row of cells.
ghost use Rattle.filling.specs.Sites.{Room};

use joins::cell::{Cell, Spot};
use plant::site::Plant;
use yardsticks::yardstick::Yardstick;

#[derive(Drop)]
pub struct Tables<'p, 'y, 'c, Y: Yardstick> {
    pub plant: &'p Plant<'p>,
    pub y: &'y Y,
    pub cells: &'c [Cell<Y::Figure>],
    pub ghost room: { Room plant.now cells.now },
}

impl<Y: Yardstick> Tables<'_, '_, '_, Y> {
    ghost use Rattle.std.specs.Prelude.{◌≡◌, ℕ, ◌+◌, ◌<◌, ◌≤◌, length};
    ghost use Rattle.cells.specs.Tables.{memory};
    ghost use Rattle.cells.specs.Tops.{cell_of};

    // The cells of the spot's row, up to it.
    pub fn row(&self, spot: Spot) -> &[Cell<Y::Figure>]
        requires node { spot.node < length self.now.plant.now.nodes.now }
        requires hours { spot.hours ≤ self.now.plant.now.budget }
        ensures long { length result.now ≡ spot.hours + 1 }
        ensures same { (k : ℕ) → k ≤ spot.hours → cell_of result.now k ≡ memory (self.now.plant.now.budget + 1) self.now.cells.now spot.node spot.left spot.right k }
    {
        let next = Spot {
            hours: spot.hours + 1,
            ..spot
        };
        next.row(self.cells, self.plant.budget as usize + 1)
    }
}
