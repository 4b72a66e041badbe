// The pick at the root: the highest figure, then the fewest hours, then the left end shut first, then the right end.
ghost use Rattle.std.specs.Prelude.{◌≡◌, ◌+◌, ◌^◌, ◌<◌, ◌≤◌, length, Some};
ghost use Rattle.plant.specs.Trees.{left as leftEnd, right as rightEnd};
ghost use Rattle.yardsticks.specs.Laws.{limit};
ghost use Rattle.cells.specs.Tops.{cell_of, better_of};
ghost use Rattle.filling.specs.Sites.{site, tree};
ghost use Rattle.filling.specs.Tabled.{AllFilled};
ghost use Rattle.picking.specs.Offers.{outranks as outranksBy, offer_of, Leading, RowOffers, RowFair, LeadsEnds, LeadsRoot, share_at};

use crate::offer::Offer;
use filling::tables::Tables;
use joins::cell::{Cell, Spot};
use joins::joins::{first_best, share_of};
use joins::share::Share;
use plant::site::Plant;
use plant::tree::Node;
use yardsticks::yardstick::Yardstick;

fn outranks<Y: Yardstick>(y: &Y, a: Offer<Y::Figure>, b: Offer<Y::Figure>) -> bool
    ensures { result ≡ outranksBy Y.Yardstick.above a b }
{
    y.is_above(a.figure, b.figure) || (!y.is_above(b.figure, a.figure) && a.hours < b.hours)
}

// The one that outranks the other, and the first of equals.
fn leading<Y: Yardstick>(
    y: &Y,
    a: Option<Offer<Y::Figure>>,
    b: Option<Offer<Y::Figure>>,
) -> Option<Offer<Y::Figure>>
    ensures { result ≡ better_of (outranksBy Y.Yardstick.above) a b }
{
    first_best(a, b, |p, q| outranks(y, p, q))
}

// The cell with the shares of both ends, where that is within the budget.
fn offer_at<Y: Yardstick>(
    tables: &Tables<'_, '_, '_, Y>,
    cell: Cell<Y::Figure>,
    left: &Share<Y::Figure>,
    right: &Share<Y::Figure>,
    spot: Spot,
) -> Option<Offer<Y::Figure>>
    requires fair { (x : Y.Figure) → cell ≡ Some x → Y.Yardstick.size x + Y.Yardstick.size left.now.figure + Y.Yardstick.size right.now.figure ≤ limit }
    requires small { spot.hours + left.now.hours + right.now.hours < 2 ^ 64 }
    ensures { result ≡ offer_of Y.Yardstick.plus left.now right.now tables.now.plant.now.budget spot cell }
{
    let hours = spot.hours + left.hours + right.hours;
    if hours > tables.plant.budget as usize {
        return None;
    }
    let y = tables.y;
    let figure = y.sum(y.sum(cell?, left.figure), right.figure);
    Some(Offer {
        figure,
        hours,
        spot,
    })
}

// The best that a row of the root offers with these ends.
fn row_offer<Y: Yardstick>(
    tables: &Tables<'_, '_, '_, Y>,
    row: &[Cell<Y::Figure>],
    left: &Share<Y::Figure>,
    right: &Share<Y::Figure>,
    root: Spot,
) -> Option<Offer<Y::Figure>>
    requires fair { RowFair Y.Yardstick.size limit (cell_of row.now) left.now right.now }
    requires small { length row.now + left.now.hours + right.now.hours < 2 ^ 64 }
    ensures { Leading Y.Yardstick.above (RowOffers Y.Yardstick.plus (cell_of row.now) left.now right.now tables.now.plant.now.budget root.node root.left root.right) result }
{
    let mut best = None;
    for (hours, cell) in row.iter().enumerate() {
        let next = offer_at(tables, *cell, left, right, Spot { hours, ..root });
        best = leading(tables.y, best, next);
    }
    best
}

// The last node, whose piece is the whole plant.
pub fn root_node(plant: &Plant<'_>) -> Node
    ensures left { result.left ≡ leftEnd (site plant.now).net (tree plant.now) }
    ensures right { result.right ≡ rightEnd (site plant.now).net (tree plant.now) }
    ensures within { (result.left < length plant.now.stations.now) × (result.right < length plant.now.stations.now) }
{
    plant.nodes[plant.nodes.len() - 1]
}

fn end_share<Y: Yardstick>(
    tables: &Tables<'_, '_, '_, Y>,
    station: usize,
    opened: bool,
) -> Option<Share<Y::Figure>>
    requires { station < length tables.now.plant.now.stations.now }
    ensures { result ≡ share_at Y.Yardstick.nil Y.Yardstick.station tables.now.plant.now station opened }
{
    share_of(tables.y, &tables.plant.stations[station], opened)
}

// The best that the root offers with its ends in these states. That all is filled stands in clauses: it names the choices, so no type can
// hold it.
fn ends_offer<Y: Yardstick>(
    tables: &Tables<'_, '_, '_, Y>,
    left: bool,
    right: bool,
) -> Option<Offer<Y::Figure>>
    requires { AllFilled tables.now }
    ensures { LeadsEnds tables.now left right result }
{
    let plant = tables.plant;
    let ends = root_node(plant);
    let first = end_share(tables, ends.left, left)?;
    let last = end_share(tables, ends.right, right)?;
    let root = Spot {
        node: plant.nodes.len() - 1,
        left,
        right,
        hours: plant.budget as usize,
    };
    row_offer(tables, tables.row(root), &first, &last, root)
}

// The best that the root offers. Of equals the first is taken, so the order of the states decides: it stands here call by call.
pub fn best_offer<Y: Yardstick>(tables: &Tables<'_, '_, '_, Y>) -> Option<Offer<Y::Figure>>
    requires { AllFilled tables.now }
    ensures { LeadsRoot tables.now result }
{
    let both_shut = ends_offer(tables, false, false);
    let right_open = ends_offer(tables, false, true);
    let left_open = ends_offer(tables, true, false);
    let both_open = ends_offer(tables, true, true);
    let left_shut = leading(tables.y, both_shut, right_open);
    let rest = leading(tables.y, left_open, both_open);
    leading(tables.y, left_shut, rest)
}
