// The whole: refuse, or fill the tables, pick at the root and trace.
ghost use Rattle.solver.specs.Solutions.{Solves};

use crate::trace::trace;
use filling::fill::fill;
use filling::tables::Tables;
use joins::cell::{Cell, need};
use picking::root::best_offer;
use plant::refusal::{Part, Reason, Refusal};
use plant::selection::Selection;
use plant::site::Plant;
use yardsticks::yardstick::Yardstick;

// The best list within the budget by the yardstick, or why there is none.
pub fn solve<'p, Y: Yardstick>(
    plant: &'p Plant<'p>,
    y: &Y,
    cells: &mut [Cell<Y::Figure>],
) -> Result<Selection, Refusal>
    ensures { Solves Y.Yardstick plant.now cells.old cells.new result }
{
    let needed = need(plant.lines.len(), plant.budget);
    if cells.len() < needed {
        return Err(Part::Call.refusal(Reason::MemoryTooShort, needed as u32));
    }
    fill(plant, y, cells);
    let tables = Tables { plant, y, cells };
    let Some(offer) = best_offer(&tables) else {
        return Err(Part::Call.refusal(Reason::NothingFits, 0));
    };
    Ok(trace(&tables, offer.spot))
}
