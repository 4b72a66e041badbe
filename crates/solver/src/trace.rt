// The trace: from the root's cell down, which stations are open.
ghost use Rattle.std.specs.Prelude.{◌≡◌, ◌+◌, ◌^◌, ◌<◌, ◌≤◌, Some, Decides};
ghost use Rattle.yardsticks.specs.Laws.{limit};
ghost use Rattle.cells.specs.Tops.{joined_of};
ghost use Rattle.plant.specs.Selections.{among};
ghost use Rattle.filling.specs.Sites.{middle as middle_of};
ghost use Rattle.filling.specs.Tabled.{FilledBelow, AllFilled};
ghost use Rattle.picking.specs.Offers.{root as rootOf};
ghost use Rattle.solver.specs.Pending.{settled, Holds, SplitsCell, TracedIn, with_ends};
ghost use Rattle.solver.specs.Splits.{ways as waysBy, SplitsJoint};

use crate::split::Split;
use filling::joint::Joint;
use filling::tables::Tables;
use joins::cell::{Cell, Spot};
use joins::joins::joined;
use joins::share::Share;
use picking::root::root_node;
use plant::limits::STACK_ENTRIES;
use plant::selection::Selection;
use plant::site::Plant;
use plant::stack::Stack;
use plant::tree::{Join, Shape};
use yardsticks::yardstick::Yardstick;

// Whether the two figures are one.
fn same<Y: Yardstick>(y: &Y, a: Y::Figure, b: Y::Figure) -> bool
    ensures { Decides result (a ≡ b) }
{
    !y.is_above(a, b) && !y.is_above(b, a)
}

// Whether the two cells and the figure between them add up to `goal`.
fn attains<Y: Yardstick>(
    y: &Y,
    a: Cell<Y::Figure>,
    b: Cell<Y::Figure>,
    between: Y::Figure,
    goal: Y::Figure,
) -> bool
    requires { (p q : Y.Figure) → a ≡ Some p → b ≡ Some q → Y.Yardstick.size p + Y.Yardstick.size q + Y.Yardstick.size between ≤ limit }
    ensures { Decides result (joined_of Y.Yardstick.plus between a b ≡ Some goal) }
{
    joined(y, a, b, between).is_some_and(|sum| same(y, sum, goal))
}

// How many splits of the total there are through a share.
fn ways<F: Copy>(share: &Share<F>, total: usize) -> usize
    requires { total < 2 ^ 32 }
    ensures { result ≡ waysBy share.now total }
{
    (total + 1).saturating_sub(share.hours)
}

// The first split that attains the goal: by the state of the middle, then by the hours of the first half.
fn first_split<Y: Yardstick>(joint: &Joint<'_, Y>, goal: Y::Figure) -> Option<Split>
    requires { FilledBelow joint.now.tables.now joint.now.spot.node }
    ensures { SplitsJoint joint.now goal result }
{
    let tables = joint.tables;
    let budget = tables.plant.budget as usize;
    let mut found = None;
    'states: for opened in [false, true] {
        let Some(share) = joint.between(opened) else {
            continue 'states;
        };
        let first = tables.row(joint.first_spot(opened, budget));
        let second = tables.row(joint.second_spot(opened, budget));
        let count = ways(&share, joint.spot.hours);
        // The index is the hours of a half, so the two rows are read against each other.
        'hours: for i in 0..count {
            let rest = count - 1 - i;
            if attains(tables.y, first[i], second[rest], share.figure, goal) {
                found = Some(Split {
                    opened,
                    first: i,
                    second: rest,
                });
                break 'states;
            }
        }
    }
    found
}

// The first split that attains the cell, which holds something. What is filled stands in clauses here too: it names the choices.
fn split_at<Y: Yardstick>(joint: &Joint<'_, Y>) -> Split
    requires filled { AllFilled joint.now.tables.now }
    requires holds { Holds joint.now.tables.now.plant.now joint.now.tables.now.cells.now joint.now.spot }
    ensures { SplitsCell joint.now result }
{
    let goal = joint.tables.row(joint.spot)[joint.spot.hours].unwrap();
    first_split(joint, goal).unwrap()
}

// Writes the state of the middle, where the join has one.
fn settle<Y: Yardstick>(joint: &Joint<'_, Y>, opened: bool, picked: &mut Selection)
    ensures { picked.new.open ≡ settled joint.now.join (middle_of joint.now.tables.now.plant.now joint.now.first) opened picked.old.open }
{
    if joint.join == Join::Series {
        picked.open[joint.middle()] = opened;
    }
}

// A selection with the plant's two ends in the states of the root's cell, and nothing else.
fn with_ends(plant: &Plant<'_>, root: Spot) -> Selection
    ensures { result.open ≡ with_ends plant.now root }
{
    let mut picked = Selection::none();
    let ends = root_node(plant);
    picked.open[ends.left] = root.left;
    picked.open[ends.right] = root.right;
    picked
}

// The list that the root's cell leads to. Each cell that is still to be traced has a leaf of its own, so there is room for all.
pub fn trace<'t, Y: Yardstick>(tables: &'t Tables<'t, 't, 't, Y>, root: Spot) -> Selection
    requires filled { AllFilled tables.now }
    requires top { root.node ≡ rootOf tables.now.plant.now }
    requires hours { root.hours ≤ tables.now.plant.now.budget }
    requires holds { Holds tables.now.plant.now tables.now.cells.now root }
    ensures { TracedIn tables.now root (among result) }
{
    let mut picked = with_ends(tables.plant, root);
    let mut entries = [root; STACK_ENTRIES];
    let mut stack = Stack::new(&mut entries);
    stack.push(root);
    while let Some(spot) = stack.pop() {
        if let Shape::Join(join, first, second) = tables.plant.nodes[spot.node].shape {
            let joint = Joint {
                tables,
                spot,
                join,
                first,
                second,
            };
            let split = split_at(&joint);
            settle(&joint, split.opened, &mut picked);
            stack.push(joint.second_spot(split.opened, split.second));
            stack.push(joint.first_spot(split.opened, split.first));
        }
    }
    picked
}
