// A pick: the list that a solve hands out. The plan stays as it is while one stands. An issue: a pick that is ticked off.
ghost use Rattle.std.specs.Prelude.{◌≡◌, ℕ, true, is_some};
ghost use Rattle.plant.specs.Selections.{among, hours as hoursBy, gain as gainBy};
ghost use Rattle.plan.specs.Ledger.{stations_in, lines_in};

use crate::Plan;
use plant::selection::Selection;

pub mod work;

#[derive(Drop)]
pub struct Pick<'a> {
    plan: &'a Plan,
    selection: Selection,
    hours: u32,
    gain: i64,
    ghost filled: { is_some plan.now.filled ≡ true },
    ghost takes: { hours ≡ hoursBy (stations_in plan.now.filled) (among selection) },
    ghost gains: { gain ≡ gainBy (stations_in plan.now.filled) (lines_in plan.now.filled) (among selection) },
}

#[derive(Drop)]
pub struct Issue<'a> {
    plan: &'a Plan,
    selection: Selection,
    ticked: Selection,
    ghost filled: { is_some plan.now.filled ≡ true },
    ghost inside: { ((k : ℕ) → among ticked k ≡ true → among selection k ≡ true) },
}

// How many hours are ticked, and how many are still open.
#[derive(Clone, Copy, PartialEq, Eq, Debug)]
pub struct Progress {
    pub ticked: u32,
    pub open: u32,
}

// What an issue comes to: the stations ticked and those left open, and the hours of each.
#[derive(Clone, Copy, PartialEq, Eq, Debug)]
pub struct Done {
    pub ticked: Selection,
    pub open: Selection,
    pub hours: Progress,
}
