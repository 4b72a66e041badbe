// Solving a plan, and ticking off what was picked.
ghost use Rattle.std.specs.Prelude.{◌≡◌, ℕ, ◌+◌, ◌<◌, ◌≤◌, true, false, not, length, is_some};
ghost use Rattle.plant.specs.Selections.{among, hours as hoursBy};
ghost use Rattle.plan.specs.Ledger.{view, stations_in, lines_in, nodes_in, budget_in};
ghost use Rattle.plan.specs.Solves.{Solved, Left, IsLent};
ghost use Rattle.plan.specs.Issues.{Issued, Ticked, Ended, Adds, still_open, stations};

use crate::changes::refuse;
use crate::pick::{Done, Issue, Pick, Progress};
use crate::{Filled, Plan};
use plant::records::{Line, Station};
use plant::refusal::{Reason, Refusal};
use plant::selection::Selection;
use plant::site::Plant;
use plant::tree::Node;
use yardsticks::measure::money_of;
use yardsticks::yardstick::Yardstick;

// What a plan holds, and what a blank one has of it. A match each: one function over all would hand on a closure.
impl Plan {
    pub fn is_blank(&self) -> bool
        ensures { result ≡ not (is_some self.now.filled) }
    {
        self.filled.is_none()
    }

    pub fn stations(&self) -> &[Station]
        ensures { result.now ≡ stations_in self.now.filled }
    {
        match &self.filled {
            Some(filled) => filled.stations.as_slice(),
            None => &[],
        }
    }

    pub fn lines(&self) -> &[Line]
        ensures { result.now ≡ lines_in self.now.filled }
    {
        match &self.filled {
            Some(filled) => filled.lines.as_slice(),
            None => &[],
        }
    }

    // The nodes of the tree, in the order in which their text was completed.
    pub fn nodes(&self) -> &[Node]
        ensures { result.now ≡ nodes_in self.now.filled }
    {
        match &self.filled {
            Some(filled) => filled.nodes.as_slice(),
            None => &[],
        }
    }

    pub fn budget(&self) -> u32
        ensures { result ≡ budget_in self.now.filled }
    {
        match &self.filled {
            Some(filled) => filled.budget,
            None => 0,
        }
    }

    // The best list by the yardstick, or why there is none.
    pub fn solve<Y: Yardstick>(
        &self,
        y: &Y,
        cells: &mut [Option<Y::Figure>],
    ) -> Result<Pick<'_>, Refusal>
        ensures answer { Solved Y.Yardstick.nil Y.Yardstick.plus Y.Yardstick.above Y.Yardstick.station Y.Yardstick.line self.now (length cells.old) result }
        ensures cells { Left Y.Yardstick.nil Y.Yardstick.plus Y.Yardstick.above Y.Yardstick.station Y.Yardstick.line (view self.now) cells.old cells.new }
    {
        let Some(filled) = &self.filled else {
            return Err(refuse(Reason::Blank, 0));
        };
        let plant = filled.lent();
        let selection = solver::solve::solve(&plant, y, cells)?;
        Ok(Pick {
            plan: self,
            selection,
            hours: selection.hours(plant.stations),
            gain: money_of(plant.stations, plant.lines, &selection),
        })
    }
}

impl Filled {
    fn lent(&self) -> Plant<'_>
        ensures { IsLent self.now result }
    {
        Plant {
            stations: self.stations.as_slice(),
            lines: self.lines.as_slice(),
            nodes: self.nodes.as_slice(),
            budget: self.budget,
        }
    }
}

impl<'a> Pick<'a> {
    pub fn plan(&self) -> &'a Plan
        ensures { result.now ≡ self.now.plan.now }
    {
        self.plan
    }

    pub fn selection(&self) -> Selection
        ensures { result ≡ self.now.selection }
    {
        self.selection
    }

    pub fn hours(&self) -> u32
        ensures { result ≡ self.now.hours }
    {
        self.hours
    }

    pub fn gain(&self) -> i64
        ensures { result ≡ self.now.gain }
    {
        self.gain
    }

    // Begins to work the list: all of it is open.
    pub fn issue(self) -> Issue<'a>
        ensures { Issued self.entry result }
    {
        Issue {
            plan: self.plan,
            selection: self.selection,
            ticked: Selection::none(),
        }
    }
}

impl<'a> Issue<'a> {
    pub fn plan(&self) -> &'a Plan
        ensures { result.now ≡ self.now.plan.now }
    {
        self.plan
    }

    pub fn selection(&self) -> Selection
        ensures { result ≡ self.now.selection }
    {
        self.selection
    }

    pub fn ticked(&self) -> Selection
        ensures { result ≡ self.now.ticked }
    {
        self.ticked
    }

    fn progress(&self) -> Progress
        ensures adds { Adds self.now result }
        ensures left { (s : Selection) → ((k : ℕ) → among s k ≡ still_open self.now k) → result.open ≡ hoursBy (stations self.now) (among s) }
    {
        let left = self.selection.without(&self.ticked);
        Progress {
            ticked: self.ticked.hours(self.plan.stations()),
            open: left.hours(self.plan.stations()),
        }
    }

    // Marks one of the list's stations as done.
    pub fn tick(&mut self, station: u32) -> Result<Progress, Refusal>
        ensures { Ticked self.old station result self.new }
    {
        let k = station as usize;
        if k >= self.plan.stations().len() {
            return Err(refuse(Reason::NoSuchRecord, station));
        }
        if !self.selection.has(k) || self.ticked.has(k) {
            return Err(refuse(Reason::NotOpen, station));
        }
        self.ticked = self.ticked.with(k);
        Ok(self.progress())
    }

    // Ends the work on the list.
    pub fn end(self) -> Done
        ensures { Ended self.entry result }
    {
        Done {
            ticked: self.ticked,
            open: self.selection.without(&self.ticked),
            hours: self.progress(),
        }
    }
}
