// Many small plants, every selection of each tried, compared with what the planner picks.
#![tactic(auto)]

use links::Links;
use plan::Plan;
use plan::pick::Pick;
use plant::refusal::Reason;
use random::Random;
use sample::Sample;
use std::alloc::{AllocError, Global};
use std::fmt;
use std::num::Saturating;
use truth::{Best, Ranked, best_of};
use yardsticks::figures::UrgentGain;
use yardsticks::money::Money;
use yardsticks::urgent::UrgentFirst;

mod growth;
mod links;
mod names;
mod random;
mod sample;
mod stations;
mod tree;
mod truth;

const SEED: u64 = 20_261_117;

const PLANTS: usize = 20_000;

const CELLS: usize = 4_000;

// The largest budget that is tried.
const MOST_HOURS: u32 = 30;

// What came of the comparisons.
#[derive(Clone, Copy, Default)]
struct Tally {
    plants: Saturating<usize>,
    unread: Saturating<usize>,
    solves: Saturating<usize>,
    picks: Saturating<usize>,
    nothing: Saturating<usize>,
    equals: Saturating<usize>,
    wrong: Saturating<usize>,
}

impl fmt::Display for Tally {
    fn fmt<W: fmt::Write>(&self, f: &mut fmt::Formatter<W>) -> fmt::Result {
        writeln!(f, "plants {}", self.plants)?;
        writeln!(f, "plants not accepted {}", self.unread)?;
        writeln!(f, "solves {}", self.solves)?;
        writeln!(f, "picks {}", self.picks)?;
        writeln!(f, "picks with equals {}", self.equals)?;
        writeln!(f, "nothing fits {}", self.nothing)?;
        writeln!(f, "wrong {}", self.wrong)
    }
}

// Whether a pick is just what trying every selection finds.
fn agrees(pick: &Pick<'_>, best: &Best) -> bool {
    let same = pick
        .selection()
        .open
        .iter()
        .enumerate()
        .all(|(k, open)| *open == best.selection.has(k));
    same && pick.hours() == best.totals.hours && pick.gain() == best.totals.gain
}

impl Tally {
    // Solves the plant by a yardstick, and counts what came of it.
    fn solve<Y: Ranked>(
        &mut self,
        plan: &Plan,
        sample: &Sample,
        y: &Y,
        cells: &mut [Option<Y::Figure>],
    ) {
        self.solves += 1;
        let right = match (plan.solve(y, cells), best_of(sample, y, plan.budget())) {
            (Ok(pick), Some(best)) => {
                self.picks += 1;
                if best.ties > 0 {
                    self.equals += 1;
                }
                agrees(&pick, &best)
            }
            (Err(refusal), None) => {
                self.nothing += 1;
                refusal.reason == Reason::NothingFits
            }
            _ => false,
        };
        if !right {
            self.wrong += 1;
        }
    }
}

// A planner, the cells that it solves over, and what came of the plants so far.
#[derive(Drop)]
struct Bench {
    plan: Plan,
    cells: Vec<Option<i64>>,
    urgent_cells: Vec<Option<UrgentGain>>,
    tally: Tally,
}

impl Bench {
    fn new(heap: Global) -> Result<Bench, AllocError> {
        Ok(Bench {
            plan: Plan::blank(),
            cells: vec![in heap; None; CELLS]?,
            urgent_cells: vec![in heap; None; CELLS]?,
            tally: Tally::default(),
        })
    }

    // Solves a plant at each budget by each yardstick.
    fn compare(&mut self, sample: &Sample) {
        for budget in 0..=sample.hours().min(MOST_HOURS) {
            if self.plan.set_hours(budget).is_err() {
                self.tally.wrong += 1;
            }
            self.tally
                .solve(&self.plan, sample, &Money, &mut self.cells);
            self.tally
                .solve(&self.plan, sample, &Links, &mut self.cells);
            self.tally
                .solve(&self.plan, sample, &UrgentFirst, &mut self.urgent_cells);
        }
    }

    fn add(&mut self, heap: Global, sample: &Sample) -> Result<(), AllocError> {
        let stations = sample.stations(heap)?;
        let lines = sample.lines(heap)?;
        self.tally.plants += 1;
        if self
            .plan
            .fill(
                stations.as_bytes(),
                lines.as_bytes(),
                sample.tree.as_bytes(),
            )
            .is_ok()
        {
            self.compare(sample);
        } else {
            self.tally.unread += 1;
        }
        Ok(())
    }
}

fn main(rt: HostRuntime) -> anyhow::Result<()> {
    let heap = rt.alloc();
    let mut random = Random::new(SEED);
    let mut bench = Bench::new(heap)?;
    for _ in 0..PLANTS {
        let steps = random.below(12);
        let sample = Sample::draw(heap, &mut random, 8, steps)?;
        bench.add(heap, &sample)?;
    }
    let tally = bench.tally;
    print!(rt; "{tally}")?;
    Ok(())
}
