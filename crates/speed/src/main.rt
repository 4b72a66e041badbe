// The largest plants, solved: their lists, and with the word `time` how long each took.
#![tactic(auto)]

use anyhow::anyhow;
use plan::Plan;
use plan::script::MOST_CELLS;
use std::alloc::{AllocError, Global};
use std::env;
use std::fmt::Write;
use std::time::Instant;
use yardsticks::money::Money;

const ROUNDS: usize = 5;

// A plant by the hours of its stations, from the lowest on.
#[derive(Clone, Copy)]
struct Case {
    name: &'static str,
    lowest: usize,
    spread: usize,
}

const CASES: [Case; 2] = [
    Case {
        name: "small-hours",
        lowest: 1,
        spread: 29,
    },
    Case {
        name: "large-hours",
        lowest: 40,
        spread: 900,
    },
];

impl Case {
    fn hours(&self, station: usize) -> usize {
        self.lowest
            .wrapping_add(station.wrapping_mul(37) % self.spread.max(1))
    }

    fn stations(&self, heap: Global) -> Result<String, AllocError> {
        let mut text = String::from_str(heap, "station,hours,gain,urgent,hold\r\n")?;
        for k in 0..64usize {
            let hours = self.hours(k);
            let gain = k * 7919 % 1000;
            write!(text, "{k},{hours},{gain},0,free\r\n")?;
        }
        Ok(text)
    }
}

// Two lines to each next station, and one more over the first two.
fn lines(heap: Global) -> Result<String, AllocError> {
    let mut text = String::from_str(heap, "line,from,to,gain\r\n")?;
    for k in 0..128usize {
        let from = if k < 126 { k / 2 } else { k - 126 };
        let to = from + 1;
        let gain = k * 104_729 % 500;
        write!(text, "{k},{from},{to},{gain}\r\n")?;
    }
    Ok(text)
}

// The lines from one station to the next, side by side.
fn hop(text: &mut String, k: usize) -> Result<(), AllocError> {
    let first = k.wrapping_mul(2);
    let second = first.wrapping_add(1);
    if k < 2 {
        let third = k + 126;
        write!(text, "(({first},{second})p,{third})p")
    } else {
        write!(text, "({first},{second})p")
    }
}

// So many hops in series, halved again and again.
fn stretch(text: &mut String, from: usize, hops: usize) -> Result<(), AllocError> {
    if hops < 2 {
        return hop(text, from);
    }
    let half = hops / 2;
    text.push('(')?;
    stretch(text, from, half)?;
    text.push(',')?;
    stretch(text, from.wrapping_add(half), hops - half)?;
    text.push_str(")s")
}

fn tree(heap: Global) -> Result<String, AllocError> {
    let mut text = String::new(heap);
    stretch(&mut text, 0, 63)?;
    text.push(';')?;
    Ok(text)
}

fn plan_of(heap: Global, case: &Case) -> anyhow::Result<Plan> {
    let stations = case.stations(heap)?;
    let lines = lines(heap)?;
    let tree = tree(heap)?;
    let mut plan = Plan::blank();
    plan.fill(stations.as_bytes(), lines.as_bytes(), tree.as_bytes())
        .and_then(|()| plan.set_hours(1_000))
        .map_err(|_| anyhow!("the plant is refused"))?;
    Ok(plan)
}

// Solves a plant in some rounds, and prints its list's hours and gain, and the time of the quickest.
fn solve(rt: &HostRuntime, case: &Case, timed: bool) -> anyhow::Result<()> {
    let plan = plan_of(rt.alloc(), case)?;
    let mut cells = vec![in rt.alloc(); None; MOST_CELLS]?;
    let mut quickest = u128::MAX;
    let mut answer = (0, 0);
    for _ in 0..ROUNDS {
        let start = Instant::now(rt)?;
        if let Ok(pick) = plan.solve(&Money, &mut cells) {
            answer = (pick.hours(), pick.gain());
        }
        quickest = quickest.min(start.elapsed(rt)?.as_micros());
    }
    let name = case.name;
    let (hours, gain) = answer;
    if timed {
        println!(rt; "{name} {hours} {gain} {quickest}")?;
    } else {
        println!(rt; "{name} {hours} {gain}")?;
    }
    Ok(())
}

fn main(rt: HostRuntime) -> anyhow::Result<()> {
    let timed = env::args(&rt)?.count() > 1;
    for case in &CASES {
        solve(&rt, case, timed)?;
    }
    Ok(())
}
