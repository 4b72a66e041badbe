// Three files and a budget of hours: the best list, printed.
#![tactic(auto)]

use plan::Plan;
use plan::script::SHEET_BYTES;
use plan::sheet::{LINE_BYTES, refusal_line};
use plant::refusal::{Part, Reason, Refusal};
use std::io::{Read, Write};
use std::process::ExitCode;
use std::{fs, io};
use tables::numbers::natural;
use yardsticks::money::Money;

const CELLS: usize = 3_100;

const LONGEST_TEXT: usize = 4_096;

// A file that cannot be read counts as no bytes. The libraries reach no files, so each program has this.
fn file(rt: &HostRuntime, path: &str) -> Vec<u8> {
    fs::read(rt, path).unwrap_or_else(|_| Vec::new(rt.alloc()))
}

// A text of the plant, which must not be too long for this program: its limit is not the library's.
fn within(text: &[u8], part: Part) -> Result<&[u8], Refusal> {
    if text.len() > LONGEST_TEXT {
        return Err(part.refusal(Reason::TextTooLong, 0));
    }
    Ok(text)
}

fn fill(plan: &mut Plan, stations: &[u8], lines: &[u8], tree: &[u8]) -> Result<(), Refusal> {
    plan.fill(
        within(stations, Part::Stations)?,
        within(lines, Part::Lines)?,
        within(tree, Part::Tree)?,
    )
}

// The budget is a number, with a line feed after it or not.
fn set_budget(plan: &mut Plan, input: &[u8]) -> Result<(), Refusal> {
    let digits = input.strip_suffix(b"\n").unwrap_or(input);
    let hours = natural(digits).ok_or(Part::Call.refusal(Reason::OutOfRange, 0))?;
    plan.set_hours(hours)
}

// Why there is no list.
#[derive(Drop)]
enum Trouble {
    Refused(Refusal),
    Io(io::Error),
}

impl From<Refusal> for Trouble {
    fn from(refusal: Refusal) -> Trouble {
        Trouble::Refused(refusal)
    }
}

impl From<io::Error> for Trouble {
    fn from(error: io::Error) -> Trouble {
        Trouble::Io(error)
    }
}

fn read_plan(rt: &HostRuntime) -> Result<Plan, Trouble> {
    let mut plan = Plan::blank();
    let stations = file(rt, "stations.csv");
    let lines = file(rt, "lines.csv");
    let tree = file(rt, "tree.nwk");
    fill(&mut plan, &stations, &lines, &tree)?;
    let mut input = Vec::new(rt.alloc());
    rt.stdin().read_to_end(&mut input)?;
    set_budget(&mut plan, &input)?;
    Ok(plan)
}

fn print_list(rt: &HostRuntime, plan: &Plan, cells: &mut [Option<i64>]) -> Result<(), Trouble> {
    let pick = plan.solve(&Money, cells)?;
    let mut out = [0u8; SHEET_BYTES];
    let length = pick.sheet(&mut out)?;
    rt.stdout().write_all(&out[..length])?;
    Ok(())
}

fn work(rt: &HostRuntime, cells: &mut [Option<i64>]) -> Result<(), Trouble> {
    let plan = read_plan(rt)?;
    print_list(rt, &plan, cells)
}

// The refusal's line on the standard output, and its meaning on the standard error. The libraries print nothing, so each program has this.
fn print_refusal(rt: &HostRuntime, refusal: Refusal) -> io::Result<()> {
    let mut out = [0u8; LINE_BYTES];
    if let Ok(length) = refusal_line(&refusal, &mut out) {
        rt.stdout().write_all(&out[..length])?;
    }
    eprintln!(rt; "{refusal}")
}

fn main(rt: HostRuntime) -> anyhow::Result<ExitCode> {
    let mut cells = vec![in rt.alloc(); None; CELLS]?;
    match work(&rt, &mut cells) {
        Ok(()) => Ok(ExitCode::SUCCESS),
        Err(Trouble::Refused(refusal)) => {
            print_refusal(&rt, refusal)?;
            Ok(ExitCode::FAILURE)
        }
        Err(Trouble::Io(error)) => Err(error.into()),
    }
}
