// Performs a script on a plan. A pick stands from its solve to its drop or issue, and an issue to its drop or end; while one stands, no
// call that could change the plan is in turn.
ghost use Rattle.std.specs.Prelude.{◌≡◌, ℕ, ◌+◌, ◌<◌, ◌≤◌, length, IfSome};

use crate::Plan;
use crate::pick::{Issue, Pick};
use crate::script::{Answer, Ending, Entry, Measure, SHEET_BYTES, SheetText};
use plant::limits::MAX_STATIONS;
use plant::refusal::Refusal;
use std::array;
use yardsticks::yardstick::Yardstick;

// A refusal is an answer too.
fn told(answer: Result<Answer, Refusal>) -> Answer {
    answer.unwrap_or_else(Answer::Refused)
}

// A call while no pick stands, other than a solve.
fn change(plan: &mut Plan, entry: Entry<'_>) -> Result<Answer, Refusal> {
    match entry {
        Entry::Fill {
            stations,
            lines,
            tree,
        } => {
            plan.fill(stations, lines, tree)?;
            return Ok(Answer::Filled {
                stations: plan.stations().len(),
                lines: plan.lines().len(),
            });
        }
        Entry::Hours(hours) => plan.set_hours(hours)?,
        Entry::Station {
            station,
            hours,
            gain,
            urgent,
        } => plan.set_station(station, hours, gain, urgent)?,
        Entry::Line { line, gain } => plan.set_line(line, gain)?,
        Entry::Hold { station, hold } => plan.set_hold(station, hold)?,
        _ => return Ok(Answer::OutOfTurn),
    }
    Ok(Answer::Accepted)
}

fn sheet(pick: &Pick<'_>, bytes: usize) -> Result<Answer, Refusal> {
    let room = bytes.min(SHEET_BYTES);
    let mut out = [0u8; SHEET_BYTES];
    let length = pick.sheet(&mut out[0..room])?;
    Ok(Answer::Sheet(SheetText { bytes: out, length }))
}

fn tick(issue: &mut Issue<'_>, station: u32) -> Result<Answer, Refusal> {
    Ok(Answer::Ticked(issue.tick(station)?))
}

// The hours of each station of the plan, and none past them.
fn hours_of(plan: &Plan) -> [u32; MAX_STATIONS] {
    let stations = plan.stations();
    array::from_fn(|k| stations.get(k).map_or(0, |station| station.hours))
}

fn end(issue: Issue<'_>) -> Answer {
    let hours = hours_of(issue.plan());
    Answer::Ended(Ending {
        done: issue.end(),
        hours,
    })
}

// A script's lines, with room for as many answers, and the line that comes next. An answer is written by index: of a slice that is written
// through an iterator a proof knows the length alone.
#[derive(Drop)]
struct Lines<'s, 'e, 'a> {
    script: &'s [Entry<'e>],
    answers: &'a mut [Answer],
    at: usize,
    ghost room: { length script.now ≤ length answers.now },
}

impl<'s, 'e, 'a> Lines<'s, 'e, 'a> {
    fn next(&self) -> Option<Entry<'e>>
        ensures { IfSome result (λ _. self.now.at < length self.now.script.now) }
    {
        self.script.get(self.at).copied()
    }

    // Answers the line that comes next, and passes it.
    fn answer(&mut self, answer: Answer)
        requires { self.old.at < length self.old.script.now }
        ensures same_reference { self.new.answers.ghost_name ≡ self.old.answers.ghost_name }
        ensures script { self.new.script ≡ self.old.script }
        ensures at { self.new.at ≡ self.old.at + 1 }
    {
        self.answers[self.at] = answer;
        self.at += 1;
    }
}

// The lines that follow, while an issue stands; the function after this one has other lines in turn, so one for both is no plainer.
fn while_issued(mut issue: Issue<'_>, lines: &mut Lines)
    ensures same_reference { lines.new.answers.ghost_name ≡ lines.old.answers.ghost_name }
    ensures script { lines.new.script ≡ lines.old.script }
    ensures at { lines.old.at ≤ lines.new.at }
{
    while let Some(entry) = lines.next() {
        match entry {
            Entry::Tick(station) => lines.answer(told(tick(&mut issue, station))),
            Entry::Drop => return lines.answer(Answer::Dropped),
            Entry::End => return lines.answer(end(issue)),
            _ => lines.answer(Answer::OutOfTurn),
        }
    }
}

// The lines that follow, while a pick stands.
fn while_picked(pick: Pick<'_>, lines: &mut Lines)
    ensures same_reference { lines.new.answers.ghost_name ≡ lines.old.answers.ghost_name }
    ensures script { lines.new.script ≡ lines.old.script }
    ensures at { lines.old.at ≤ lines.new.at }
{
    while let Some(entry) = lines.next() {
        match entry {
            Entry::Sheet { bytes } => lines.answer(told(sheet(&pick, bytes))),
            Entry::Drop => return lines.answer(Answer::Dropped),
            Entry::Issue => {
                lines.answer(Answer::Issued);
                return while_issued(pick.issue(), lines);
            }
            _ => lines.answer(Answer::OutOfTurn),
        }
    }
}

// Solves, as the next line asks, and goes on with what is done to the pick.
fn solve<Y: Yardstick>(plan: &Plan, y: &Y, cells: &mut [Option<Y::Figure>], lines: &mut Lines)
    requires { lines.old.at < length lines.old.script.now }
    ensures same_reference { lines.new.answers.ghost_name ≡ lines.old.answers.ghost_name }
    ensures script { lines.new.script ≡ lines.old.script }
    ensures at { lines.old.at < lines.new.at }
{
    match plan.solve(y, cells) {
        Err(refusal) => lines.answer(Answer::Refused(refusal)),
        Ok(pick) => {
            lines.answer(Answer::Picked {
                selection: pick.selection(),
                hours: pick.hours(),
                gain: pick.gain(),
            });
            while_picked(pick, lines);
        }
    }
}

// Performs as many lines as there is room for answers, and gives their number.
pub fn perform<A: Yardstick, B: Yardstick>(
    plan: &mut Plan,
    first: &A,
    first_cells: &mut [Option<A::Figure>],
    second: &B,
    second_cells: &mut [Option<B::Figure>],
    script: &[Entry<'_>],
    answers: &mut [Answer],
) -> usize {
    let count = script.len().min(answers.len());
    let mut lines = Lines {
        script: &script[0..count],
        answers,
        at: 0,
    };
    while let Some(entry) = lines.next() {
        match entry {
            Entry::Solve {
                by: Measure::First,
                cells,
            } => {
                let room = cells.min(first_cells.len());
                solve(plan, first, &mut first_cells[0..room], &mut lines);
            }
            Entry::Solve {
                by: Measure::Second,
                cells,
            } => {
                let room = cells.min(second_cells.len());
                solve(plan, second, &mut second_cells[0..room], &mut lines);
            }
            entry => lines.answer(told(change(plan, entry))),
        }
    }
    count
}
