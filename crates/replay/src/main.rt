// A script of calls on standard input, their answers on standard output.
#![tactic(auto)]

use order::{ScriptLine, read_script};
use plan::Plan;
use plan::script::perform::perform;
use plan::script::{Answer, Entry, MOST_CELLS};
use std::alloc::{AllocError, Global};
use std::io;
use std::io::Read;
use yardsticks::money::Money;
use yardsticks::urgent::UrgentFirst;

mod folder;
mod order;
mod tell;

fn answers(heap: Global, calls: &[Entry<'_>]) -> Result<Vec<Answer>, AllocError> {
    let mut answers = vec![in heap; Answer::Unasked; calls.len()]?;
    let mut cells = vec![in heap; None; MOST_CELLS]?;
    let mut urgent_cells = vec![in heap; None; MOST_CELLS]?;
    let mut plan = Plan::blank();
    perform(
        &mut plan,
        &Money,
        &mut cells,
        &UrgentFirst,
        &mut urgent_cells,
        calls,
        &mut answers,
    );
    Ok(answers)
}

fn tell_all(rt: &HostRuntime, script: &[ScriptLine], answers: &[Answer]) -> io::Result<()> {
    let mut answers = answers.iter();
    for line in script {
        if line.order.is_none() {
            tell::tell_unread(rt, line.number)?;
        } else if let Some(answer) = answers.next() {
            tell::tell(rt, line.number, answer)?;
        }
    }
    Ok(())
}

// The calls of the script, in order; by a loop, since a chain of what borrows from the script is not proved yet.
fn calls<'a>(heap: Global, script: &'a [ScriptLine]) -> Result<Vec<Entry<'a>>, AllocError> {
    let mut calls = Vec::new(heap);
    for line in script {
        if let Some(order) = &line.order {
            calls.push(order.call())?;
        }
    }
    Ok(calls)
}

fn play(rt: &HostRuntime, script: &[ScriptLine]) -> anyhow::Result<()> {
    let calls = calls(rt.alloc(), script)?;
    let answers = answers(rt.alloc(), &calls)?;
    tell_all(rt, script, &answers)?;
    Ok(())
}

fn main(rt: HostRuntime) -> anyhow::Result<()> {
    let mut input = Vec::new(rt.alloc());
    rt.stdin().read_to_end(&mut input)?;
    let script = read_script(&rt, &input)?;
    play(&rt, &script)
}
