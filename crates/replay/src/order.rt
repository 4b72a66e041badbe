// One line of a script, and what it orders.
use crate::folder::Texts;
use number::{gain, number};
use plan::script::{Entry, MOST_CELLS, Measure, SHEET_BYTES};
use plant::records::Hold;
use std::alloc::AllocError;

pub mod number;

// A fill names a folder, and brings its texts; every other call is complete as it stands.
#[derive(Drop)]
pub enum Order {
    Fill(Texts),
    Call(Entry<'static>),
}

impl Order {
    pub fn call(&self) -> Entry<'_> {
        match self {
            Order::Fill(texts) => texts.fill(),
            Order::Call(entry) => *entry,
        }
    }
}

// A line of the script by its number, with its order where it can be read.
#[derive(Drop)]
pub struct ScriptLine {
    pub number: usize,
    pub order: Option<Order>,
}

// The number of a hold. Any number is a call, which the plan may refuse. The tables' reader of these words goes by bytes and is its crate's.
fn hold(word: &str) -> Option<u32> {
    match word {
        "free" => Some(Hold::Free as u32),
        "open" => Some(Hold::Open as u32),
        "shut" => Some(Hold::Shut as u32),
        _ => number(word),
    }
}

// The words are this program's and the measure is the library's, so a function has no plainer form.
fn measure(word: &str) -> Option<Measure> {
    match word {
        "money" => Some(Measure::First),
        "urgent-first" => Some(Measure::Second),
        _ => None,
    }
}

fn station(words: &[&str]) -> Option<Entry<'static>> {
    let [_, station, hours, amount, urgent] = words else {
        return None;
    };
    Some(Entry::Station {
        station: number(station)?,
        hours: number(hours)?,
        gain: gain(amount)?,
        urgent: number(urgent)?,
    })
}

fn solve(words: &[&str]) -> Option<Entry<'static>> {
    match words {
        [_, by] => Some(Entry::Solve {
            by: measure(by)?,
            cells: MOST_CELLS,
        }),
        [_, by, cells] => Some(Entry::Solve {
            by: measure(by)?,
            cells: number(cells)? as usize,
        }),
        _ => None,
    }
}

fn sheet(words: &[&str]) -> Option<Entry<'static>> {
    match words {
        [_] => Some(Entry::Sheet { bytes: SHEET_BYTES }),
        [_, bytes] => Some(Entry::Sheet {
            bytes: number(bytes)? as usize,
        }),
        _ => None,
    }
}

// A call of one or two words more.
fn short(words: &[&str]) -> Option<Entry<'static>> {
    match words {
        ["hours", hours] => Some(Entry::Hours(number(hours)?)),
        ["line", line, amount] => Some(Entry::Line {
            line: number(line)?,
            gain: gain(amount)?,
        }),
        ["hold", station, state] => Some(Entry::Hold {
            station: number(station)?,
            hold: hold(state)?,
        }),
        ["tick", station] => Some(Entry::Tick(number(station)?)),
        ["issue"] => Some(Entry::Issue),
        ["drop"] => Some(Entry::Drop),
        ["end"] => Some(Entry::End),
        _ => None,
    }
}

fn call(words: &[&str]) -> Option<Entry<'static>> {
    match words {
        ["station", ..] => station(words),
        ["solve", ..] => solve(words),
        ["sheet", ..] => sheet(words),
        _ => short(words),
    }
}

fn order_of(rt: &HostRuntime, line: &str) -> Result<Option<Order>, AllocError> {
    let words: Vec<&str> = line.split(' ').collect(rt.alloc())?;
    match words.as_slice() {
        ["fill", folder] => Ok(Some(Order::Fill(Texts::read(rt, folder)?))),
        words => Ok(call(words).map(Order::Call)),
    }
}

// The order of a line; an empty one and a comment are passed over.
fn line_of(rt: &HostRuntime, number: usize, line: &[u8]) -> Result<Option<ScriptLine>, AllocError> {
    let line = line.strip_suffix(b"\r").unwrap_or(line);
    if matches!(line, [] | [b'#', ..]) {
        return Ok(None);
    }
    let order = match std::str::from_utf8(line) {
        Ok(text) => order_of(rt, text)?,
        Err(_) => None,
    };
    Ok(Some(ScriptLine { number, order }))
}

// The lines of a script that order something or cannot be read, numbered from 1.
pub fn read_script(rt: &HostRuntime, input: &[u8]) -> Result<Vec<ScriptLine>, AllocError> {
    let mut script = Vec::new(rt.alloc());
    for (above, line) in input.split(|b| *b == b'\n').enumerate() {
        if let Some(line) = line_of(rt, above.saturating_add(1), line)? {
            script.push(line)?;
        }
    }
    Ok(script)
}
