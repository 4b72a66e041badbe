// Scripts: calls as data, and the answers to them.
use crate::pick::{Done, Progress};
use plant::limits::MAX_STATIONS;
use plant::refusal::Refusal;
use plant::selection::Selection;

pub mod perform;

// Which of two yardsticks a solve goes by. No closure: the two yardsticks are two types.
#[derive(Clone, Copy, PartialEq, Eq, Debug)]
pub enum Measure {
    First,
    Second,
}

// Any number is a call, which may be refused.
#[derive(Clone, Copy)]
pub enum Entry<'a> {
    Fill {
        stations: &'a [u8],
        lines: &'a [u8],
        tree: &'a [u8],
    },
    Hours(u32),
    Station {
        station: u32,
        hours: u32,
        gain: i64,
        urgent: u32,
    },
    Line {
        line: u32,
        gain: i64,
    },
    Hold {
        station: u32,
        hold: u32,
    },
    Solve {
        by: Measure,
        cells: usize,
    },
    Sheet {
        bytes: usize,
    },
    Issue,
    Drop,
    Tick(u32),
    End,
}

// Longer than any sheet: a header, 64 stations and a total.
pub const SHEET_BYTES: usize = 1_400;

// What the largest plant at the largest budget needs.
pub const MOST_CELLS: usize = 1_021_020;

// A sheet as it was written: a buffer with its length, no plainer as a vector, since a sheet is written into a slice.
#[derive(Clone, Copy)]
pub struct SheetText {
    pub bytes: [u8; SHEET_BYTES],
    pub length: usize,
}

// What an issue came to, with the hours of each station of the plan at that time.
#[derive(Clone, Copy)]
pub struct Ending {
    pub done: Done,
    pub hours: [u32; MAX_STATIONS],
}

// Unasked stands in the memory that is lent for answers until a line is answered.
#[derive(Clone, Copy)]
pub enum Answer {
    Unasked,
    OutOfTurn,
    Filled {
        stations: usize,
        lines: usize,
    },
    Accepted,
    Picked {
        selection: Selection,
        hours: u32,
        gain: i64,
    },
    Sheet(SheetText),
    Issued,
    Dropped,
    Ticked(Progress),
    Ended(Ending),
    Refused(Refusal),
}
