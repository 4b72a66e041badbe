// How large a plant, its figures and its texts may be.
pub const MIN_STATIONS: usize = 2;

pub const MAX_STATIONS: usize = 64;

pub const MIN_LINES: usize = 1;

pub const MAX_LINES: usize = 128;

// A tree with a leaf for each line has one join fewer.
pub const MAX_NODES: usize = 255;

// Of one station, and of the budget.
pub const MAX_HOURS: u32 = 1_000;

// Of one station or line, with either sign.
pub const MAX_GAIN: i64 = 1_000_000_000;

pub const MAX_TEXT: usize = 65_535;

// Brackets of a tree text that may stand open at once.
pub const MAX_BRACKETS: usize = 127;

// Entries of a stack: one for each open bracket, and one more.
pub const STACK_ENTRIES: usize = 128;
