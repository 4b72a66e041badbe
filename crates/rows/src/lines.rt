// The lines' table.
ghost use Rattle.std.specs.Prelude.{◌≡◌, ℕ, ◌+◌, ◌<◌, ◌≤◌};
ghost use Rattle.tables.specs.Fields.{part_bytes};
ghost use Rattle.rows.specs.Lines.{apart, lines as lineRules};
ghost use Rattle.rows.specs.LineRow;

use crate::fields::*;
use crate::kind::Kind;
use plant::limits::{MAX_LINES, MIN_LINES};
use plant::records::Line;
use plant::refusal::Reason;

// The rows of lines between so many stations.
#[derive(Clone, Copy)]
pub struct LineRows {
    pub stations: usize,
    ghost few: { stations ≤ 64 },
}

// Whether the two are different stations of so many.
fn are_ends(stations: usize, from: usize, to: usize) -> bool
    ensures { result ≡ apart stations from to }
{
    from < stations && to < stations && from != to
}

impl Kind for LineRows {
    type Row = Line;

    const LEAST: usize = MIN_LINES;

    const MOST: usize = MAX_LINES;

    ghost LEAST = { 1 };

    ghost MOST = { 128 };

    ghost rules = { λ s. lineRules s.stations };

    ghost lawful = { λ s. LineRow.lawful s.stations };

    fn is_header(&self, fields: &[&[u8]]) -> bool {
        let [row, from, to, gain] = fields else {
            return false;
        };
        is(row, "line") && is(from, "from") && is(to, "to") && is(gain, "gain")
    }

    fn row(&self, k: usize, fields: &[&[u8]]) -> Result<Line, Reason> {
        let [row, from, to, gain] = fields else {
            return Err(Reason::FieldCount);
        };
        let row = number(row).ok_or(Reason::FieldForm)?;
        let from = number(from).ok_or(Reason::FieldForm)? as usize;
        let to = number(to).ok_or(Reason::FieldForm)? as usize;
        let gain = gain_of(gain).ok_or(Reason::FieldForm)?;
        if row as usize + 1 != k {
            return Err(Reason::RowNumber);
        }
        if are_ends(self.stations, from, to) {
            Ok(Line { from, to, gain })
        } else {
            Err(Reason::LineEnds)
        }
    }
}
