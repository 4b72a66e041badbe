// A whole table, of any kind.
ghost use Rattle.std.specs.Prelude.{◌≡◌, ℕ, ◌+◌, ◌<◌, ◌≤◌, length, IfOk};
ghost use Rattle.plant.specs.Records.{StationsInRange, LinesInRange, LinesBetween};
ghost use Rattle.plant.specs.Tables.{listed};
ghost use Rattle.rows.specs.Lines.{lines as lineRules};
ghost use Rattle.rows.specs.Stations.{stations as stationRules};
ghost use Rattle.rows.specs.Verdict.{Agrees, NextRecord};

use crate::kind::Kind;
use crate::lines::LineRows;
use crate::stations::StationRows;
use crate::text::Text;
use plant::limits::{MAX_LINES, MAX_STATIONS};
use plant::records::{Line, Station};
use plant::refusal::{Part, Reason, Refusal};
use plant::table::Table;
use tables::grammar::{Fields, Records};

// The next record, or the refusal of a byte that the grammar does not allow.
fn next_fields<'a>(records: &mut Records<'a>, part: Part) -> Result<Fields<'a>, Refusal>
    requires { length records.old.src.now ≤ 65535 }
    ensures { NextRecord part records.old records.new result }
{
    records.next_record().map_err(|fault| part.refusal(Reason::TableGrammar, fault.place as u32))
}

// The rows that the text writes, or its first fault.
pub fn read<K: Kind, const N: usize>(
    kind: &K,
    part: Part,
    text: Text<'_>,
) -> Result<Table<K::Row, N>, Refusal>
    requires room { K.Kind.MOST ≡ N }
    requires few { N < 65535 }
    ensures { Agrees (K.Kind.rules kind.now) part text.entry.bytes.now result }
{
    let mut records = Records::new(text.bytes);
    let header = next_fields(&mut records, part)?;
    if !kind.is_header(header.as_slice()) {
        return Err(part.refusal(Reason::FieldCount, 0));
    }
    let mut rows = Table::new(K::Row::default());
    while !records.is_over() {
        let fields = next_fields(&mut records, part)?;
        let k = rows.count + 1;
        let row = kind
            .judge(k, fields.as_slice())
            .map_err(|reason| part.refusal(reason, k as u32))?;
        // There is room: no row past the most is judged fine.
        rows.push(row);
    }
    if rows.count < K::LEAST {
        return Err(part.refusal(Reason::RowCount, rows.count as u32));
    }
    Ok(rows)
}

// The two kinds by name, since each promises ranges of its own.
// The stations of a table's text, or its first fault.
pub fn read_stations(text: Text<'_>) -> Result<Table<Station, MAX_STATIONS>, Refusal>
    ensures verdict { Agrees stationRules Part.Stations text.entry.bytes.now result }
    ensures range { IfOk result (λ t. StationsInRange (listed t) × (2 ≤ length (listed t))) }
{
    read(&StationRows, Part::Stations, text)
}

// The lines of a table's text, between so many stations, or its first fault.
pub fn read_lines(text: Text<'_>, stations: usize) -> Result<Table<Line, MAX_LINES>, Refusal>
    requires { stations ≤ 64 }
    ensures verdict { Agrees (lineRules stations) Part.Lines text.entry.bytes.now result }
    ensures range { IfOk result (λ t. LinesInRange (listed t) × LinesBetween stations (listed t) × (1 ≤ length (listed t))) }
{
    read(&LineRows { stations }, Part::Lines, text)
}
