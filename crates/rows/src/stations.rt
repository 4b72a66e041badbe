// The stations' table.
ghost use Rattle.std.specs.Prelude.{◌≡◌, ℕ, ◌+◌, ◌<◌, ◌≤◌};
ghost use Rattle.tables.specs.Fields.{part_bytes};
ghost use Rattle.rows.specs.Stations.{stations as stationRules};
ghost use Rattle.rows.specs.StationRow;

use crate::fields::*;
use crate::kind::Kind;
use plant::limits::{MAX_STATIONS, MIN_STATIONS};
use plant::records::Station;
use plant::refusal::Reason;

#[derive(Clone, Copy)]
pub struct StationRows;

impl Kind for StationRows {
    type Row = Station;

    const LEAST: usize = MIN_STATIONS;

    const MOST: usize = MAX_STATIONS;

    ghost LEAST = { 2 };

    ghost MOST = { 64 };

    ghost rules = { λ _. stationRules };

    ghost lawful = { λ _. StationRow.lawful };

    fn is_header(&self, fields: &[&[u8]]) -> bool {
        let [row, hours, gain, urgent, hold] = fields else {
            return false;
        };
        is(row, "station")
            && is(hours, "hours")
            && is(gain, "gain")
            && is(urgent, "urgent")
            && is(hold, "hold")
    }

    fn row(&self, k: usize, fields: &[&[u8]]) -> Result<Station, Reason> {
        let [row, hours, gain, urgent, hold] = fields else {
            return Err(Reason::FieldCount);
        };
        let row = number(row).ok_or(Reason::FieldForm)?;
        let hours = hours_of(hours).ok_or(Reason::FieldForm)?;
        let gain = gain_of(gain).ok_or(Reason::FieldForm)?;
        let urgent = mark_of(urgent).ok_or(Reason::FieldForm)?;
        let hold = hold_of(hold).ok_or(Reason::FieldForm)?;
        if row as usize + 1 != k {
            return Err(Reason::RowNumber);
        }
        Ok(Station {
            hours,
            gain,
            urgent,
            hold,
        })
    }
}
