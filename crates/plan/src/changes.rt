// The calls that change a plan.
ghost use Rattle.std.specs.Prelude.{◌≡◌};
ghost use Rattle.plan.specs.Ledger.{view, blank, Step, fill_call, set_call, hours_set, station_set, line_set, hold_set};
ghost use Rattle.plan.specs.Replies.{call_refused, in_gain};

use crate::{Filled, Plan};
use plant::limits::{MAX_GAIN, MAX_HOURS};
use plant::records::Hold;
use plant::refusal::{Part, Reason, Refusal};
use texts::read::Reading;

pub(crate) fn refuse(reason: Reason, place: u32) -> Refusal
    ensures { result ≡ call_refused reason place }
{
    Part::Call.refusal(reason, place)
}

fn is_gain(gain: i64) -> bool
    ensures { result ≡ in_gain gain }
{
    -MAX_GAIN <= gain && gain <= MAX_GAIN
}

// A set call begins alike: to lend out what a plan holds would take a clause on what becomes of it, which is no plainer.
impl Plan {
    pub fn blank() -> Plan
        ensures { view result ≡ blank }
    {
        Plan { filled: None }
    }

    // Takes the plant that three texts write in the place of all the plan held, with no hours.
    pub fn fill(&mut self, stations: &[u8], lines: &[u8], tree: &[u8]) -> Result<(), Refusal>
        ensures { Step self.old (fill_call stations.now lines.now tree.now) result self.new }
    {
        let Reading {
            stations,
            lines,
            nodes,
        } = texts::read::read(stations, lines, tree)?;
        let filled = Filled {
            stations,
            lines,
            nodes,
            budget: 0,
        };
        self.filled = Some(filled);
        Ok(())
    }

    pub fn set_hours(&mut self, hours: u32) -> Result<(), Refusal>
        ensures { Step self.old (set_call (hours_set hours)) result self.new }
    {
        let Some(filled) = &mut self.filled else {
            return Err(refuse(Reason::Blank, 0));
        };
        if hours > MAX_HOURS {
            return Err(refuse(Reason::OutOfRange, 0));
        }
        filled.budget = hours;
        Ok(())
    }

    // One station's hours, gain and urgent mark. Its hold stays.
    pub fn set_station(
        &mut self,
        station: u32,
        hours: u32,
        gain: i64,
        urgent: u32,
    ) -> Result<(), Refusal>
        ensures { Step self.old (set_call (station_set station hours gain urgent)) result self.new }
    {
        let Some(filled) = &mut self.filled else {
            return Err(refuse(Reason::Blank, 0));
        };
        let k = station as usize;
        if k >= filled.stations.count {
            return Err(refuse(Reason::NoSuchRecord, station));
        }
        if hours > MAX_HOURS {
            return Err(refuse(Reason::OutOfRange, 0));
        }
        if !is_gain(gain) {
            return Err(refuse(Reason::OutOfRange, 1));
        }
        if urgent > 1 {
            return Err(refuse(Reason::OutOfRange, 2));
        }
        let mut row = filled.stations.rows[k];
        row.hours = hours;
        row.gain = gain;
        row.urgent = urgent == 1;
        filled.stations.rows[k] = row;
        Ok(())
    }

    // One station's hold: 0 free, 1 open, 2 shut.
    pub fn set_hold(&mut self, station: u32, hold: u32) -> Result<(), Refusal>
        ensures { Step self.old (set_call (hold_set station hold)) result self.new }
    {
        let Some(filled) = &mut self.filled else {
            return Err(refuse(Reason::Blank, 0));
        };
        let k = station as usize;
        if k >= filled.stations.count {
            return Err(refuse(Reason::NoSuchRecord, station));
        }
        let Ok(hold) = Hold::try_from(hold) else {
            return Err(refuse(Reason::OutOfRange, 0));
        };
        filled.stations.rows[k].hold = hold;
        Ok(())
    }

    // One line's gain, which comes on top of those of its two stations.
    pub fn set_line(&mut self, line: u32, gain: i64) -> Result<(), Refusal>
        ensures { Step self.old (set_call (line_set line gain)) result self.new }
    {
        let Some(filled) = &mut self.filled else {
            return Err(refuse(Reason::Blank, 0));
        };
        let k = line as usize;
        if k >= filled.lines.count {
            return Err(refuse(Reason::NoSuchRecord, line));
        }
        if !is_gain(gain) {
            return Err(refuse(Reason::OutOfRange, 0));
        }
        filled.lines.rows[k].gain = gain;
        Ok(())
    }
}
