// The stations' table, the lines' table and the tree, in this order.
ghost use Rattle.std.specs.Prelude.{◌≡◌, ℕ, ◌<◌, ◌≤◌, length, MatchResult};
ghost use Rattle.texts.specs.Verdict.{Answers};

use plant::limits::{MAX_LINES, MAX_NODES, MAX_STATIONS};
use plant::records::{Line, Station};
use plant::refusal::{Part, Reason, Refusal};
use plant::table::Table;
use plant::tree::Node;
use rows::read::{read_lines, read_stations};
use rows::text::Text;

// What three texts write: a plant's records, and the nodes of its tree.
#[derive(Clone, Copy)]
pub struct Reading {
    pub stations: Table<Station, MAX_STATIONS>,
    pub lines: Table<Line, MAX_LINES>,
    pub nodes: Table<Node, MAX_NODES>,
}

fn within<'a>(text: &'a [u8], part: Part) -> Result<Text<'a>, Refusal>
    ensures { MatchResult result (λ t. t.bytes ≡ text.entry) (λ e. (65535 < length text.now) × (e ≡ record { reason = Reason.TextTooLong; part = part; place = 0 })) }
{
    Text::new(text).ok_or(part.refusal(Reason::TextTooLong, 0))
}

pub fn read(stations: &[u8], lines: &[u8], tree: &[u8]) -> Result<Reading, Refusal>
    ensures { Answers stations.now lines.now tree.now result }
{
    let stations_text = within(stations, Part::Stations)?;
    let lines_text = within(lines, Part::Lines)?;
    let tree_text = within(tree, Part::Tree)?;
    let stations = read_stations(stations_text)?;
    let lines = read_lines(lines_text, stations.count)?;
    let nodes = drawing::read(tree_text.bytes, stations.count, lines.as_slice())?;
    Ok(Reading {
        stations,
        lines,
        nodes,
    })
}
