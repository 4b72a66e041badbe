// Small plants drawn at random, with all that a plain enumeration needs to know of them.
use crate::growth::{Growth, Leaf};
use crate::names::{Names, shuffled};
use crate::random::Random;
use crate::tree::{Tree, Turn};
use anyhow::Context;
use plant::records::Hold;
use std::alloc::{AllocError, Global};
use std::fmt;
use std::fmt::Write;

// A station. A type of this program's, so that it can display itself as a row; and so a line.
#[derive(Clone, Copy)]
pub struct Spot {
    pub hours: u32,
    pub gain: i64,
    pub urgent: bool,
    pub hold: Hold,
}

#[derive(Clone, Copy)]
pub struct Wire {
    pub line: usize,
    pub from: usize,
    pub to: usize,
    pub gain: i64,
}

// A plant: its stations and lines by number, its joins from the root on, first halves before second ones, and its tree's text.
#[derive(Drop)]
pub struct Sample {
    pub spots: Vec<Spot>,
    pub wires: Vec<Wire>,
    pub turns: Vec<Turn>,
    pub tree: String,
}

fn any_gain(random: &mut Random) -> i64 {
    random.below(9) as i64 - 3
}

impl Spot {
    fn any(random: &mut Random) -> Spot {
        let hold = match random.below(12) {
            0 => Hold::Open,
            1 => Hold::Shut,
            _ => Hold::Free,
        };
        Spot {
            hours: random.below(4) as u32,
            gain: any_gain(random),
            urgent: random.below(3) == 0,
            hold,
        }
    }
}

// Its record, after its number.
impl fmt::Display for Spot {
    fn fmt<W: fmt::Write>(&self, f: &mut fmt::Formatter<W>) -> fmt::Result {
        let Spot {
            hours,
            gain,
            urgent,
            hold,
        } = *self;
        let urgent = u8::from(urgent);
        // The words are not taken from the library, which this program is to try.
        let hold = match hold {
            Hold::Free => "free",
            Hold::Open => "open",
            Hold::Shut => "shut",
        };
        write!(f, "{hours},{gain},{urgent},{hold}")
    }
}

impl fmt::Display for Wire {
    fn fmt<W: fmt::Write>(&self, f: &mut fmt::Formatter<W>) -> fmt::Result {
        let Wire {
            line,
            from,
            to,
            gain,
        } = *self;
        write!(f, "{line},{from},{to},{gain}")
    }
}

// The line of a leaf.
fn wire_of(random: &mut Random, line: usize, leaf: Leaf, names: &Names) -> Wire {
    Wire {
        line,
        from: names.of(leaf.left),
        to: names.of(leaf.right),
        gain: any_gain(random),
    }
}

impl Sample {
    // A plant of at most so many stations.
    pub fn draw(
        heap: Global,
        random: &mut Random,
        stations: usize,
        steps: usize,
    ) -> anyhow::Result<Sample> {
        let growth = Growth::grow(heap, random, stations, steps)?;
        let names = Names::draw(heap, random, growth.stations)?;
        let lines = shuffled(heap, random, growth.splits.len().saturating_add(1))?;
        let mut lines = lines.iter();
        let mut wires = Vec::new(heap);
        let mut trees = Vec::new(heap);
        for leaf in &growth.leaves {
            trees.push(match leaf {
                Some(leaf) => {
                    let line = lines.next().copied().unwrap_or(0);
                    wires.push(wire_of(random, line, *leaf, &names))?;
                    Some(Tree::Leaf(line))
                }
                None => None,
            })?;
        }
        wires.sort_unstable_by_key(|wire| wire.line);
        let tree = growth
            .joined(heap, &names, trees)?
            .context("a drawing is one tree")?;
        let mut turns = Vec::new(heap);
        tree.turns(&mut turns)?;
        let mut spots = Vec::new(heap);
        for _ in 0..growth.stations {
            spots.push(Spot::any(random))?;
        }
        Ok(Sample {
            spots,
            wires,
            turns,
            tree: format!(in heap; "{tree};")?,
        })
    }

    // The text of its stations.
    pub fn stations(&self, heap: Global) -> Result<String, AllocError> {
        let mut text = String::from_str(heap, "station,hours,gain,urgent,hold\r\n")?;
        for (k, spot) in self.spots.iter().enumerate() {
            write!(text, "{k},{spot}\r\n")?;
        }
        Ok(text)
    }

    // The text of its lines.
    pub fn lines(&self, heap: Global) -> Result<String, AllocError> {
        let mut text = String::from_str(heap, "line,from,to,gain\r\n")?;
        for wire in &self.wires {
            write!(text, "{wire}\r\n")?;
        }
        Ok(text)
    }

    // All the hours that the stations can take.
    pub fn hours(&self) -> u32 {
        self.spots
            .iter()
            .fold(0, |hours: u32, spot| hours.saturating_add(spot.hours))
    }
}
