// A drawing as a tree of joins over lines.
use crate::stations::Stations;
use std::alloc::AllocError;
use std::fmt;

#[derive(Drop)]
pub enum Tree {
    Leaf(usize),
    // Two halves, in series at the station in the middle, or in parallel.
    Join {
        middle: Option<usize>,
        first: Box<Tree>,
        second: Box<Tree>,
    },
}

// A join as the choice among equals sees it: the station where two halves in series meet, and the stations inside the first half.
#[derive(Clone, Copy)]
pub struct Turn {
    pub middle: Option<usize>,
    pub inside_first: Stations,
}

impl Tree {
    // The stations inside, without the ends.
    fn inside(&self) -> Stations {
        match self {
            Tree::Leaf(_) => Stations::default(),
            Tree::Join {
                middle,
                first,
                second,
            } => {
                let between = middle.map_or(Stations::default(), Stations::one);
                between | first.inside() | second.inside()
            }
        }
    }

    // Adds its joins, from the root on, those of first halves before those of second ones.
    pub fn turns(&self, turns: &mut Vec<Turn>) -> Result<(), AllocError> {
        match self {
            Tree::Leaf(_) => Ok(()),
            Tree::Join {
                middle,
                first,
                second,
            } => {
                turns.push(Turn {
                    middle: *middle,
                    inside_first: first.inside(),
                })?;
                first.turns(turns)?;
                second.turns(turns)
            }
        }
    }
}

impl fmt::Display for Tree {
    fn fmt<W: fmt::Write>(&self, f: &mut fmt::Formatter<W>) -> fmt::Result {
        match self {
            Tree::Leaf(line) => write!(f, "{line}"),
            Tree::Join {
                middle: Some(_),
                first,
                second,
            } => write!(f, "({first},{second})s"),
            Tree::Join {
                middle: None,
                first,
                second,
            } => write!(f, "({first},{second})p"),
        }
    }
}
