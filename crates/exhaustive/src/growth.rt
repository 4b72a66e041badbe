// Drawings grown from one line: again and again a leaf becomes two in series, at a new station, or two in parallel.
use crate::names::Names;
use crate::random::Random;
use crate::tree::Tree;
use std::alloc::{AllocError, Global};

// The stations that a leaf runs between, as they were grown.
#[derive(Clone, Copy)]
pub struct Leaf {
    pub left: usize,
    pub right: usize,
}

// A leaf that became two, by its number; in series at the station in the middle.
#[derive(Clone, Copy)]
pub struct Split {
    pub leaf: usize,
    pub middle: Option<usize>,
}

// Halves have the next two numbers when they grow. Leaves are drawn by their numbers, so they stand in a list, and not in a tree.
#[derive(Drop)]
pub struct Growth {
    // None where the leaf has been split.
    pub leaves: Vec<Option<Leaf>>,
    pub splits: Vec<Split>,
    pub stations: usize,
}

impl Leaf {
    fn halves(self, middle: Option<usize>) -> [Leaf; 2] {
        let Leaf { left, right } = self;
        match middle {
            Some(middle) => [
                Leaf {
                    left,
                    right: middle,
                },
                Leaf {
                    left: middle,
                    right,
                },
            ],
            None => [self, self],
        }
    }
}

impl Growth {
    // A drawing of at most so many stations.
    pub fn grow(
        heap: Global,
        random: &mut Random,
        most: usize,
        steps: usize,
    ) -> Result<Growth, AllocError> {
        let mut leaves = vec![in heap; Some(Leaf { left: 0, right: 1 })]?;
        let mut splits = Vec::new(heap);
        let mut stations = 2;
        for _ in 0..steps {
            let leaf = random.below(leaves.len());
            let middle = (random.below(2) == 0 && stations < most).then_some(stations);
            let Some(old) = leaves.get_mut(leaf).and_then(|leaf| leaf.take()) else {
                continue;
            };
            splits.push(Split { leaf, middle })?;
            for half in old.halves(middle) {
                leaves.push(Some(half))?;
            }
            if middle.is_some() {
                stations = stations.saturating_add(1);
            }
        }
        Ok(Growth {
            leaves,
            splits,
            stations,
        })
    }

    // Joins its leaves, from the last split back: the halves are the two trees that stand last.
    pub fn joined(
        &self,
        heap: Global,
        names: &Names,
        mut trees: Vec<Option<Tree>>,
    ) -> Result<Option<Tree>, AllocError> {
        for split in self.splits.iter().rev() {
            let (Some(Some(second)), Some(Some(first))) = (trees.pop(), trees.pop()) else {
                return Ok(None);
            };
            let join = Tree::Join {
                middle: split.middle.map(|station| names.of(station)),
                first: Box::new(heap, first)?,
                second: Box::new(heap, second)?,
            };
            if let Some(tree) = trees.get_mut(split.leaf) {
                *tree = Some(join);
            }
        }
        Ok(trees.pop().flatten())
    }
}
