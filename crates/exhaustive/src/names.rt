// Numbers in an order that is drawn at random.
use crate::random::Random;
use std::alloc::{AllocError, Global};

// A number for each station as it was grown.
#[derive(Drop)]
pub struct Names(Vec<usize>);

fn shuffle(random: &mut Random, order: &mut [usize]) {
    // By place: two places change at once.
    for i in 0..order.len() {
        let j = random.below(order.len());
        order.swap(i, j);
    }
}

// The numbers below n in some order.
pub fn shuffled(heap: Global, random: &mut Random, n: usize) -> Result<Vec<usize>, AllocError> {
    let mut order: Vec<usize> = (0..n).collect(heap)?;
    shuffle(random, &mut order);
    Ok(order)
}

impl Names {
    // The ends, which were grown first, are the first and the last; the others come in some order.
    pub fn draw(heap: Global, random: &mut Random, n: usize) -> Result<Names, AllocError> {
        let last = n.saturating_sub(1);
        let mut names: Vec<usize> = [0, last].into_iter().chain(1..last).collect(heap)?;
        if let [_, _, inner @ ..] = names.as_mut_slice() {
            shuffle(random, inner);
        }
        Ok(Names(names))
    }

    pub fn of(&self, station: usize) -> usize {
        self.0.get(station).copied().unwrap_or(0)
    }
}
