//! The choices of vertices that rows have.

use crate::closed_rows::Row;
use crate::runs::add_up;
use om_ring::NoMemory;
use std::alloc::Global;

// How many choices a vertex has at most.
const MOST_CHOICES: usize = 6;

/// The choices of vertices that rows have, numbered in order.
#[derive(Drop)]
pub(crate) struct Kinds {
    numbers: Vec<u32>,
    pub(crate) count: usize,
}

impl Kinds {
    pub(crate) fn of(alloc: Global, rows: &[Row]) -> Result<Kinds, NoMemory> {
        let mut numbers = Vec::new(alloc);
        for row in rows {
            let choice = choice_of(row.vertex, row.choice);
            if numbers.len() <= choice && numbers.resize(choice.saturating_add(1), 0).is_err() {
                return Err(NoMemory);
            }
            mark(&mut numbers, choice);
        }
        let count = add_up(&mut numbers) as usize;
        Ok(Kinds { numbers, count })
    }

    /// The number of a row's choice at a flow, among those of all flows and choices.
    pub(crate) fn bucket(&self, row: &Row, flow: u32) -> usize {
        let choice = choice_of(row.vertex, row.choice);
        let number = if choice < self.numbers.len() {
            self.numbers[choice] as usize
        } else {
            0
        };
        (flow as usize)
            .wrapping_mul(self.count)
            .wrapping_add(number)
    }
}

// The number of a choice among those of all vertices.
fn choice_of(vertex: u32, choice: u8) -> usize {
    vertex as usize * MOST_CHOICES + choice as usize
}

fn mark(numbers: &mut [u32], choice: usize) {
    if choice < numbers.len() {
        numbers[choice] = 1;
    }
}
