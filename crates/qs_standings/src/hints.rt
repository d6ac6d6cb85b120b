//! Guesses where a row stands in the table. The search looks again and again at what lies near in counts of begun
//! blocks; by their number it is found where the search looked before, without a hash.

use crate::rows::Row;
use qs_program::{MOST_CLIENTS, Program};
use std::alloc::{AllocError, Global};

// So many places there are at first.
const PLACES: usize = 1024;

/// For each number of begun blocks, cut to the places that there are: which place of the table its row was put to last,
/// counted from 1.
#[derive(Drop)]
pub struct Hints {
    strides: [u64; MOST_CLIENTS],
    places: Vec<u32>,
}

// What one more block of a client counts for: one more than all blocks of the clients behind it.
fn strides(program: &Program) -> [u64; MOST_CLIENTS] {
    program.keeps_sound();
    let mut strides = [0; MOST_CLIENTS];
    let mut stride: u64 = 1;
    let clients = program.clients() as u8;
    for back in 0..clients {
        let client = clients - 1 - back;
        strides[usize::from(client)] = stride;
        stride = stride.wrapping_mul(program.blocks_of(client) as u64 + 1);
    }
    strides
}

impl Hints {
    /// No guesses. An error says that memory was refused.
    pub fn new(alloc: Global, program: &Program) -> Result<Hints, AllocError> {
        Ok(Hints {
            strides: strides(program),
            places: vec![in alloc; 0; PLACES]?,
        })
    }

    // Which guess a row has.
    fn slot(&self, begun: &[u8; MOST_CLIENTS]) -> usize {
        let mut number: u64 = 0;
        for client in 0..MOST_CLIENTS {
            number = number.wrapping_add(u64::from(begun[client]).wrapping_mul(
                self.strides[client],
            ));
        }
        number as usize & self.places.len().saturating_sub(1)
    }

    /// Where a row may stand. None where no row of so many begun blocks was noted.
    pub(crate) fn at(&self, begun: &[u8; MOST_CLIENTS]) -> Option<usize> {
        match self.places.get(self.slot(begun)) {
            Some(place) if *place > 0 => Some(*place as usize - 1),
            _ => None,
        }
    }

    // Guesses that a row stands at a place, counted from 1.
    fn put(&mut self, row: &Row, place: usize) {
        let slot = self.slot(&row.begun);
        let Ok(place) = u32::try_from(place) else {
            return;
        };
        if slot < self.places.len() {
            self.places[slot] = place;
        }
    }

    /// Notes where the last of these rows stands. An error says that memory was refused.
    pub fn note(&mut self, alloc: Global, rows: &[Row]) -> Result<(), AllocError> {
        if rows.len() > self.places.len() {
            self.places = vec![in alloc; 0; self.places.len().saturating_mul(2)]?;
            for place in 0..rows.len() {
                self.put(&rows[place], place + 1);
            }
        } else if let Some(row) = rows.last() {
            self.put(row, rows.len());
        }
        Ok(())
    }
}
