// What a search writes into again and again, so that most of its steps take no new memory.

use crate::hints::Hints;
use crate::rows::Draft;
use crate::standing::Standing;
use qs_objects::Object;
use qs_program::{Locals, MOST_VARIABLES, Program};
use std::alloc::{AllocError, Global};

/// What a search writes into again and again: the row of the standing that it goes on from, what a next block leaves of
/// the client's variables and of the objects, and the row of where it leads; a copy of a standing; standings that are done
/// with; and guesses where rows stand.
#[derive(Drop)]
pub struct Scratch {
    pub base: Draft,
    pub values: Locals,
    pub left: Vec<Object>,
    pub row: Draft,
    pub copy: Standing,
    pub spare: Vec<Standing>,
    pub hints: Hints,
}

impl Scratch {
    /// Nothing is written yet. An error says that an allocation failed.
    pub fn new(alloc: Global, program: &Program) -> Result<Scratch, AllocError> {
        Ok(Scratch {
            base: Draft::new(alloc),
            values: [0; MOST_VARIABLES],
            left: Vec::new(alloc),
            row: Draft::new(alloc),
            copy: Standing::empty(alloc),
            spare: Vec::new(alloc),
            hints: Hints::new(alloc, program)?,
        })
    }
}

/// A standing to write into, one that is done with where there is any.
pub fn spare_standing(alloc: Global, spare: &mut Vec<Standing>) -> Standing {
    match spare.pop() {
        Some(standing) => standing,
        None => Standing::empty(alloc),
    }
}

/// Keeps a standing that is done with. An error says that an allocation failed.
pub fn put_by(spare: &mut Vec<Standing>, standing: Standing) -> Result<(), AllocError> {
    spare.push(standing)?;
    Ok(())
}
