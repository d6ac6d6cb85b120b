// The list of a block, by the numbers of its objects.

ghost use Rattle.std.specs.Prelude.{◌≡◌, ◌==◌, [], ◌∷◌, ◌++◌, OnOk, OnErr};
ghost use Rattle.std.specs.List.{list_any};

use qs_program::MOST_OBJECTS;
use std::alloc::{AllocError, Global};
use std::marker::Model;

// Numbers of objects in the order of a block's list, and a flag for each number of 8 objects, which tells whether it is
// there.
#[derive(Drop)]
pub(crate) struct Listed {
    numbers: Vec<usize>,
    flags: [bool; MOST_OBJECTS],
}

impl Model for Listed {
    ghost use Rattle.std.specs.Prelude.{List, ℕ};

    ghost Value = { List ℕ };

    ghost view = { λ l. l.numbers.items };

    ghost use Rattle.qs_check.specs.fault_places.Listed.{DoFlag};

    ghost invariant = { λ l. DoFlag l.flags l.numbers.items };
}

impl Listed {
    pub(crate) fn new(alloc: Global) -> Listed
        ensures empty { result ≡ [] }
    {
        Listed {
            numbers: Vec::new(alloc),
            flags: [false; MOST_OBJECTS],
        }
    }

    // Leaves no numbers, and keeps the memory.
    pub(crate) fn clear(&mut self)
        ensures empty { self.new ≡ [] }
    {
        self.numbers.clear();
        self.flags = [false; MOST_OBJECTS];
    }

    #[inline(always)]
    pub(crate) fn contains(&self, number: usize) -> bool
        ensures value { result ≡ list_any (λ n. number == n) self.now }
    {
        if number < MOST_OBJECTS {
            return self.flags[number];
        }
        self.numbers.iter().any(|n| number == *n)
    }

    pub(crate) fn push(&mut self, number: usize) -> Result<(), AllocError>
        ensures added { OnOk result (self.new ≡ self.old ++ number ∷ []) }
        ensures kept { OnErr result (self.new ≡ self.old) }
    {
        self.numbers.push(number)?;
        if number < MOST_OBJECTS {
            self.flags[number] = true;
        }
        Ok(())
    }
}
