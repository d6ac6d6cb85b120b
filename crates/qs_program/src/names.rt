//! Names, numbered in the order of their first appearance.

ghost use Rattle.std.specs.Prelude.{◌≡◌, [], OnOk, OnErr, IfOk, IfSome, is_some, length, slice_get, option_copied};
ghost use Rattle.qs_program.specs.audit.Numbering.{with_name, found_at, is_among};
ghost use Rattle.qs_program.specs.Numbering.{number_of};

use crate::hashing::NameHasher;
use indexmap::IndexSet;
use qs_script::tree::Name;
use std::alloc::{AllocError, Global};
use std::hash::BuildHasherDefault;
use std::marker::Model;

/// Names by number, from 0.
pub struct Names {
    names: IndexSet<Name, BuildHasherDefault<NameHasher>>,
}

impl Drop for Names {
    fn drop(self) {
        let Names { names: _ } = self;
    }
}

impl Model for Names {
    ghost use Rattle.std.specs.Prelude.{List, ℕ};

    ghost Value = { List (List ℕ) };

    ghost view = { λ n. n.names.keys };
}

impl Names {
    /// No names; takes no memory.
    pub fn new(alloc: Global) -> Names
        ensures empty { result ≡ [] }
    {
        Names {
            names: IndexSet::with_hasher(alloc, BuildHasherDefault::new()),
        }
    }

    /// The number of a name, which is added at the end if it is new. An error leaves the names as they were.
    pub fn number(&mut self, name: Name) -> Result<usize, AllocError>
        ensures names { OnOk result (self.new ≡ with_name self.old name) }
        ensures number { IfOk result (λ i. i ≡ number_of self.old name) }
        ensures err { OnErr result (self.new ≡ self.old) }
    {
        let (number, _) = self.names.insert_full(name)?;
        Ok(number)
    }

    /// How many names there are.
    pub fn len(&self) -> usize
        ensures value { result ≡ length self.now }
    {
        self.names.len()
    }

    /// Whether a name is among them.
    pub fn contains(&self, name: &Name) -> bool
        ensures value { result ≡ is_among self.now name.now }
    {
        self.names.contains(name)
    }

    /// The number of a name that is among them.
    pub fn find(&self, name: &Name) -> Option<usize>
        ensures among { is_some result ≡ is_among self.now name.now }
        ensures number { IfSome result (λ number. number ≡ found_at self.now name.now) }
    {
        self.names.get_index_of(name)
    }

    /// The number of a name, or 0 where it is none of them.
    pub fn number_of(&self, name: &Name) -> usize
        ensures value { result ≡ found_at self.now name.now }
    {
        self.names.get_index_of(name).unwrap_or(0)
    }

    /// The name of a number; None past the last.
    pub fn name(&self, number: usize) -> Option<&Name>
        ensures value { option_copied result ≡ slice_get self.now number }
    {
        self.names.get_index(number)
    }
}
