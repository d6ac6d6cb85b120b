//! What makes the texts of two blocks the same: the names, and the values of the variables that they name.

ghost use Rattle.std.specs.Prelude.{◌≡◌};
ghost use Rattle.std.specs.Bool.{Decides};
ghost use Rattle.qs_played.specs.twin.Twins.{SameObjects, SameVariables};

use qs_meaning::texts::Matching;
use qs_program::{Atom, Locals, Names, Program, object_name, variable_name};

/// Two texts side by side: their programs, their clients' variables, and the values of these at entry.
#[derive(Clone, Copy)]
pub(crate) struct Sides<'a> {
    pub program: &'a Program,
    pub other: &'a Program,
    pub variables: &'a Names,
    pub other_variables: &'a Names,
    pub entry: &'a Locals,
    pub other_entry: &'a Locals,
}

// Whether two objects have one name.
pub(crate) fn is_same_object(program: &Program, other: &Program, here: u8, there: u8) -> bool
    ensures same { Decides result (SameObjects program.now other.now here there) }
{
    object_name(program, usize::from(here)) == object_name(other, usize::from(there))
}

/// Objects of one name, and variables of one name that had one value at entry.
impl Matching for Sides<'_> {
    ghost use Rattle.qs_played.specs.twin.Twins.{SameObjects, SameVariables};

    ghost Objects = { λ s. SameObjects s.program.now s.other.now };

    ghost Variables = { λ s. SameVariables s.variables.now s.other_variables.now s.entry.now s.other_entry.now };

    fn is_same_object(&self, here: u8, there: u8) -> bool {
        is_same_object(self.program, self.other, here, there)
    }

    fn is_same_variable(&self, here: u8, there: u8) -> bool {
        variable_name(self.variables, usize::from(here))
            == variable_name(self.other_variables, usize::from(there))
            && Atom::Variable(here).value(self.entry)
                == Atom::Variable(there).value(self.other_entry)
    }
}
