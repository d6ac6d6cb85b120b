// Laws of conditions.

ghost use Rattle.std.specs.Prelude.{◌≡◌, ◌↔◌, List, Ok};
ghost use Rattle.qs_conditions.specs.declared.condition.Summand.{Summand};
ghost use Rattle.qs_conditions.specs.declared.signs.Placed.{Placed};
ghost use Rattle.qs_conditions.specs.Conditions.{Tree};
ghost use Rattle.qs_conditions.specs.Grammar.{IsCondition, IsWholeSum};
ghost use Rattle.qs_conditions.specs.Reading.{tree_of, whole_sum};

/// A tree is read from signs exactly where the grammar says that it stands for them.
pub fn exact_both_ways()
    ensures { (c : Tree) (ts : List Placed) → (tree_of ts ≡ Ok c) ↔ IsCondition c ts }
{}

/// Signs have at most one tree.
pub fn one_condition()
    ensures { (c d : Tree) (ts : List Placed) → IsCondition c ts → IsCondition d ts → c ≡ d }
{}

/// The same of sums: a sum is read from signs exactly where the grammar says that it stands for them. So signs have at
/// most one sum.
pub fn exact_sums()
    ensures { (xs : List Summand) (ts : List Placed) → (whole_sum ts ≡ Ok xs) ↔ IsWholeSum xs ts }
{}
