//! Two texts compared, whatever makes a number of the one the same as a number of the other.

ghost use Rattle.std.specs.Prelude.{◌≡◌, ℕ};
ghost use Rattle.std.specs.Bool.{Decides};
ghost use Rattle.std.specs.List.{AllZip};
ghost use Rattle.qs_program.specs.Views.{single};
ghost use Rattle.qs_meaning.specs.Alike.{SameAtom, SameCall, SameExpr, SameStatements, SameTest};

use qs_program::{Atom, Body, Call, Expr, Stmt, Test};

/// Which objects and which variables of two texts are taken for the same, by their numbers.
pub trait Matching {
    ghost Objects: { Self → ℕ → ℕ → Type 0 };

    ghost Variables: { Self → ℕ → ℕ → Type 0 };

    /// Whether an object of the one text is the same as one of the other.
    fn is_same_object(&self, here: u8, there: u8) -> bool
        ensures same { Decides result (Objects self.now here there) };

    /// Whether a variable of the one text is the same as one of the other.
    fn is_same_variable(&self, here: u8, there: u8) -> bool
        ensures same { Decides result (Variables self.now here there) };
}

fn is_same_atom<M: Matching>(matching: &M, here: Atom, there: Atom) -> bool
    ensures same { Decides result (SameAtom (M.Objects matching.now) (M.Variables matching.now) here there) }
{
    match (here, there) {
        (Atom::Variable(here), Atom::Variable(there)) => matching.is_same_variable(here, there),
        (Atom::Number(here), Atom::Number(there)) => here == there,
        _ => false,
    }
}

fn are_same_atoms<M: Matching>(matching: &M, here: &[Atom], there: &[Atom]) -> bool
    ensures same { Decides result (AllZip (SameAtom (M.Objects matching.now) (M.Variables matching.now)) here.now there.now) }
{
    if here.len() != there.len() {
        return false;
    }
    for place in 0..here.len() {
        if !is_same_atom(matching, here[place], there[place]) {
            return false;
        }
    }
    true
}

fn is_same_expr<M: Matching>(matching: &M, here: Expr, there: Expr) -> bool
    ensures same { Decides result (SameExpr (M.Objects matching.now) (M.Variables matching.now) here there) }
{
    match (here, there) {
        (Expr::Plain(here), Expr::Plain(there)) => is_same_atom(matching, here, there),
        (Expr::Binary(left, operator, right), Expr::Binary(first, other, second)) => {
            is_same_atom(matching, left, first)
                && operator == other
                && is_same_atom(matching, right, second)
        }
        _ => false,
    }
}

fn is_same_test<M: Matching>(matching: &M, here: Test, there: Test) -> bool
    ensures same { Decides result (SameTest (M.Objects matching.now) (M.Variables matching.now) here there) }
{
    is_same_atom(matching, here.left, there.left)
        && here.relation == there.relation
        && is_same_atom(matching, here.right, there.right)
}

fn is_same_call<M: Matching>(matching: &M, here: &Call, there: &Call) -> bool
    ensures same { Decides result (SameCall (M.Objects matching.now) (M.Variables matching.now) here.now there.now) }
{
    matching.is_same_object(here.object, there.object)
        && here.op == there.op
        && are_same_atoms(matching, here.args.as_slice(), there.args.as_slice())
}

/// Whether two lists of statements are the same but for their numbers, which are matched as given.
#[cycle(same)]
pub fn is_same_body<M: Matching>(matching: &M, here: &Body, there: &Body) -> bool
    ensures same { Decides result (SameStatements (M.Objects matching.now) (M.Variables matching.now) here.now there.now) }
{
    let stmts = here.as_slice();
    let others = there.as_slice();
    if stmts.len() != others.len() {
        return false;
    }
    for place in 0..stmts.len() {
        if !is_same_stmt(matching, &stmts[place], &others[place]) {
            return false;
        }
    }
    true
}

#[cycle(same)]
fn is_same_stmt<M: Matching>(matching: &M, here: &Stmt, there: &Stmt) -> bool
    ensures same { Decides result (SameStatements (M.Objects matching.now) (M.Variables matching.now) (single here.now) (single there.now)) }
{
    match (here, there) {
        (Stmt::Command(here), Stmt::Command(there)) => is_same_call(matching, here, there),
        (Stmt::Query(x, here), Stmt::Query(y, there)) => {
            matching.is_same_variable(*x, *y) && is_same_call(matching, here, there)
        }
        (Stmt::Assign(x, here), Stmt::Assign(y, there)) => {
            matching.is_same_variable(*x, *y) && is_same_expr(matching, *here, *there)
        }
        (
            Stmt::If {
                test,
                has_else,
                first,
                other,
            },
            Stmt::If {
                test: tested,
                has_else: has_too,
                first: one,
                other: two,
            },
        ) => {
            is_same_test(matching, *test, *tested)
                && *has_else == *has_too
                && is_same_body(matching, first, one)
                && is_same_body(matching, other, two)
        }
        (Stmt::Repeat(turns, here), Stmt::Repeat(others, there)) => {
            *turns == *others && is_same_body(matching, here, there)
        }
        (Stmt::Leave, Stmt::Leave) => true,
        _ => false,
    }
}
