//! What expressions, tests and requests are worth, by a client's variables.

ghost use Rattle.std.specs.Prelude.{◌≡◌, ◌≤◌, length, map, pos, slice_index_or, slice_set};
ghost use Rattle.qs_program.specs.audit.Values.{atom_value, exact, expr_value, relates as holds, test_value, request_of};
ghost use Rattle.qs_objects.specs.audit.Act.{clamp_to_word};

use crate::code::{Atom, Call, Expr, Test};
use crate::limits::MOST_VARIABLES;
use qs_objects::{Args, Request};
use qs_script::tree::{Operator, Relation};
use std::alloc::Global;

/// The values of a client's variables by their numbers, 0 where a number is not used.
pub type Locals = [i64; MOST_VARIABLES];

/// Sets a variable. Where the number is none of a variable, nothing happens.
#[inline(always)]
pub fn set_variable(locals: &mut Locals, variable: u8, value: i64)
    ensures set { locals.new ≡ slice_set locals.old variable value }
{
    let place = usize::from(variable);
    if place < locals.len() {
        locals[place] = value;
    }
}

impl Atom {
    /// Its value.
    pub fn value(self, locals: &Locals) -> i64
        ensures value { result ≡ atom_value locals.now self }
    {
        match self {
            Atom::Variable(variable) => locals.get(usize::from(variable)).copied().unwrap_or(0),
            Atom::Number(number) => number,
        }
    }
}

impl Expr {
    /// Its value: exact, then clamped to 64 bits.
    pub fn value(&self, locals: &Locals) -> i64
        ensures value { result ≡ expr_value locals.now self.now }
    {
        match self {
            Expr::Plain(atom) => atom.value(locals),
            Expr::Binary(left, operator, right) => {
                combined(*operator, left.value(locals), right.value(locals))
            }
        }
    }
}

fn combined(operator: Operator, left: i64, right: i64) -> i64
    ensures value { result ≡ clamp_to_word (exact operator left right) }
{
    match operator {
        Operator::Plus => left.saturating_add(right),
        Operator::Minus => left.saturating_sub(right),
        Operator::Times => left.saturating_mul(right),
    }
}

impl Test {
    /// Whether it holds.
    pub fn is_met(&self, locals: &Locals) -> bool
        ensures value { result ≡ test_value locals.now self.now }
    {
        relates(
            self.relation,
            self.left.value(locals),
            self.right.value(locals),
        )
    }
}

fn relates(relation: Relation, left: i64, right: i64) -> bool
    ensures value { result ≡ holds relation left right }
{
    match relation {
        Relation::Equal => left == right,
        Relation::Unequal => left != right,
        Relation::Less => left < right,
        Relation::AtMost => left <= right,
        Relation::Greater => left > right,
        Relation::AtLeast => left >= right,
    }
}

// The value of the argument at a place, or 0 where there is none.
#[inline(always)]
fn value_at(atoms: &[Atom], place: usize, locals: &Locals) -> i64
    ensures value { result ≡ slice_index_or (map (atom_value locals.now) atoms.now) place (pos 0) }
{
    if place < atoms.len() {
        atoms[place].value(locals)
    } else {
        0
    }
}

impl Call {
    /// The request that it makes: its arguments are evaluated now. Takes no memory.
    #[inline(always)]
    pub fn request(&self, alloc: Global, locals: &Locals) -> Request
        requires { length self.now.args ≤ 3 }
        ensures value { result ≡ request_of locals.now self.now }
    {
        let atoms = self.args.as_slice();
        let numbers = [
            value_at(atoms, 0, locals),
            value_at(atoms, 1, locals),
            value_at(atoms, 2, locals),
        ];
        Request {
            object: self.object,
            op: self.op,
            args: Args::of(alloc, numbers, atoms.len()),
        }
    }
}
