//! Which clients a condition speaks of. A set of clients is a byte, client c in bit c.
//!
//! ```rust
//! let is_named = (named_clients(&condition, &program) >> client) & 1 == 1;
//! ```

ghost use Rattle.std.specs.Prelude.{◌≡◌, [], ◌∷◌};
ghost use Rattle.qs_objects.specs.ByteSets.{in_byte};
ghost use Rattle.qs_questions.specs.NamedClients.{is_named, named_clients, names};

use crate::named::client_of;
use qs_conditions::{Condition, Step, Sum, Value};
use qs_program::Program;

// The client whose variable a value is; nobody where it is none.
fn named_by(program: &Program, value: &Value) -> u8
    ensures named { in_byte result ≡ names program.now value.now }
{
    program.keeps_sound();
    let Value::Variable(name, _) = value else {
        return 0;
    };
    match client_of(program, name) {
        Some(client) => 1 << client,
        None => 0,
    }
}

// The clients whose variables a sum names.
fn named_in(program: &Program, sum: &Sum) -> u8
    ensures named { in_byte result ≡ is_named program.now sum.now }
{
    let mut set = 0;
    for summand in sum.as_slice() {
        set |= named_by(program, &summand.value);
    }
    set
}

// The same of one step.
fn named_at(program: &Program, step: &Step) -> u8
    ensures named { in_byte result ≡ named_clients program.now (step.now ∷ []) }
{
    let Step::Compare(left, _, right) = step else {
        return 0;
    };
    named_in(program, left) | named_in(program, right)
}

/// The clients whose variables a condition names.
pub fn named_clients(condition: &Condition, program: &Program) -> u8
    ensures exact { in_byte result ≡ named_clients program.now condition.now }
{
    let mut set = 0;
    for step in condition.as_slice() {
        set |= named_at(program, step);
    }
    set
}
