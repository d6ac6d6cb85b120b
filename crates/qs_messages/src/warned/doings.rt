// What statements do.

ghost use Rattle.std.specs.Prelude.{◌≡◌};
ghost use Rattle.std.specs.List.{list_any};
ghost use Rattle.qs_program.specs.Views.{single};
ghost use Rattle.qs_messages.specs.Doings.{call_does, does, expr_does, is_asking, is_assigning, is_calling, is_reading, test_does};

use qs_program::{Atom, Body, Call, Expr, Stmt, Test};

/// What statements may do: assign a variable, set one by a query, read one, or make a request on an object. Each is
/// named by its number.
#[derive(Clone, Copy)]
pub enum Doing {
    Assigns(u8),
    Asks(u8),
    Reads(u8),
    Calls(u8),
}

fn is_assigning(doing: Doing, variable: u8) -> bool
    ensures exact { result ≡ is_assigning doing variable }
{
    match doing {
        Doing::Assigns(number) => variable == number,
        Doing::Asks(_) | Doing::Reads(_) | Doing::Calls(_) => false,
    }
}

fn is_asking(doing: Doing, variable: u8) -> bool
    ensures exact { result ≡ is_asking doing variable }
{
    match doing {
        Doing::Asks(number) => variable == number,
        Doing::Assigns(_) | Doing::Reads(_) | Doing::Calls(_) => false,
    }
}

fn is_reading(doing: Doing, atom: Atom) -> bool
    ensures exact { result ≡ is_reading doing atom }
{
    match (doing, atom) {
        (Doing::Reads(number), Atom::Variable(variable)) => variable == number,
        _ => false,
    }
}

fn is_calling(doing: Doing, object: u8) -> bool
    ensures exact { result ≡ is_calling doing object }
{
    match doing {
        Doing::Calls(number) => object == number,
        Doing::Assigns(_) | Doing::Asks(_) | Doing::Reads(_) => false,
    }
}

fn call_does(doing: Doing, call: &Call) -> bool
    ensures exact { result ≡ call_does doing call.now }
{
    is_calling(doing, call.object) || some_reads(doing, call.args.as_slice())
}

fn some_reads(doing: Doing, atoms: &[Atom]) -> bool
    ensures exact { result ≡ list_any (is_reading doing) atoms.now }
{
    atoms.iter().any(|atom| is_reading(doing, *atom))
}

fn expr_does(doing: Doing, expr: Expr) -> bool
    ensures exact { result ≡ expr_does doing expr }
{
    match expr {
        Expr::Plain(atom) => is_reading(doing, atom),
        Expr::Binary(left, _, right) => is_reading(doing, left) || is_reading(doing, right),
    }
}

fn test_does(doing: Doing, test: Test) -> bool
    ensures exact { result ≡ test_does doing test }
{
    is_reading(doing, test.left) || is_reading(doing, test.right)
}

/// Whether some statement does it, inner ones too.
#[cycle(does)]
pub(crate) fn body_does(doing: Doing, body: &Body) -> bool
    ensures exact { result ≡ does doing body.now }
{
    for stmt in body.as_slice() {
        if stmt_does(doing, stmt) {
            return true;
        }
    }
    false
}

#[cycle(does)]
fn stmt_does(doing: Doing, stmt: &Stmt) -> bool
    ensures exact { result ≡ does doing (single stmt.now) }
{
    match stmt {
        Stmt::Command(call) => call_does(doing, call),
        Stmt::Query(variable, call) => is_asking(doing, *variable) || call_does(doing, call),
        Stmt::Assign(variable, expr) => is_assigning(doing, *variable) || expr_does(doing, *expr),
        Stmt::If {
            test,
            first,
            other,
            ..
        } => test_does(doing, *test) || body_does(doing, first) || body_does(doing, other),
        Stmt::Repeat(_, body) => body_does(doing, body),
        Stmt::Leave => false,
    }
}
