// Requests of which it is known what becomes of them, whatever their object holds.

ghost use Rattle.std.specs.Prelude.{◌≡◌, ◌∷◌, [], ◌++◌, OnOk};
ghost use Rattle.qs_program.specs.audit.Program.{object_at};
ghost use Rattle.qs_program.specs.Views.{single};
ghost use Rattle.qs_messages.specs.Certainties.{account_certainty, call_certainty, certainty_of, certainties_of, grid_certainty, is_no_amount, is_number, is_past, when};

use qs_objects::{GREATEST_BALANCE, Kind, Op};
use qs_program::{Atom, Body, Call, Program, Stmt};
use std::alloc::AllocError;

/// What becomes of a request, whatever its object holds and whatever the variables are.
#[derive(Clone, Copy, Debug)]
pub enum Certainty {
    /// It is refused.
    Refused,
    /// It is answered by 0.
    Zero,
}

fn when(is_so: bool, certainty: Certainty) -> Option<Certainty>
    ensures exact { result ≡ when is_so certainty }
{
    is_so.then_some(certainty)
}

fn is_no_amount(atom: Atom) -> bool
    ensures exact { result ≡ is_number is_no_amount atom }
{
    match atom {
        Atom::Number(n) => n < 0 || n > GREATEST_BALANCE,
        Atom::Variable(_) => false,
    }
}

// Whether an argument is a number that is none of so many lines.
fn is_past(lines: i64, atom: Atom) -> bool
    ensures exact { result ≡ is_number (is_past lines) atom }
{
    match atom {
        Atom::Number(n) => n < 0 || n >= lines,
        Atom::Variable(_) => false,
    }
}

fn of_account(op: Op, args: &[Atom]) -> Option<Certainty>
    ensures exact { result ≡ account_certainty op args.now }
{
    match (op, args) {
        (Op::Deposit | Op::Withdraw, [n]) => when(is_no_amount(*n), Certainty::Refused),
        _ => None,
    }
}

fn of_grid(rows: i64, columns: i64, op: Op, args: &[Atom]) -> Option<Certainty>
    ensures exact { result ≡ grid_certainty rows columns op args.now }
{
    match (op, args) {
        (Op::SetCell | Op::AddCell, [row, column, _]) => {
            let is_outside = is_past(rows, *row) || is_past(columns, *column);
            when(is_outside, Certainty::Refused)
        }
        (Op::GetCell, [row, column]) => {
            let is_outside = is_past(rows, *row) || is_past(columns, *column);
            when(is_outside, Certainty::Zero)
        }
        (Op::RowSum, [row]) => when(is_past(rows, *row), Certainty::Zero),
        _ => None,
    }
}

/// What becomes of a request on an object of a kind, where its numbers alone say it.
pub(crate) fn certainty_of(kind: Kind, op: Op, args: &[Atom]) -> Option<Certainty>
    ensures exact { result ≡ certainty_of kind op args.now }
{
    match kind {
        Kind::Account { .. } => of_account(op, args),
        Kind::Buffer { .. } => None,
        Kind::Grid { rows, columns } => of_grid(rows, columns, op, args),
    }
}

// The kind of an object; an account's, where there is no such object.
fn kind_of(program: &Program, object: u8) -> Kind
    ensures exact { result ≡ (object_at program.now object).kind }
{
    if usize::from(object) < program.objects() {
        program.kind(object)
    } else {
        Kind::Account { balance: 0 }
    }
}

fn call_certainty(program: &Program, call: &Call) -> Option<Certainty>
    ensures exact { result ≡ call_certainty program.now call.now }
{
    certainty_of(kind_of(program, call.object), call.op, call.args.as_slice())
}

fn add_call(
    out: &mut Vec<Option<Certainty>>,
    program: &Program,
    call: &Call,
) -> Result<(), AllocError>
    ensures added { OnOk result (out.new.items ≡ out.old.items ++ call_certainty program.now call.now ∷ []) }
{
    out.push(call_certainty(program, call))?;
    Ok(())
}

/// What becomes of each request of a list of statements, inner ones too.
#[cycle(certainties)]
pub(crate) fn add_certainties(
    out: &mut Vec<Option<Certainty>>,
    program: &Program,
    body: &Body,
) -> Result<(), AllocError>
    ensures added { OnOk result (out.new.items ≡ out.old.items ++ certainties_of program.now body.now) }
{
    for stmt in body.as_slice() {
        add_stmt(out, program, stmt)?;
    }
    Ok(())
}

#[cycle(certainties)]
fn add_stmt(
    out: &mut Vec<Option<Certainty>>,
    program: &Program,
    stmt: &Stmt,
) -> Result<(), AllocError>
    ensures added { OnOk result (out.new.items ≡ out.old.items ++ certainties_of program.now (single stmt.now)) }
{
    match stmt {
        Stmt::Command(call) | Stmt::Query(_, call) => add_call(out, program, call),
        Stmt::If { first, other, .. } => {
            add_certainties(out, program, first)?;
            add_certainties(out, program, other)
        }
        Stmt::Repeat(_, body) => add_certainties(out, program, body),
        Stmt::Assign(_, _) | Stmt::Leave => Ok(()),
    }
}
