//! Checks of statements, blocks, clients and objects.

ghost use Rattle.std.specs.Prelude.{◌≡◌, OnOk};
ghost use Rattle.qs_script.specs.tree.Views.{single};
ghost use Rattle.qs_check.specs.audit.fault_places.Places.{Scope as Known, scope_or_fault, places, call_places, atom_places, atoms_places, expr_places, test_places, listed_places, block_places, blocks_places, item_places, kind_of, kind_places, pass_place, text, fault_of_text, text_places, formals_places, given_places};
ghost use Rattle.qs_check.specs.fault_places.Places.{Meets};
ghost use Rattle.qs_check.specs.audit.fault_places.Variables.{variables_of};

use crate::fault_places::fault::CheckFault;
use crate::fault_places::scope::{Scope, check_number, formal_value};
use qs_objects::{GREATEST_BALANCE, Kind, MOST_LINES, MOST_VALUES};
use qs_program::MOST_TURNS;
use qs_script::tree::{
    Atom, Block, Body, Call, ClientItem, Expr, Formal, Item, KindText, Name, ObjectItem,
    StartedItem, Stmt, TemplateItem, Test,
};
use std::alloc::Global;

// Checks the statements of a block, inside a repeat or not.
#[cycle(check)]
fn check_body(scope: &mut Scope, inside: bool, body: &Body) -> Result<(), CheckFault>
    ensures meets { Meets result (scope_or_fault scope.old (places inside body.now)) scope.new }
{
    for stmt in body.as_slice() {
        check_stmt(scope, inside, stmt)?;
    }
    Ok(())
}

#[cycle(check)]
fn check_stmt(scope: &mut Scope, inside: bool, stmt: &Stmt) -> Result<(), CheckFault>
    ensures meets { Meets result (scope_or_fault scope.old (places inside (single stmt.now))) scope.new }
{
    match stmt {
        Stmt::Command(call) => check_call(scope, false, call),
        Stmt::Query(answered, call) => {
            scope.variable(answered)?;
            check_call(scope, true, call)
        }
        Stmt::Assign(assigned, expr) => {
            scope.variable(assigned)?;
            check_expr(scope, expr)
        }
        Stmt::If(test, first) => {
            check_test(scope, test)?;
            check_body(scope, inside, first)
        }
        Stmt::IfElse(test, first, other) => {
            check_test(scope, test)?;
            check_body(scope, inside, first)?;
            check_body(scope, inside, other)
        }
        Stmt::Repeat(count, body) => {
            check_number(0, MOST_TURNS, *count)?;
            check_body(scope, true, body)
        }
        Stmt::Leave => {
            if !inside {
                return Err(CheckFault::LeaveOutside);
            }
            Ok(())
        }
    }
}

#[inline(always)]
fn check_call(scope: &mut Scope, asks: bool, call: &Call) -> Result<(), CheckFault>
    ensures meets { Meets result (scope_or_fault scope.old (call_places asks call.now)) scope.new }
{
    let args = call.args.as_slice();
    scope.request(asks, &call.object, &call.op, args.len())?;
    check_atoms(scope, args)
}

fn check_atoms(scope: &mut Scope, atoms: &[Atom]) -> Result<(), CheckFault>
    ensures meets { Meets result (scope_or_fault scope.old (atoms_places atoms.now)) scope.new }
{
    for atom in atoms {
        check_atom(scope, atom)?;
    }
    Ok(())
}

fn check_atom(scope: &mut Scope, atom: &Atom) -> Result<(), CheckFault>
    ensures meets { Meets result (scope_or_fault scope.old (atom_places atom.now)) scope.new }
{
    match atom {
        Atom::Variable(name) => scope.variable(name),
        Atom::Number(_) => Ok(()),
    }
}

fn check_expr(scope: &mut Scope, expr: &Expr) -> Result<(), CheckFault>
    ensures meets { Meets result (scope_or_fault scope.old (expr_places expr.now)) scope.new }
{
    match expr {
        Expr::Plain(atom) => check_atom(scope, atom),
        Expr::Binary(left, _, right) => {
            check_atom(scope, left)?;
            check_atom(scope, right)
        }
    }
}

fn check_test(scope: &mut Scope, test: &Test) -> Result<(), CheckFault>
    ensures meets { Meets result (scope_or_fault scope.old (test_places test.now)) scope.new }
{
    check_atom(scope, &test.left)?;
    check_atom(scope, &test.right)
}

// Checks a block's list.
fn check_list(scope: &mut Scope, names: &[Name]) -> Result<(), CheckFault>
    ensures meets { Meets result (scope_or_fault scope.old (listed_places names.now)) scope.new }
{
    for name in names {
        scope.listed(name)?;
    }
    Ok(())
}

fn check_block(alloc: Global, scope: &mut Scope, block: &Block) -> Result<(), CheckFault>
    ensures meets { Meets result (scope_or_fault scope.old (block_places block.now)) scope.new }
{
    scope.separate()?;
    check_list(scope, block.reserved.as_slice())?;
    check_body(scope, false, &block.body)
}

fn check_blocks(alloc: Global, scope: &mut Scope, blocks: &[Block]) -> Result<(), CheckFault>
    ensures meets { Meets result (scope_or_fault scope.old (blocks_places blocks.now)) scope.new }
{
    for block in blocks {
        check_block(alloc, scope, block)?;
    }
    Ok(())
}

/// Checks a client; its variables are known afterwards.
pub fn check_client(alloc: Global, scope: &mut Scope, item: &ClientItem) -> Result<(), CheckFault>
    ensures meets { Meets result (scope_or_fault scope.old (item_places (Item.Client item.now))) scope.new }
    ensures variables { OnOk result (scope.new.variables ≡ variables_of item.now) }
{
    scope.client(alloc, &item.name)?;
    check_blocks(alloc, scope, item.blocks.as_slice())
}

/// Checks a template: its name, and then its formals and blocks by themselves.
pub fn check_template(
    alloc: Global,
    scope: &mut Scope,
    item: &TemplateItem,
) -> Result<(), CheckFault>
    ensures meets { Meets result (scope_or_fault scope.old (item_places (Item.Template item.now))) scope.new }
{
    scope.template(alloc, &item.name, item.formals.as_slice())?;
    check_text_alone(alloc, item)
}

fn check_text_alone(alloc: Global, item: &TemplateItem) -> Result<(), CheckFault>
    ensures meets { (s : Known) → Meets result (pass_place s (text (fault_of_text item.now))) s }
{
    let mut inner = Scope::new(alloc);
    let checked = check_text(alloc, &mut inner, item);
    drop(inner);
    checked
}

/// Checks a template's formals and blocks, where nothing else is known.
pub fn check_text(alloc: Global, scope: &mut Scope, item: &TemplateItem) -> Result<(), CheckFault>
    ensures meets { Meets result (scope_or_fault scope.old (text_places item.now)) scope.new }
{
    check_formals(scope, item.formals.as_slice())?;
    check_blocks(alloc, scope, item.blocks.as_slice())
}

fn check_formals(scope: &mut Scope, formals: &[Formal]) -> Result<(), CheckFault>
    ensures meets { Meets result (scope_or_fault scope.old (formals_places formals.now)) scope.new }
{
    for formal in formals {
        scope.object(&formal.name, formal_value(formal.kind))?;
    }
    Ok(())
}

/// Checks a client of a template.
pub fn check_started(alloc: Global, scope: &mut Scope, item: &StartedItem) -> Result<(), CheckFault>
    ensures meets { Meets result (scope_or_fault scope.old (item_places (Item.Started item.now))) scope.new }
{
    let objects = item.objects.as_slice();
    scope.client(alloc, &item.name)?;
    scope.starts(&item.template, objects.len())?;
    check_given(scope, &item.template, objects)
}

// Checks the objects that are given for a template's formals.
fn check_given(scope: &Scope, template: &Name, objects: &[Name]) -> Result<(), CheckFault>
    ensures meets { Meets result (scope_or_fault scope.now (given_places template.now 0 objects.now)) scope.now }
{
    let mut place = 0;
    for object in objects {
        scope.given(template, place, object)?;
        place += 1;
    }
    Ok(())
}

/// A kind with its numbers.
pub fn kind_value(kind: &KindText) -> Kind
    ensures value { result ≡ kind_of kind.now }
{
    match kind {
        KindText::Account(balance) => Kind::Account {
            balance: balance.value(),
        },
        KindText::Buffer(capacity) => Kind::Buffer {
            capacity: capacity.value(),
        },
        KindText::Grid(rows, columns) => Kind::Grid {
            rows: rows.value(),
            columns: columns.value(),
        },
    }
}

// Checks a kind's numbers.
fn check_kind(kind: &KindText) -> Result<(), CheckFault>
    ensures meets { (s : Known) → Meets result (scope_or_fault s (kind_places kind.now)) s }
{
    match kind {
        KindText::Account(balance) => check_number(0, GREATEST_BALANCE as u64, *balance),
        KindText::Buffer(capacity) => check_number(1, MOST_VALUES as u64, *capacity),
        KindText::Grid(rows, columns) => {
            check_number(1, MOST_LINES as u64, *rows)?;
            check_number(1, MOST_LINES as u64, *columns)
        }
    }
}

/// Checks an object's declaration.
pub fn check_object(scope: &mut Scope, item: &ObjectItem) -> Result<(), CheckFault>
    ensures meets { Meets result (scope_or_fault scope.old (item_places (Item.Object item.now))) scope.new }
{
    scope.object(&item.name, kind_value(&item.kind))?;
    check_kind(&item.kind)
}
