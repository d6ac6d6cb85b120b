//! From trees to anchors.

ghost use Rattle.std.specs.Prelude.{◌≡◌, ◌∷◌, ◌++◌, [], OnOk, map};
ghost use Rattle.qs_script.specs.tree.Views.{single};
ghost use Rattle.qs_check.specs.anchors.Anchors.{anchors, atom_anchor, expr_anchors, test_anchors, call_anchors, block_anchors, blocks_anchors, kind_anchors, formal_anchor, given_anchors, item_anchors};

use crate::anchors::anchor::Anchor;
use crate::fault_places::{formal_value, kind_value};
use qs_objects::{GREATEST_BALANCE, MOST_LINES, MOST_VALUES};
use qs_program::MOST_TURNS;
use qs_script::tree::{
    Atom, Block, Body, Call, ClientItem, Expr, Formal, Item, KindText, Name, Number, ObjectItem,
    StartedItem, Stmt, TemplateItem, Test,
};
use std::alloc::AllocError;

// Adds an anchor at the end.
fn put(out: &mut Vec<Anchor>, anchor: Anchor) -> Result<(), AllocError>
    ensures added { OnOk result (out.new.items ≡ out.old.items ++ anchor ∷ []) }
{
    out.push(anchor)?;
    Ok(())
}

fn anchor_of(atom: &Atom) -> Anchor
    ensures anchor { result ≡ atom_anchor atom.now }
{
    match atom {
        Atom::Variable(name) => Anchor::Variable(name.copied()),
        Atom::Number(value) => Anchor::Value(*value),
    }
}

fn put_atoms(out: &mut Vec<Anchor>, atoms: &[Atom]) -> Result<(), AllocError>
    ensures added { OnOk result (out.new.items ≡ out.old.items ++ map atom_anchor atoms.now) }
{
    for atom in atoms {
        out.push(anchor_of(atom))?;
    }
    Ok(())
}

fn put_expr(out: &mut Vec<Anchor>, expr: &Expr) -> Result<(), AllocError>
    ensures added { OnOk result (out.new.items ≡ out.old.items ++ expr_anchors expr.now) }
{
    match expr {
        Expr::Plain(atom) => put(out, anchor_of(atom)),
        Expr::Binary(left, _, right) => {
            put(out, anchor_of(left))?;
            put(out, anchor_of(right))
        }
    }
}

fn put_test(out: &mut Vec<Anchor>, test: &Test) -> Result<(), AllocError>
    ensures added { OnOk result (out.new.items ≡ out.old.items ++ test_anchors test.now) }
{
    put(out, anchor_of(&test.left))?;
    put(out, anchor_of(&test.right))
}

fn put_call(out: &mut Vec<Anchor>, asks: bool, call: &Call) -> Result<(), AllocError>
    ensures added { OnOk result (out.new.items ≡ out.old.items ++ call_anchors asks call.now) }
{
    let args = call.args.as_slice();
    put(out, Anchor::Target(call.object.copied()))?;
    put(
        out,
        Anchor::Operation(asks, call.object.copied(), call.op.copied(), args.len()),
    )?;
    put_atoms(out, args)
}

// Adds the anchors of the statements of a block, inside a repeat or not.
#[cycle(put)]
fn put_body(out: &mut Vec<Anchor>, inside: bool, body: &Body) -> Result<(), AllocError>
    ensures added { OnOk result (out.new.items ≡ out.old.items ++ anchors inside body.now) }
{
    for stmt in body.as_slice() {
        put_stmt(out, inside, stmt)?;
    }
    Ok(())
}

#[cycle(put)]
fn put_stmt(out: &mut Vec<Anchor>, inside: bool, stmt: &Stmt) -> Result<(), AllocError>
    ensures added { OnOk result (out.new.items ≡ out.old.items ++ anchors inside (single stmt.now)) }
{
    match stmt {
        Stmt::Command(call) => put_call(out, false, call),
        Stmt::Query(answered, call) => {
            put(out, Anchor::Variable(answered.copied()))?;
            put_call(out, true, call)
        }
        Stmt::Assign(assigned, expr) => {
            put(out, Anchor::Variable(assigned.copied()))?;
            put_expr(out, expr)
        }
        Stmt::If(test, first) => {
            put_test(out, test)?;
            put_body(out, inside, first)
        }
        Stmt::IfElse(test, first, other) => {
            put_test(out, test)?;
            put_body(out, inside, first)?;
            put_body(out, inside, other)
        }
        Stmt::Repeat(count, body) => {
            put(out, Anchor::Range(0, MOST_TURNS, *count))?;
            put_body(out, true, body)
        }
        Stmt::Leave => put(out, Anchor::Leave(inside)),
    }
}

fn put_list(out: &mut Vec<Anchor>, names: &[Name]) -> Result<(), AllocError>
    ensures added { OnOk result (out.new.items ≡ out.old.items ++ map Anchor.Listed names.now) }
{
    for name in names {
        out.push(Anchor::Listed(name.copied()))?;
    }
    Ok(())
}

fn put_block(out: &mut Vec<Anchor>, block: &Block) -> Result<(), AllocError>
    ensures added { OnOk result (out.new.items ≡ out.old.items ++ block_anchors block.now) }
{
    put(out, Anchor::Separate)?;
    put_list(out, block.reserved.as_slice())?;
    put_body(out, false, &block.body)
}

pub(crate) fn put_blocks(out: &mut Vec<Anchor>, blocks: &[Block]) -> Result<(), AllocError>
    ensures added { OnOk result (out.new.items ≡ out.old.items ++ blocks_anchors blocks.now) }
{
    for block in blocks {
        put_block(out, block)?;
    }
    Ok(())
}

fn range(low: u64, high: u64, number: Number) -> Anchor
    ensures anchor { result ≡ Anchor.Range low high number }
{
    Anchor::Range(low, high, number)
}

fn put_kind(out: &mut Vec<Anchor>, kind: &KindText) -> Result<(), AllocError>
    ensures added { OnOk result (out.new.items ≡ out.old.items ++ kind_anchors kind.now) }
{
    match kind {
        KindText::Account(balance) => put(out, range(0, GREATEST_BALANCE as u64, *balance)),
        KindText::Buffer(capacity) => put(out, range(1, MOST_VALUES as u64, *capacity)),
        KindText::Grid(rows, columns) => {
            put(out, range(1, MOST_LINES as u64, *rows))?;
            put(out, range(1, MOST_LINES as u64, *columns))
        }
    }
}

fn put_object(out: &mut Vec<Anchor>, item: &ObjectItem) -> Result<(), AllocError>
    ensures added { OnOk result (out.new.items ≡ out.old.items ++ item_anchors (Item.Object item.now)) }
{
    put(
        out,
        Anchor::Object(item.name.copied(), kind_value(&item.kind)),
    )?;
    put_kind(out, &item.kind)
}

fn put_client(out: &mut Vec<Anchor>, item: &ClientItem) -> Result<(), AllocError>
    ensures added { OnOk result (out.new.items ≡ out.old.items ++ item_anchors (Item.Client item.now)) }
{
    put(out, Anchor::Client(item.name.copied()))?;
    put_blocks(out, item.blocks.as_slice())
}

fn put_formals(out: &mut Vec<Anchor>, formals: &[Formal]) -> Result<(), AllocError>
    ensures added { OnOk result (out.new.items ≡ out.old.items ++ map formal_anchor formals.now) }
{
    for formal in formals {
        out.push(Anchor::Object(formal.name.copied(), formal_value(formal.kind)))?;
    }
    Ok(())
}

fn put_template(out: &mut Vec<Anchor>, item: &TemplateItem) -> Result<(), AllocError>
    ensures added { OnOk result (out.new.items ≡ out.old.items ++ item_anchors (Item.Template item.now)) }
{
    put(out, Anchor::Template(item.name.copied()))?;
    put_formals(out, item.formals.as_slice())?;
    put_blocks(out, item.blocks.as_slice())
}

fn put_given(out: &mut Vec<Anchor>, template: &Name, objects: &[Name]) -> Result<(), AllocError>
    ensures added { OnOk result (out.new.items ≡ out.old.items ++ given_anchors template.now 0 objects.now) }
{
    let mut place = 0;
    for object in objects {
        put(
            out,
            Anchor::Given(template.copied(), place, object.copied()),
        )?;
        place += 1;
    }
    Ok(())
}

fn put_started(out: &mut Vec<Anchor>, item: &StartedItem) -> Result<(), AllocError>
    ensures added { OnOk result (out.new.items ≡ out.old.items ++ item_anchors (Item.Started item.now)) }
{
    let objects = item.objects.as_slice();
    put(out, Anchor::Client(item.name.copied()))?;
    put(out, Anchor::Starts(item.template.copied(), objects.len()))?;
    put_given(out, &item.template, objects)
}

// Adds the anchors of an item.
pub(crate) fn put_item(out: &mut Vec<Anchor>, item: &Item) -> Result<(), AllocError>
    ensures added { OnOk result (out.new.items ≡ out.old.items ++ item_anchors item.now) }
{
    match item {
        Item::Object(object) => put_object(out, object),
        Item::Client(client) => put_client(out, client),
        Item::Template(template) => put_template(out, template),
        Item::Started(started) => put_started(out, started),
    }
}
