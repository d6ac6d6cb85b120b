// How many anchors the parts of a script have, and what comes after them.

ghost use Rattle.std.specs.Prelude.{◌≡◌, ◌+◌, drop, length, false};
ghost use Rattle.qs_script.specs.tree.Views.{single};
ghost use Rattle.qs_check.specs.anchors.Anchors.{block_anchors, blocks_anchors, call_anchors, expr_anchors, item_anchors};
ghost use Rattle.qs_dot.specs.node_lines.NodeLines.{anchor_count};

use qs_script::tree::{Block, Body, Call, Expr, Item, KindText, Stmt};

/// What comes after so many entries.
pub(crate) fn skip(entries: &[u32], count: usize) -> &[u32]
    ensures rest { result.now ≡ drop count entries.now }
{
    if count < entries.len() {
        &entries[count..]
    } else {
        &entries[entries.len()..]
    }
}

/// What comes after a request.
pub(crate) fn skip_call<'a>(entries: &'a [u32], call: &Call) -> &'a [u32]
    ensures rest { result.now ≡ drop (length (call_anchors false call.now)) entries.now }
{
    skip(entries, call.args.as_slice().len() + 2)
}

/// What comes after an expression.
pub(crate) fn skip_expr<'a>(entries: &'a [u32], expr: &Expr) -> &'a [u32]
    ensures rest { result.now ≡ drop (length (expr_anchors expr.now)) entries.now }
{
    match expr {
        Expr::Plain(_) => skip(entries, 1),
        Expr::Binary(_, _, _) => skip(entries, 2),
    }
}

// What comes after some statements.
#[cycle(skipped)]
fn skip_body<'a>(entries: &'a [u32], body: &Body) -> &'a [u32]
    ensures rest { result.now ≡ drop (anchor_count body.now) entries.now }
{
    let mut rest = entries;
    for stmt in body.as_slice() {
        rest = skip_stmt(rest, stmt);
    }
    rest
}

#[cycle(skipped)]
fn skip_stmt<'a>(entries: &'a [u32], stmt: &Stmt) -> &'a [u32]
    ensures rest { result.now ≡ drop (anchor_count (single stmt.now)) entries.now }
{
    match stmt {
        Stmt::Command(call) => skip_call(entries, call),
        Stmt::Query(_, call) => skip_call(skip(entries, 1), call),
        Stmt::Assign(_, expr) => skip_expr(skip(entries, 1), expr),
        Stmt::If(_, first) => skip_body(skip(entries, 2), first),
        Stmt::IfElse(_, first, other) => skip_body(skip_body(skip(entries, 2), first), other),
        Stmt::Repeat(_, body) => skip_body(skip(entries, 1), body),
        Stmt::Leave => skip(entries, 1),
    }
}

/// What comes after a block.
pub(crate) fn skip_block<'a>(entries: &'a [u32], block: &Block) -> &'a [u32]
    ensures rest { result.now ≡ drop (length (block_anchors block.now)) entries.now }
{
    let body = skip(entries, block.reserved.as_slice().len() + 1);
    skip_body(body, &block.body)
}

fn skip_blocks<'a>(entries: &'a [u32], blocks: &[Block]) -> &'a [u32]
    ensures rest { result.now ≡ drop (length (blocks_anchors blocks.now)) entries.now }
{
    let mut rest = entries;
    for block in blocks {
        rest = skip_block(rest, block);
    }
    rest
}

/// What comes after an item.
pub(crate) fn skip_item<'a>(entries: &'a [u32], item: &Item) -> &'a [u32]
    ensures rest { result.now ≡ drop (length (item_anchors item.now)) entries.now }
{
    match item {
        Item::Object(object) => match object.kind {
            KindText::Account(_) | KindText::Buffer(_) => skip(entries, 2),
            KindText::Grid(_, _) => skip(entries, 3),
        },
        Item::Client(client) => skip_blocks(skip(entries, 1), client.blocks.as_slice()),
        Item::Template(template) => {
            let blocks = skip(entries, template.formals.as_slice().len() + 1);
            skip_blocks(blocks, template.blocks.as_slice())
        }
        Item::Started(started) => skip(entries, started.objects.as_slice().len() + 2),
    }
}
