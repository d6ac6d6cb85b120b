// The lines of the nodes of a block, from its tree.

ghost use Rattle.std.specs.Prelude.{◌≡◌, ◌∷◌, ◌++◌, [], drop, IfOk, OnOk};
ghost use Rattle.qs_script.specs.tree.Views.{single};
ghost use Rattle.qs_dot.specs.node_lines.NodeLines.{anchor_count, block_nodes, first_entry, statement_nodes};

use crate::node_lines::skipping::{skip, skip_call, skip_expr};
use qs_script::tree::{Block, Body, Stmt};
use std::alloc::{AllocError, Global};

// Adds the first entry, once for a node.
fn put_first(out: &mut Vec<u32>, entries: &[u32]) -> Result<(), AllocError>
    ensures added { OnOk result (out.new.items ≡ out.old.items ++ first_entry entries.now ∷ []) }
{
    out.push(entries.first().copied().unwrap_or(0))?;
    Ok(())
}

// Adds the entries of the nodes of statements, and says what comes after their anchors.
#[cycle(put)]
fn put_body<'a>(
    out: &mut Vec<u32>,
    entries: &'a [u32],
    body: &Body,
) -> Result<&'a [u32], AllocError>
    ensures added { OnOk result (out.new.items ≡ out.old.items ++ statement_nodes entries.now body.now) }
    ensures rest { IfOk result (λ rest. rest.now ≡ drop (anchor_count body.now) entries.now) }
{
    let mut rest = entries;
    for stmt in body.as_slice() {
        rest = put_stmt(out, rest, stmt)?;
    }
    Ok(rest)
}

#[cycle(put)]
fn put_stmt<'a>(
    out: &mut Vec<u32>,
    entries: &'a [u32],
    stmt: &Stmt,
) -> Result<&'a [u32], AllocError>
    ensures added { OnOk result (out.new.items ≡ out.old.items ++ statement_nodes entries.now (single stmt.now)) }
    ensures rest { IfOk result (λ rest. rest.now ≡ drop (anchor_count (single stmt.now)) entries.now) }
{
    put_first(out, entries)?;
    match stmt {
        Stmt::Command(call) => Ok(skip_call(entries, call)),
        Stmt::Query(_, call) => {
            put_first(out, entries)?;
            Ok(skip_call(skip(entries, 1), call))
        }
        Stmt::Assign(_, expr) => Ok(skip_expr(skip(entries, 1), expr)),
        Stmt::If(_, first) => put_body(out, skip(entries, 2), first),
        Stmt::IfElse(_, first, other) => {
            let otherwise = put_body(out, skip(entries, 2), first)?;
            put_body(out, otherwise, other)
        }
        Stmt::Repeat(_, body) => {
            put_first(out, entries)?;
            put_body(out, skip(entries, 1), body)
        }
        Stmt::Leave => Ok(skip(entries, 1)),
    }
}

/// The entries of the nodes of a block.
pub(crate) fn nodes_of(
    alloc: Global,
    entries: &[u32],
    block: &Block,
) -> Result<Vec<u32>, AllocError>
    ensures nodes { IfOk result (λ nodes. nodes.items ≡ block_nodes entries.now block.now) }
{
    let mut nodes = Vec::new(alloc);
    let body = skip(entries, block.reserved.as_slice().len() + 1);
    put_first(&mut nodes, entries)?;
    put_body(&mut nodes, body, &block.body)?;
    Ok(nodes)
}
