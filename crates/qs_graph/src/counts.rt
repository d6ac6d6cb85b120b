//! How many nodes statements have.

ghost use Rattle.std.specs.Prelude.{◌≡◌, min, ◌^◌, ◌-◌};
ghost use Rattle.qs_graph.specs.audit.Graphs.{node_count};
ghost use Rattle.qs_program.specs.Views.{single};

use qs_program::{Body, Stmt};

/// How many nodes a list of statements has, or the greatest number where it has more.
#[cycle(count)]
pub(crate) fn nodes_of(body: &Body) -> usize
    ensures capped { result ≡ min (node_count body.now) (2 ^ 64 - 1) }
{
    let mut count: usize = 0;
    for stmt in body.as_slice() {
        count = count.saturating_add(nodes_of_stmt(stmt));
    }
    count
}

/// How many nodes a statement has, or the greatest number where it has more.
#[cycle(count)]
pub(crate) fn nodes_of_stmt(stmt: &Stmt) -> usize
    ensures capped { result ≡ min (node_count (single stmt.now)) (2 ^ 64 - 1) }
{
    match stmt {
        Stmt::Command(_) | Stmt::Assign(_, _) | Stmt::Leave => 1,
        Stmt::Query(_, _) => 2,
        Stmt::If { first, other, .. } => {
            nodes_of(first)
                .saturating_add(nodes_of(other))
                .saturating_add(1)
        }
        Stmt::Repeat(_, body) => nodes_of(body).saturating_add(2),
    }
}
