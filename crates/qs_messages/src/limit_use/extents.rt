// How far statements go: how deep they are nested, and how often a repeat turns.

ghost use Rattle.std.specs.Prelude.{◌≡◌, min};
ghost use Rattle.qs_program.specs.Sound.{levels_of};
ghost use Rattle.qs_program.specs.Views.{single};
ghost use Rattle.qs_messages.specs.Extents.{turns_of};

use qs_program::{Body, Stmt};

/// How many statements stand one inside another at most, counted to 255.
#[cycle(levels)]
pub(crate) fn body_levels(body: &Body) -> u8
    ensures capped { result ≡ min (levels_of body.now) 255 }
{
    let mut levels = 0;
    for stmt in body.as_slice() {
        levels = stmt_levels(stmt).max(levels);
    }
    levels
}

#[cycle(levels)]
fn stmt_levels(stmt: &Stmt) -> u8
    ensures capped { result ≡ min (levels_of (single stmt.now)) 255 }
{
    match stmt {
        Stmt::If { first, other, .. } => {
            let inner = body_levels(first).max(body_levels(other));
            inner.saturating_add(1)
        }
        Stmt::Repeat(_, body) => body_levels(body).saturating_add(1),
        Stmt::Command(_) | Stmt::Query(_, _) | Stmt::Assign(_, _) | Stmt::Leave => 1,
    }
}

/// How many turns a repeat has at most; 0 where there is none.
#[cycle(turns)]
pub(crate) fn body_turns(body: &Body) -> u64
    ensures exact { result ≡ turns_of body.now }
{
    let mut turns = 0;
    for stmt in body.as_slice() {
        turns = stmt_turns(stmt).max(turns);
    }
    turns
}

#[cycle(turns)]
fn stmt_turns(stmt: &Stmt) -> u64
    ensures exact { result ≡ turns_of (single stmt.now) }
{
    match stmt {
        Stmt::If { first, other, .. } => body_turns(first).max(body_turns(other)),
        Stmt::Repeat(count, body) => body_turns(body).max(*count),
        Stmt::Command(_) | Stmt::Query(_, _) | Stmt::Assign(_, _) | Stmt::Leave => 0,
    }
}
