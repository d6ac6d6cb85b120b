// The line of each anchor of a text.

ghost use Rattle.std.specs.Prelude.{◌≡◌, ◌≤◌, ◌++◌, IfOk, OnOk, length};
ghost use Rattle.qs_script.specs.audit.tree.Limits.{longest_text};
ghost use Rattle.qs_check.specs.anchors.Anchors.{anchors_in};
ghost use Rattle.qs_script.specs.tokens.Cutting.{tokens_in};
ghost use Rattle.qs_dot.specs.node_lines.AnchorLines.{anchor_lines, line_anchors, lines_in};

use qs_check::anchors::is_anchor;
use qs_script::tokens::{Piece, front};
use std::alloc::{AllocError, Global};

// How many anchors a piece is.
fn count_in(piece: &Piece) -> usize
    ensures count { result ≡ length (anchors_in (tokens_in piece.now)) }
    ensures few { result ≤ 1 }
{
    match piece {
        Piece::Token(token) if is_anchor(token) => 1,
        _ => 0,
    }
}

// How many anchors a line has.
fn anchors_of(line: &[u8]) -> usize
    ensures count { result ≡ length (line_anchors line.now) }
{
    let mut count = 0;
    let mut rest = line;
    'each: while !rest.is_empty() {
        match front(rest) {
            Ok((piece, after)) => {
                count += count_in(&piece);
                rest = after;
            }
            Err(_) => return 0,
        }
    }
    count
}

// Adds the number of a line for each of its anchors.
#[tactic(auto, using(crate::proofs::node_lines::TextLines::lines_repeated))]
fn put_line(lines: &mut Vec<u32>, number: u32, line: &[u8]) -> Result<(), AllocError>
    ensures added { OnOk result (lines.new.items ≡ lines.old.items ++ lines_in number line.now) }
{
    for anchor in 0..anchors_of(line) {
        lines.push(number)?;
    }
    Ok(())
}

/// The line of each anchor of a text, counted from 1. It fails only where memory runs out.
pub(crate) fn anchor_lines(alloc: Global, text: &[u8]) -> Result<Vec<u32>, AllocError>
    requires short { length text.now ≤ longest_text }
    ensures lines { IfOk result (λ lines. lines.items ≡ anchor_lines text.now) }
{
    let mut lines = Vec::new(alloc);
    let mut number = 1;
    let mut start = 0;
    for end in 0..text.len() {
        if text[end] != b'\n' {
            continue;
        }
        put_line(&mut lines, number, &text[start..end])?;
        number += 1;
        start = end + 1;
    }
    put_line(&mut lines, number, &text[start..])?;
    Ok(lines)
}
