// Where the tokens of a text stand.

ghost use Rattle.std.specs.Prelude.{◌≡◌, ◌≤◌, ◌++◌, OnOk, IfOk, IfErr, MatchOption, length};
ghost use Rattle.qs_check.specs.anchors.Anchors.{IsAnchorAt, anchors_in};
ghost use Rattle.qs_messages.specs.Spans.{ArePlaced, IsFaultAt, placed_in, tokens_in};

use qs_check::anchors::is_anchor;
use qs_script::tokens::{Piece, Token, TokenFault, front};
use std::alloc::{AllocError, Global};

/// A token and where it stands: the bytes from `start` up to `end`.
#[derive(Drop)]
pub struct PlacedToken {
    /// The token.
    pub token: Token,
    /// How many bytes stand before it.
    pub start: usize,
    /// How many bytes stand before what comes after it.
    pub end: usize,
}

/// Why a text has no tokens, and where.
#[derive(Clone, Copy)]
pub enum SpanFault {
    /// A token at fault, and how many bytes stand before it.
    Token { fault: TokenFault, start: usize },
    /// An allocation failed.
    Memory,
}

impl From<AllocError> for SpanFault {
    ghost use Rattle.std.specs.Prelude.{◌≡◌};
    ghost use Rattle.qs_messages.specs.declared.causes.spans.SpanFault.TheVariants.{Memory};

    ghost from_gives = { λ _ e. e ≡ Memory };

    fn from(_: AllocError) -> SpanFault {
        SpanFault::Memory
    }
}

// Adds the token of a piece, where it is one.
fn add_piece(
    tokens: &mut Vec<PlacedToken>,
    piece: Piece,
    start: usize,
    end: usize,
) -> Result<(), AllocError>
    ensures added { OnOk result (tokens.new.items ≡ tokens.old.items ++ placed_in piece start end) }
{
    if let Piece::Token(token) = piece {
        tokens.push(PlacedToken { token, start, end })?;
    }
    Ok(())
}

/// The tokens of a text, each with its place; or the first token at fault, with its place.
pub fn placed_tokens(alloc: Global, text: &[u8]) -> Result<Vec<PlacedToken>, SpanFault>
    ensures placed { IfOk result (λ tokens. ArePlaced text.now tokens.items) }
    ensures fault { IfErr result (IsFaultAt text.now) }
{
    let mut tokens = Vec::new(alloc);
    let mut rest = text;
    'each: while !rest.is_empty() {
        let start = text.len() - rest.len();
        match front(rest) {
            Ok((piece, after)) => {
                add_piece(&mut tokens, piece, start, text.len() - after.len())?;
                rest = after;
            }
            Err(fault) => return Err(SpanFault::Token { fault, start }),
        }
    }
    Ok(tokens)
}

/// The place of the anchor of a number among some tokens, where there is one.
pub(crate) fn place_of_anchor(tokens: &[PlacedToken], number: usize) -> Option<usize>
    ensures there { MatchOption result
        (length (anchors_in (tokens_in tokens.now)) ≤ number)
        (IsAnchorAt (tokens_in tokens.now) number) }
{
    let mut left = number;
    for place in 0..tokens.len() {
        if is_anchor(&tokens[place].token) {
            if left == 0 {
                return Some(place);
            }
            left -= 1;
        }
    }
    None
}
