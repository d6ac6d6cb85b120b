// The line of a fault.

ghost use Rattle.std.specs.Prelude.{◌≡◌, ◌<◌, ◌≤◌, ◌+◌, length, Ok, Err, IfOk, IfErr, List};
ghost use Rattle.qs_diagnosis.specs.Spots.{spot_at};
ghost use Rattle.qs_script.specs.declared.tokens.token.Token.{Token};
ghost use Rattle.qs_script.specs.declared.tokens.lex.TokenFault.{TokenFault as TreeFault};
ghost use Rattle.qs_script.specs.audit.tokens.Tokens.{tokens_of};
ghost use Rattle.qs_script.specs.tokens.Cutting.{tokens_in};
ghost use Rattle.qs_script.specs.audit.tree.Limits.{longest_text};
ghost use Rattle.qs_script.specs.Lines.{IsFaultLine, IsTokenLine, last_line};

use crate::tokens::{Piece, TokenFault, front};
use qs_diagnosis::{line_end, spot_of};

// How many tokens a piece is.
fn count_of(piece: Piece) -> usize
    ensures exact { result ≡ length (tokens_in piece) }
    ensures one { result ≤ 1 }
{
    match piece {
        Piece::Token(_) => 1,
        Piece::Line | Piece::Gap => 0,
    }
}

// How many tokens some bytes have, or their first fault.
fn count_tokens(text: &[u8]) -> Result<usize, TokenFault>
    ensures count { IfOk result (λ count. (ts : List Token) × (tokens_of text.now ≡ Ok ts) × (count ≡ length ts)) }
    ensures within { IfOk result (λ count. count ≤ length text.now) }
    ensures fault { IfErr result (λ fault. tokens_of text.now ≡ Err fault) }
{
    let mut count = 0;
    let mut rest = text;
    'each: while !rest.is_empty() {
        let (piece, after) = front(rest)?;
        count += count_of(piece);
        rest = after;
    }
    Ok(count)
}

// The line of a place.
fn line_at(text: &[u8], place: usize) -> u32
    requires within { place ≤ length text.now }
    requires short { length text.now ≤ longest_text }
    ensures exact { result ≡ (spot_at text.now place).line }
{
    spot_of(text, place).line as u32
}

/// The line of the token before which so many stand; or, where there are not so many, of the first fault, or of the
/// text's end.
pub(crate) fn line_of(text: &[u8], number: usize) -> u32
    requires short { length text.now ≤ longest_text }
    ensures fault { (fault : TreeFault) → tokens_of text.now ≡ Err fault → length text.now ≤ number → IsFaultLine text.now fault result }
    ensures token { (ts : List Token) → tokens_of text.now ≡ Ok ts → number < length ts → IsTokenLine text.now number result }
    ensures end { (ts : List Token) → tokens_of text.now ≡ Ok ts → length ts ≤ number → result ≡ last_line text.now }
{
    let mut left = number;
    let mut place = 0;
    'each: loop {
        let end = line_end(text, place);
        let Ok(count) = count_tokens(&text[place..end]) else {
            return line_at(text, place);
        };
        if left < count {
            return line_at(text, place);
        }
        if end == text.len() {
            return line_at(text, end);
        }
        left -= count;
        place = end + 1;
    }
}
