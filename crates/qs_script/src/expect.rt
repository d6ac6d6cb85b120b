// Single tokens.

ghost use Rattle.std.specs.Prelude.{◌<◌, length, IfOk, IfSome};
ghost use Rattle.qs_script.specs.grammar.Reading.{name_at, open_brace_at, close_brace_at, close_paren_at};
ghost use Rattle.qs_script.specs.Results.{Gives, Finds};

use crate::fault::{Read, TreeFault};
use crate::tokens::{Name, Token};

pub(crate) fn name(tokens: &[Token]) -> Read<Name>
    ensures exact { Gives (λ x. (x.0, x.1.now)) result (name_at tokens.now) }
    ensures shorter { IfOk result (λ x. length x.1.now < length tokens.now) }
{
    match tokens {
        [Token::Name(name), rest @ ..] => Ok((name.copied(), rest)),
        _ => Err(TreeFault::Form(tokens.len())),
    }
}

// What comes after a {, where one stands.
pub(crate) fn past_open_brace(tokens: &[Token]) -> Option<&[Token]>
    ensures exact { Finds (λ x. x.now) result (open_brace_at tokens.now) }
    ensures shorter { IfSome result (λ x. length x.now < length tokens.now) }
{
    match tokens {
        [Token::OpenBrace, rest @ ..] => Some(rest),
        _ => None,
    }
}

// What comes after a }, where one stands.
pub(crate) fn past_close_brace(tokens: &[Token]) -> Option<&[Token]>
    ensures exact { Finds (λ x. x.now) result (close_brace_at tokens.now) }
    ensures shorter { IfSome result (λ x. length x.now < length tokens.now) }
{
    match tokens {
        [Token::CloseBrace, rest @ ..] => Some(rest),
        _ => None,
    }
}

// What comes after a ), where one stands.
pub(crate) fn past_close_paren(tokens: &[Token]) -> Option<&[Token]>
    ensures exact { Finds (λ x. x.now) result (close_paren_at tokens.now) }
    ensures shorter { IfSome result (λ x. length x.now < length tokens.now) }
{
    match tokens {
        [Token::CloseParen, rest @ ..] => Some(rest),
        _ => None,
    }
}
