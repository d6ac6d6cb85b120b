// Values, expressions and requests.

ghost use Rattle.std.specs.Prelude.{◌<◌, [], ◌∷◌, length, ℕ, List, IfOk, IfSome};
ghost use Rattle.qs_script.specs.grammar.Reading.{after, run, atom_at, further_at, more_loop, args_at, call_at, operator_at, relation_at, test_at};
ghost use Rattle.qs_script.specs.tree.Tree.{call_of};
ghost use Rattle.qs_script.specs.Results.{Gives, Finds};

use crate::expect::past_close_paren;
use crate::fault::{Read, TreeFault};
use crate::tokens::{Name, Token};
use crate::tree::{ArgumentList, Atom, Operator, Relation, Test};
use std::alloc::Global;

#[inline(always)]
pub(crate) fn atom(tokens: &[Token]) -> Read<Atom>
    ensures exact { Gives (λ x. (x.0, x.1.now)) result (atom_at tokens.now) }
    ensures shorter { IfOk result (λ x. length x.1.now < length tokens.now) }
{
    match tokens {
        [Token::Name(name), rest @ ..] => Ok((Atom::Variable(name.copied()), rest)),
        [Token::Number(number), rest @ ..] => Ok((Atom::Number(number.value()), rest)),
        [Token::Minus, Token::Number(number), rest @ ..] => {
            Ok((Atom::Number(-number.value()), rest))
        }
        [Token::Minus, rest @ ..] => Err(TreeFault::Form(rest.len())),
        _ => Err(TreeFault::Form(tokens.len())),
    }
}

// A further argument.
fn further(tokens: &[Token]) -> Read<Atom>
    ensures exact { Gives (λ x. (x.0, x.1.now)) result (further_at tokens.now) }
    ensures shorter { IfOk result (λ x. length x.1.now < length tokens.now) }
{
    match tokens {
        [Token::Comma, rest @ ..] => atom(rest),
        _ => Err(TreeFault::Form(tokens.len())),
    }
}

// The arguments after the first, and the bracket that closes them.
#[inline(always)]
fn more(alloc: Global, first: Atom, tokens: &[Token]) -> Read<ArgumentList>
    ensures exact { Gives (λ x. (x.0, x.1.now)) result (after more_loop (first ∷ []) (run more_loop tokens.now)) }
    ensures shorter { IfOk result (λ x. length x.1.now < length tokens.now) }
{
    if let Some(rest) = past_close_paren(tokens) {
        return Ok((ArgumentList::one(alloc, first), rest));
    }
    several(alloc, first, tokens)
}

// The arguments from a first one on, of which more may come.
#[inline(never)]
pub(crate) fn several(alloc: Global, first: Atom, tokens: &[Token]) -> Read<ArgumentList>
    ensures exact { Gives (λ x. (x.0, x.1.now)) result (after more_loop (first ∷ []) (run more_loop tokens.now)) }
    ensures shorter { IfOk result (λ x. length x.1.now < length tokens.now) }
{
    let mut args = ArgumentList::one(alloc, first);
    let mut rest = tokens;
    'each: loop {
        if let Some(after) = past_close_paren(rest) {
            return Ok((args, after));
        }
        let (atom, after) = further(rest)?;
        args.push(atom)?;
        rest = after;
    }
}

// The arguments, and the bracket that closes them.
#[inline(always)]
pub(crate) fn args(alloc: Global, tokens: &[Token]) -> Read<ArgumentList>
    ensures exact { Gives (λ x. (x.0, x.1.now)) result (args_at tokens.now) }
    ensures shorter { IfOk result (λ x. length x.1.now < length tokens.now) }
{
    if let Some(rest) = past_close_paren(tokens) {
        return Ok((ArgumentList::none(alloc), rest));
    }
    let (first, rest) = atom(tokens)?;
    more(alloc, first, rest)
}

// A request's operation and arguments, after the dot.
#[inline(always)]
pub(crate) fn request(
    alloc: Global,
    tokens: &[Token],
) -> Result<(&Name, ArgumentList, &[Token]), TreeFault>
    ensures exact { (object : List ℕ) → Gives (λ x. (call_of object x.0.now x.1, x.2.now)) result (call_at object tokens.now) }
    ensures shorter { IfOk result (λ x. length x.2.now < length tokens.now) }
{
    match tokens {
        [Token::Name(op), Token::OpenParen, rest @ ..] => {
            let (args, rest) = args(alloc, rest)?;
            Ok((op, args, rest))
        }
        [Token::Name(_), rest @ ..] => Err(TreeFault::Form(rest.len())),
        _ => Err(TreeFault::Form(tokens.len())),
    }
}

#[inline(always)]
pub(crate) fn operator(tokens: &[Token]) -> Option<(Operator, &[Token])>
    ensures exact { Finds (λ x. (x.0, x.1.now)) result (operator_at tokens.now) }
    ensures shorter { IfSome result (λ x. length x.1.now < length tokens.now) }
{
    match tokens {
        [Token::Plus, rest @ ..] => Some((Operator::Plus, rest)),
        [Token::Minus, rest @ ..] => Some((Operator::Minus, rest)),
        [Token::Times, rest @ ..] => Some((Operator::Times, rest)),
        _ => None,
    }
}

fn relation(tokens: &[Token]) -> Read<Relation>
    ensures exact { Gives (λ x. (x.0, x.1.now)) result (relation_at tokens.now) }
    ensures shorter { IfOk result (λ x. length x.1.now < length tokens.now) }
{
    match tokens {
        [Token::Equal, rest @ ..] => Ok((Relation::Equal, rest)),
        [Token::Unequal, rest @ ..] => Ok((Relation::Unequal, rest)),
        [Token::Less, rest @ ..] => Ok((Relation::Less, rest)),
        [Token::AtMost, rest @ ..] => Ok((Relation::AtMost, rest)),
        [Token::Greater, rest @ ..] => Ok((Relation::Greater, rest)),
        [Token::AtLeast, rest @ ..] => Ok((Relation::AtLeast, rest)),
        _ => Err(TreeFault::Form(tokens.len())),
    }
}

pub(crate) fn test(tokens: &[Token]) -> Read<Test>
    ensures exact { Gives (λ x. (x.0, x.1.now)) result (test_at tokens.now) }
    ensures shorter { IfOk result (λ x. length x.1.now < length tokens.now) }
{
    let (left, rest) = atom(tokens)?;
    let (relation, rest) = relation(rest)?;
    let (right, rest) = atom(rest)?;
    Ok((
        Test {
            left,
            relation,
            right,
        },
        rest,
    ))
}
