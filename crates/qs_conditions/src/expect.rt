// Single signs.

ghost use Rattle.std.specs.Prelude.{◌≡◌, ◌<◌, length, IfOk, IfSome};
ghost use Rattle.qs_conditions.specs.Grammar.{first_place as first_place_of};
ghost use Rattle.qs_conditions.specs.Reading.{found, open_by, close_by, minus_by, and_by, or_by, link_by, dot_at, comma_at, closed_at, name_at, relation_at};
ghost use Rattle.qs_conditions.specs.Results.{Gives, Finds};

use crate::fault::SignFault;
use crate::signs::{Placed, Sign};
use qs_script::tokens::Name;
use qs_script::tree::Relation;

// The place of the first sign, or that of the end.
pub(crate) fn first_place(end: usize, signs: &[Placed]) -> usize
    ensures exact { result ≡ first_place_of end signs.now }
{
    if signs.is_empty() {
        end
    } else {
        signs[0].place
    }
}

// What comes after a (, where one stands.
pub(crate) fn past_open(signs: &[Placed]) -> Option<&[Placed]>
    ensures exact { Finds (λ x. x.now) result (found open_by signs.now) }
    ensures shorter { IfSome result (λ x. length x.now < length signs.now) }
{
    match signs {
        [first, rest @ ..] if matches!(first.sign, Sign::Open) => Some(rest),
        _ => None,
    }
}

// What comes after a ), where one stands.
pub(crate) fn past_close(signs: &[Placed]) -> Option<&[Placed]>
    ensures exact { Finds (λ x. x.now) result (found close_by signs.now) }
    ensures shorter { IfSome result (λ x. length x.now < length signs.now) }
{
    match signs {
        [first, rest @ ..] if matches!(first.sign, Sign::Close) => Some(rest),
        _ => None,
    }
}

// What comes after a -, where one stands.
pub(crate) fn past_minus(signs: &[Placed]) -> Option<&[Placed]>
    ensures exact { Finds (λ x. x.now) result (found minus_by signs.now) }
    ensures shorter { IfSome result (λ x. length x.now < length signs.now) }
{
    match signs {
        [first, rest @ ..] if matches!(first.sign, Sign::Minus) => Some(rest),
        _ => None,
    }
}

// What comes after a &&, where one stands.
pub(crate) fn past_and(signs: &[Placed]) -> Option<&[Placed]>
    ensures exact { Finds (λ x. x.now) result (found and_by signs.now) }
    ensures shorter { IfSome result (λ x. length x.now < length signs.now) }
{
    match signs {
        [first, rest @ ..] if matches!(first.sign, Sign::And) => Some(rest),
        _ => None,
    }
}

// What comes after a ||, where one stands.
pub(crate) fn past_or(signs: &[Placed]) -> Option<&[Placed]>
    ensures exact { Finds (λ x. x.now) result (found or_by signs.now) }
    ensures shorter { IfSome result (λ x. length x.now < length signs.now) }
{
    match signs {
        [first, rest @ ..] if matches!(first.sign, Sign::Or) => Some(rest),
        _ => None,
    }
}

// What comes after a + or a -, where one stands, and whether it is a -.
pub(crate) fn past_link(signs: &[Placed]) -> Option<(bool, &[Placed])>
    ensures exact { Finds (λ x. (x.0, x.1.now)) result (found link_by signs.now) }
    ensures shorter { IfSome result (λ x. length x.1.now < length signs.now) }
{
    match signs {
        [first, rest @ ..] if matches!(first.sign, Sign::Plus) => Some((false, rest)),
        [first, rest @ ..] if matches!(first.sign, Sign::Minus) => Some((true, rest)),
        _ => None,
    }
}

// What comes after a dot.
pub(crate) fn dot(signs: &[Placed]) -> Result<&[Placed], SignFault>
    ensures exact { Gives (λ x. x.now) result (dot_at signs.now) }
    ensures shorter { IfOk result (λ x. length x.now < length signs.now) }
{
    match signs {
        [first, rest @ ..] if matches!(first.sign, Sign::Dot) => Ok(rest),
        _ => Err(SignFault::Form(signs.len())),
    }
}

// What comes after a comma.
pub(crate) fn comma(signs: &[Placed]) -> Result<&[Placed], SignFault>
    ensures exact { Gives (λ x. x.now) result (comma_at signs.now) }
    ensures shorter { IfOk result (λ x. length x.now < length signs.now) }
{
    match signs {
        [first, rest @ ..] if matches!(first.sign, Sign::Comma) => Ok(rest),
        _ => Err(SignFault::Form(signs.len())),
    }
}

// What comes after a ).
pub(crate) fn closed(signs: &[Placed]) -> Result<&[Placed], SignFault>
    ensures exact { Gives (λ x. x.now) result (closed_at signs.now) }
    ensures shorter { IfOk result (λ x. length x.now < length signs.now) }
{
    match signs {
        [first, rest @ ..] if matches!(first.sign, Sign::Close) => Ok(rest),
        _ => Err(SignFault::Form(signs.len())),
    }
}

pub(crate) fn name(signs: &[Placed]) -> Result<(Name, &[Placed]), SignFault>
    ensures exact { Gives (λ x. (x.0, x.1.now)) result (name_at signs.now) }
    ensures shorter { IfOk result (λ x. length x.1.now < length signs.now) }
{
    match signs {
        [
            Placed {
                sign: Sign::Name(name),
                ..
            },
            rest @ ..,
        ] => Ok((name.copied(), rest)),
        _ => Err(SignFault::Form(signs.len())),
    }
}

pub(crate) fn relation(signs: &[Placed]) -> Result<(Relation, &[Placed]), SignFault>
    ensures exact { Gives (λ x. (x.0, x.1.now)) result (relation_at signs.now) }
    ensures shorter { IfOk result (λ x. length x.1.now < length signs.now) }
{
    match signs {
        [
            Placed {
                sign: Sign::Relation(relation),
                ..
            },
            rest @ ..,
        ] => Ok((*relation, rest)),
        _ => Err(SignFault::Form(signs.len())),
    }
}
