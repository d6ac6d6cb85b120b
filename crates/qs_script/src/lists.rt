// Lists, read element by element.

ghost use Rattle.std.specs.Prelude.{◌<◌, [], ◌∷◌, length, IfOk, IfSome, List, Option};
ghost use Rattle.qs_script.specs.declared.tokens.token.Token.{Token as token};
ghost use Rattle.qs_script.specs.grammar.Reading.{Read, after, run, list_loop};
ghost use Rattle.qs_script.specs.Results.{Gives, Finds};

use crate::fault::Read;
use crate::tokens::Token;
use crate::tree::add;
use std::alloc::Global;

// How a list is read: what ends it, and what each of its elements is.
pub(crate) trait Listing {
    type Element: Drop;

    ghost stop_at: { List token → Option (List token) };

    ghost element_at: { List token → Read Self.Element };

    // What comes after the end, where it stands.
    fn past_end(tokens: &[Token]) -> Option<&[Token]>
        ensures exact { Finds (λ x. x.now) result (stop_at tokens.now) }
        ensures shorter { IfSome result (λ x. length x.now < length tokens.now) };

    // The element at the front.
    fn element(alloc: Global, tokens: &[Token]) -> Read<Self::Element>
        ensures exact { Gives (λ x. (x.0, x.1.now)) result (element_at tokens.now) }
        ensures shorter { IfOk result (λ x. length x.1.now < length tokens.now) };
}

// The elements up to the end, after those that are there.
#[inline(always)]
pub(crate) fn list<L: Listing>(
    alloc: Global,
    before: Vec<L::Element>,
    tokens: &[Token],
) -> Read<Vec<L::Element>>
    ensures exact { Gives (λ x. (x.0.items, x.1.now)) result (after (list_loop L.stop_at L.element_at) before.items (run (list_loop L.stop_at L.element_at) tokens.now)) }
    ensures shorter { IfOk result (λ x. length x.1.now < length tokens.now) }
{
    let mut list = before;
    let mut rest = tokens;
    'each: loop {
        if let Some(after) = L::past_end(rest) {
            return Ok((list, after));
        }
        let (element, after) = L::element(alloc, rest)?;
        add(&mut list, element)?;
        rest = after;
    }
}

// The elements from a first one on. It takes memory for so many at once.
pub(crate) fn from_first<L: Listing>(
    alloc: Global,
    count: usize,
    first: L::Element,
    tokens: &[Token],
) -> Read<Vec<L::Element>>
    ensures exact { Gives (λ x. (x.0.items, x.1.now)) result (after (list_loop L.stop_at L.element_at) (first ∷ []) (run (list_loop L.stop_at L.element_at) tokens.now)) }
    ensures shorter { IfOk result (λ x. length x.1.now < length tokens.now) }
{
    let mut before = Vec::with_capacity(alloc, count)?;
    add(&mut before, first)?;
    list::<L>(alloc, before, tokens)
}
