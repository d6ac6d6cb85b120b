//! Whether two texts are the same but for names.

ghost use Rattle.std.specs.Prelude.{◌≡◌};
ghost use Rattle.std.specs.Bool.{Decides};

use qs_meaning::texts::{Matching, is_same_body};
use qs_program::{Block, Body};

/// Objects and variables of the same number.
struct SameNumbers;

impl Matching for SameNumbers {
    ghost Objects = { λ _ h g. h ≡ g };

    ghost Variables = { λ _ x y. x ≡ y };

    fn is_same_object(&self, here: u8, there: u8) -> bool {
        here == there
    }

    fn is_same_variable(&self, here: u8, there: u8) -> bool {
        here == there
    }
}

fn is_equal_body(one: &Body, other: &Body) -> bool
    ensures same { Decides result (one.now ≡ other.now) }
{
    is_same_body(&SameNumbers, one, other)
}

/// Whether two blocks reserve the same objects by the same list and have the same statements.
pub(crate) fn is_equal_block(one: &Block, other: &Block) -> bool
    ensures same { Decides result (one.now ≡ other.now) }
{
    one.reserved() == other.reserved() && is_equal_body(one.body(), other.body())
}
