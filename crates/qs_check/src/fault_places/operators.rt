//! The words of the operations.

ghost use Rattle.std.specs.Prelude.{◌≡◌, length};
ghost use Rattle.qs_program.specs.audit.Numbering.{same_name};
ghost use Rattle.qs_check.specs.audit.fault_places.Operators.{is_meant as is_meant_of, op_of as operation_of};

use qs_objects::{Kind, Op};
use qs_script::tree::Name;

// Whether a word is a known one. Both are short, so they are compared byte by byte, which the compiler writes out for
// each.
#[inline(always)]
fn is_word(word: &[u8], known: &[u8]) -> bool
    ensures value { result ≡ same_name word.now known.now }
{
    word.len() == known.len() && are_same(word, known)
}

#[inline(always)]
fn are_same(word: &[u8], known: &[u8]) -> bool
    requires long { length word.now ≡ length known.now }
    ensures value { result ≡ same_name word.now known.now }
{
    for i in 0..known.len() {
        if word[i] != known[i] {
            return false;
        }
    }
    true
}

#[inline(always)]
fn is_meant(asks: bool, op: Op) -> bool
    ensures value { result ≡ is_meant_of asks op }
{
    op.is_query() == asks
}

/// The query, or else the command, that a kind has under a name.
pub fn find_op(asks: bool, kind: Kind, name: &Name) -> Option<Op>
    ensures op { result ≡ operation_of asks kind name.now }
{
    let word = name.as_slice();
    for op in kind.operations() {
        if is_meant(asks, *op) && is_word(word, op.word()) {
            return Some(*op);
        }
    }
    None
}
