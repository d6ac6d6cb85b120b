// From a text to a condition, or to a sum alone.

ghost use Rattle.std.specs.Prelude.{◌≡◌, ◌-◌, IfErr, IfOk, Some, drop, length};
ghost use Rattle.qs_conditions.specs.Grammar.{first_place as first_place_of};
ghost use Rattle.qs_conditions.specs.Reading.{whole_sum};
ghost use Rattle.qs_conditions.specs.Reads.{IsNoSum, IsNone, IsReadOf, IsSumReadOf, condition_in, sum_in};
ghost use Rattle.qs_conditions.specs.Results.{Gives, IsWhole};
ghost use Rattle.qs_conditions.specs.declared.fault.ConditionFault.TheVariants.{Form};

use crate::condition::{Condition, Sum};
use crate::expect::first_place;
use crate::fault::{ConditionFault, SignFault};
use crate::limits::MOST_NESTED;
use crate::parts::either;
use crate::signs::{Placed, list_signs};
use crate::values::sum;
use std::alloc::Global;

// The fault where no reading goes on and so many signs are left.
fn form_fault(text: &[u8], signs: &[Placed], left: usize) -> ConditionFault
    ensures form { result ≡ Form (first_place_of (length text.now) (drop (length signs.now - left) signs.now)) }
{
    let place = first_place(text.len(), &signs[signs.len().saturating_sub(left)..]);
    ConditionFault::Form { place }
}

// The steps of all the signs.
fn whole(alloc: Global, signs: &[Placed]) -> Result<Condition, SignFault>
    ensures exact { IsWhole signs.now result }
{
    let mut steps = Condition::new(alloc);
    let rest = either(alloc, MOST_NESTED, &mut steps, signs)?;
    if !rest.is_empty() {
        return Err(SignFault::Form(rest.len()));
    }
    Ok(steps)
}

/// Reads a condition: comparisons of sums, and what `!`, `&&`, `||` and brackets make of them. The answer is the steps
/// of the tree of the text's signs, which is the only one, or the first fault of the whole text: the first byte that
/// begins no sign or number or name that is too long, then `Form` where no condition has these signs. `Memory` may
/// come at any allocation. A fault leaves nothing behind.
pub fn read_condition(alloc: Global, text: &[u8]) -> Result<Condition, ConditionFault>
    ensures exact { IsReadOf text.now result }
    ensures found { IfOk result (λ condition. condition_in text.now ≡ Some condition) }
    ensures none { IfErr result (IsNone text.now) }
{
    let signs = list_signs(alloc, text)?;
    let all = signs.as_slice();
    match whole(alloc, all) {
        Ok(condition) => Ok(condition),
        Err(SignFault::Form(left)) => Err(form_fault(text, all, left)),
        Err(SignFault::Memory) => Err(ConditionFault::Memory),
    }
}

// The sum of all the signs.
fn whole_sum(alloc: Global, signs: &[Placed]) -> Result<Sum, SignFault>
    ensures exact { Gives (λ sum. sum) result (whole_sum signs.now) }
{
    let (sum, rest) = sum(alloc, signs)?;
    match rest {
        [] => Ok(sum),
        _ => Err(SignFault::Form(rest.len())),
    }
}

/// Reads a sum alone, as it stands on one side of a comparison. The answer is the values of the text's signs, which are
/// the only ones, or the first fault of the whole text, as for a condition. `Memory` may come at any allocation. A fault
/// leaves nothing behind.
pub fn read_sum(alloc: Global, text: &[u8]) -> Result<Sum, ConditionFault>
    ensures exact { IsSumReadOf text.now result }
    ensures found { IfOk result (λ sum. sum_in text.now ≡ Some sum) }
    ensures none { IfErr result (IsNoSum text.now) }
{
    let signs = list_signs(alloc, text)?;
    let all = signs.as_slice();
    match whole_sum(alloc, all) {
        Ok(sum) => Ok(sum),
        Err(SignFault::Form(left)) => Err(form_fault(text, all, left)),
        Err(SignFault::Memory) => Err(ConditionFault::Memory),
    }
}
