// Accounts: a balance from 0 to the largest.

ghost use Rattle.std.specs.Prelude.{◌≡◌};
ghost use Rattle.qs_objects.specs.Objects.{IsBalance, account_state};
ghost use Rattle.qs_objects.specs.audit.Act.{account_act};

use crate::Op;
use crate::object::{GREATEST_BALANCE, count_refusal};

// Serves a request to an account.
#[inline(always)]
pub(crate) fn apply(balance: &mut i64, refused: &mut i64, op: Op, args: &[i64]) -> Option<i64>
    requires kept { IsBalance balance.old }
    ensures keeps { IsBalance balance.new }
    ensures acts { (account_state balance.new refused.new, result)
        ≡ account_act (account_state balance.old refused.old) balance.old op args.now }
{
    match (op, args) {
        (Op::Deposit, [n]) => {
            if *n < 0 || *n > GREATEST_BALANCE - *balance {
                count_refusal(refused);
            } else {
                *balance += *n;
            }
            None
        }
        (Op::Withdraw, [n]) => {
            if *n < 0 || *n > *balance {
                count_refusal(refused);
            } else {
                *balance -= *n;
            }
            None
        }
        _ => ask(*balance, *refused, op, args),
    }
}

// Answers what is no command that fits: a query, or None where the request fits nothing. A function of its own, so that
// `apply` looks at commands first.
#[inline(never)]
fn ask(balance: i64, refused: i64, op: Op, args: &[i64]) -> Option<i64>
    ensures answers { result ≡ (account_act (account_state balance refused) balance op args.now).1 }
{
    match (op, args) {
        (Op::Balance, []) => Some(balance),
        (Op::Refused, []) => Some(refused),
        _ => None,
    }
}
