// Buffers: a bounded queue of values.

ghost use Rattle.std.specs.Prelude.{◌≡◌};
ghost use Rattle.std.specs.VecDeque.{deque_capacity};
ghost use Rattle.qs_objects.specs.Objects.{IsRoomy, buffer_state};
ghost use Rattle.qs_objects.specs.audit.Act.{buffer_act};

use crate::Op;
use crate::object::count_refusal;
use std::collections::VecDeque;

// Serves a request to a buffer.
#[inline(never)]
pub(crate) fn apply(
    values: &mut VecDeque<i64>,
    refused: &mut i64,
    op: Op,
    args: &[i64],
) -> Option<i64>
    requires kept { IsRoomy values.old }
    ensures keeps { IsRoomy values.new }
    ensures acts { (buffer_state (deque_capacity values.new) values.new.items refused.new, result)
        ≡ buffer_act (buffer_state (deque_capacity values.old) values.old.items refused.old)
        (deque_capacity values.old) values.old.items op args.now }
{
    match (op, args) {
        (Op::Put, [n]) => {
            if values.len() < values.capacity() {
                values.push_back_reserved(*n);
            } else {
                count_refusal(refused);
            }
            None
        }
        (Op::DropFirst, []) => {
            if values.pop_front().is_none() {
                count_refusal(refused);
            }
            None
        }
        (Op::TakeFirst, []) => Some(values.pop_front().unwrap_or(0)),
        (Op::First, []) => Some(values.front().copied().unwrap_or(0)),
        (Op::Size, []) => Some(values.len() as i64),
        (Op::Refused, []) => Some(*refused),
        _ => None,
    }
}
