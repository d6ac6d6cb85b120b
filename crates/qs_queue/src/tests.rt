//! A queue that is full and empty, and values from thread to thread through a queue of one.

ghost use Rattle.std.specs.Prelude.{◌≡◌, ◌<◌, IfOk, ⊤};

use crate::{Key, Protocol, Sender, Taker, make_ends};
use std::alloc::{AllocError, Global};
use std::sync::Wait;
use std::test::*;
use std::thread;

// Anything may be sent.
struct Anything;

impl Protocol<u8, ()> for Anything {
    ghost use Rattle.std.specs.Prelude.{⊤};

    ghost good = { λ key xs. ⊤ };

    ghost none = { λ key. tt };

    ghost front = { λ key xs ys is. tt };

    ghost unset = { tt };
}

struct NoKey;

impl Key<()> for NoKey {
    ghost key = { tt };
}

type FreeSender = Sender<u8, (), Anything>;

type FreeTaker = Taker<u8, (), Anything>;

fn make_free(alloc: Global, room: usize) -> Result<(FreeSender, FreeTaker), AllocError>
    requires { 0 < room }
    ensures { IfOk result (λ ends. ends.0.name ≡ ends.1.name) }
{
    make_ends::<u8, (), Anything, NoKey>(alloc, room)
}

#[test]
fn a_full_queue_hands_the_value_back(rt: HostRuntime) -> Result<(), Fail> {
    let (mut sender, mut taker) = make_free(rt.alloc(), 2)?;
    assert_eq!(rt; taker.try_take(&rt), None);
    assert_eq!(rt; sender.try_send(&rt, 1), Ok(()));
    assert_eq!(rt; sender.try_send(&rt, 2), Ok(()));
    assert_eq!(rt; sender.try_send(&rt, 3), Err(3));
    assert_eq!(rt; taker.try_take(&rt), Some(1));
    assert_eq!(rt; sender.try_send(&rt, 4), Ok(()));
    assert_eq!(rt; taker.try_take(&rt), Some(2));
    assert_eq!(rt; taker.try_take(&rt), Some(4));
    assert_eq!(rt; taker.try_take(&rt), None);
    sender.agree(taker);
    Ok(())
}

fn send_all<R: Wait>(rt: &R, sender: FreeSender) -> FreeSender
    ensures { result.name ≡ sender.name }
{
    let mut sender = sender;
    for value in 0..200u8 {
        sender.send(rt, value);
    }
    sender
}

fn take_all<R: Wait>(rt: &R, taker: FreeTaker) -> (FreeTaker, bool)
    ensures { result.0.name ≡ taker.name }
{
    let mut taker = taker;
    let mut in_order = true;
    for value in 0..200u8 {
        in_order = taker.take(rt) == value && in_order;
    }
    (taker, in_order)
}

#[test]
fn another_thread_takes_all_in_order(rt: HostRuntime) -> Result<(), Fail> {
    let (sender, taker) = make_free(rt.alloc(), 1)?;
    let wait = &rt;
    let (mut sender, (mut taker, in_order)) = thread::join(
        &rt,
        move || -> FreeSender
            ensures { result.name ≡ sender.name }
        { send_all(wait, sender) },
        move || -> (FreeTaker, bool)
            ensures { result.0.name ≡ taker.name }
        { take_all(wait, taker) },
    );
    assert!(rt; in_order);
    assert_eq!(rt; taker.try_take(&rt), None);
    sender.agree(taker);
    Ok(())
}
