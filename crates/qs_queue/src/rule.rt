//! The rule under which a queue's two ends share it.

use crate::protocol::{Key, Protocol};
use crossbeam_queue::protocol::{Join, Lesson, Outcome, Split};
use crossbeam_queue::{RuledArrayQueue, protocol as ruled};
use std::collections::LinkedList;
use std::marker::PhantomData;

/// What a pass may do, and what it has done. No value of it is made.
pub struct Known<T, K> {
    pub opens: bool,
    pub sends: bool,
    pub takes: bool,
    pub key: K,
    pub sent: LinkedList<T>,
    pub received: LinkedList<T>,
}

/// One pass sends and one takes; what was received and what the queue holds is what was sent, which is good.
pub struct TwoEnds<P> {
    of: PhantomData<P>,
}

impl<T, K, P: Protocol<T, K>> ruled::Protocol<T, Known<T, K>> for TwoEnds<P> {
    ghost use Rattle.qs_queue.specs.Rule.{Keeps, opening};

    ghost holds = { Keeps P.good };

    ghost first = { opening P.unset };
}

/// A queue whose items keep to a protocol.
pub type Queue<T, K, P> = RuledArrayQueue<T, Known<T, K>, TwoEnds<P>>;

/// The first pass becomes the two ends, with a key.
pub struct Opens<N> {
    of: PhantomData<N>,
}

impl<T, K, N: Key<K>> Split<Known<T, K>> for Opens<N> {
    ghost use Rattle.std.specs.Prelude.{[]};
    ghost use Rattle.qs_queue.specs.Rule.{sending, taking};

    ghost left = { λ v. sending N.key [] };

    ghost right = { λ v. taking N.key [] };
}

/// The two ends come together in one pass, and part again.
pub struct Meets<P> {
    of: PhantomData<P>,
}

impl<T, K, P: Protocol<T, K>> Split<Known<T, K>> for Meets<P> {
    ghost use Rattle.qs_queue.specs.Rule.{sending, taking};

    ghost left = { λ v. sending v.key v.sent };

    ghost right = { λ v. taking v.key v.received };
}

impl<T, K, P: Protocol<T, K>> Join<Known<T, K>> for Meets<P> {
    ghost use Rattle.qs_queue.specs.Rule.{whole, spent};

    ghost both = { λ v w. whole v.key v.sent w.received };

    ghost spent = { spent P.unset };
}

/// A value is sent; if the queue is full, what it holds is the end of what was sent.
pub struct Sends;

impl<T, K> Outcome<T, Known<T, K>> for Sends {
    ghost use Rattle.std.specs.Prelude.{◌≡◌, ◌++◌, ◌∷◌, []};
    ghost use Rattle.qs_queue.specs.Rule.{sending};

    ghost then = { λ v x w. w ≡ sending v.key (v.sent ++ x ∷ []) };
}

impl<T, K> Lesson<T, Known<T, K>> for Sends {
    ghost use Rattle.std.specs.Prelude.{◌≡◌, ◌++◌, List};

    ghost fact = { λ v items. (received : List T) × (v.sent ≡ received ++ items) };
}

/// A value is taken, and what was received is good.
pub struct Takes<P> {
    of: PhantomData<P>,
}

impl<T, K, P: Protocol<T, K>> Outcome<T, Known<T, K>> for Takes<P> {
    ghost use Rattle.std.specs.Prelude.{◌≡◌, ◌++◌, ◌∷◌, []};
    ghost use Rattle.qs_queue.specs.Rule.{taking};

    ghost then = { λ v x w. (w ≡ taking v.key (v.received ++ x ∷ [])) × P.good v.key (v.received ++ x ∷ []) };
}

impl<T, K, P: Protocol<T, K>> Lesson<T, Known<T, K>> for Takes<P> {
    ghost use Rattle.std.specs.Prelude.{◌++◌};

    ghost fact = { λ v items. P.good v.key (v.received ++ items) };
}

/// What was received and what the queue holds is what was sent, which is good.
pub struct Agrees<P> {
    of: PhantomData<P>,
}

impl<T, K, P: Protocol<T, K>> Lesson<T, Known<T, K>> for Agrees<P> {
    ghost use Rattle.std.specs.Prelude.{◌≡◌, ◌++◌};

    ghost fact = { λ v items. (v.sent ≡ v.received ++ items) × P.good v.key v.sent };
}
