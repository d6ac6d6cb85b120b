//! The two ends of a queue.

ghost use Rattle.std.specs.Prelude.{◌≡◌, ◌<◌, ◌≤◌, List, [], ◌∷◌, ◌++◌, length, IfOk, IfSome, IfNone, IfErr};
ghost use Rattle.crossbeam_queue.specs.Passes.{view, IsPassOf, ruled_capacity};
ghost use Rattle.qs_queue.specs.Views.{MayTake};

use crate::events::Events;
use crate::long_spins::LongSpins;
use crate::protocol::{Key, Protocol};
use crate::rule::{Agrees, Known, Meets, Opens, Queue, Sends, Takes};
use crossbeam_queue::Pass;
use crossbeam_utils::Backoff;
use crossbeam_utils::sync::EventCount;
use std::alloc::{AllocError, Global};
use std::hint;
use std::marker::Model;
use std::sync::{Arc, Wait};

// How often the taking end looks before it sleeps, some 3 microseconds in all, and how many of these looks have no
// pause after them.
const SPINS: u32 = 80;

const QUICK_SPINS: u32 = 30;

// How often it looks in a long spin, some 60 microseconds more.
const LONG_SPINS: u32 = 1200;

// What both ends have: the queue, and who sleeps until something is sent.
struct Shared<T, K, P: Protocol<T, K>> {
    queue: Queue<T, K, P>,
    sleeper: EventCount,
}

impl<T: Drop, K, P: Protocol<T, K>> Drop for Shared<T, K, P> {
    fn drop(self) {
        let Shared {
            queue: _,
            sleeper: _,
        } = self;
    }
}

/// The sending end of a queue.
pub struct Sender<T, K, P: Protocol<T, K>> {
    shared: Arc<Shared<T, K, P>, Global>,
    pass: Pass<T, Known<T, K>>,
}

impl<T: Drop, K, P: Protocol<T, K>> Drop for Sender<T, K, P> {
    fn drop(self) {
        let Sender { shared: _, pass: _ } = self;
    }
}

impl<T, K, P: Protocol<T, K>> Model for Sender<T, K, P> {
    ghost use Rattle.std.specs.Prelude.{◌≡◌};
    ghost use Rattle.crossbeam_queue.specs.Passes.{view as known, IsPassOf, ruled_capacity};
    ghost use Rattle.qs_queue.specs.Rule.{sending};
    ghost use Rattle.qs_queue.specs.Views.{SenderView};

    ghost Value = { SenderView T K };

    ghost view = { λ s. record {
      name = s.pass.table_id;
      room = ruled_capacity s.shared.value.queue;
      key = (known s.pass).key;
      sent = (known s.pass).sent;
    } };

    ghost invariant = { λ s. IsPassOf s.shared.value.queue s.pass × (known s.pass ≡ sending (known s.pass).key (known s.pass).sent) };
}

/// What wakes the taking end of a queue, where it sleeps there, and does nothing else. Contracts see the queue's name.
pub struct Waker<T, K, P: Protocol<T, K>> {
    shared: Arc<Shared<T, K, P>, Global>,
}

impl<T: Drop, K, P: Protocol<T, K>> Drop for Waker<T, K, P> {
    fn drop(self) {
        let Waker { shared: _ } = self;
    }
}

impl<T, K, P: Protocol<T, K>> Model for Waker<T, K, P> {
    ghost use Rattle.atomic_table.specs.Seated.{TableId};

    ghost Value = { TableId };

    ghost view = { λ w. w.shared.value.queue.table.shared.table_id };
}

impl<T, K, P: Protocol<T, K>> Waker<T, K, P> {
    /// Wakes the taking end, where it sleeps at its queue.
    pub fn wake(&self) {
        self.shared.sleeper.notify_one();
    }
}

/// The taking end of a queue.
#[derive(Drop)]
pub struct Taker<T, K, P: Protocol<T, K>> {
    shared: Arc<Shared<T, K, P>, Global>,
    pass: Pass<T, Known<T, K>>,
    long_spins: LongSpins,
}

impl<T, K, P: Protocol<T, K>> Model for Taker<T, K, P> {
    ghost use Rattle.std.specs.Prelude.{◌≡◌};
    ghost use Rattle.crossbeam_queue.specs.Passes.{view as known, IsPassOf};
    ghost use Rattle.qs_queue.specs.Rule.{taking};
    ghost use Rattle.qs_queue.specs.Views.{TakerView};

    ghost Value = { TakerView T K };

    ghost view = { λ s. record { name = s.pass.table_id; key = (known s.pass).key; received = (known s.pass).received } };

    ghost invariant = { λ s. IsPassOf s.shared.value.queue s.pass × (known s.pass ≡ taking (known s.pass).key (known s.pass).received) };
}

/// The two ends of an empty queue, which has room for so many values, and this key. All its memory is taken here; an
/// error says that it was refused.
pub fn make_ends<T: Drop, K, P: Protocol<T, K>, N: Key<K>>(
    alloc: Global,
    room: usize,
) -> Result<(Sender<T, K, P>, Taker<T, K, P>), AllocError>
    requires { 0 < room }
    ensures sender { IfOk result (λ ends. ends.0 ≡ record { name = ends.1.name; room = room; key = N.key; sent = [] }) }
    ensures taker { IfOk result (λ ends. ends.1 ≡ record { name = ends.1.name; key = N.key; received = [] }) }
{
    let (queue, mut pass) = Queue::<T, K, P>::ruled(alloc, room)?;
    let theirs = queue.another::<Opens<N>>(&mut pass);
    let sleeper = EventCount::new();
    let Ok(shared) = Arc::new(alloc, Shared { queue, sleeper }) else {
        return Err(AllocError);
    };
    let taker = Taker {
        shared: Arc::try_clone(&shared)?,
        pass: theirs,
        long_spins: LongSpins::new(),
    };
    Ok((Sender { shared, pass }, taker))
}

impl<T: Drop, K, P: Protocol<T, K>> Sender<T, K, P> {
    /// Sends a value, where what was sent stays good by it. The value comes back, and nothing changes, only where the
    /// queue is full; so as many values at least were sent before as there is room for. It wakes nobody.
    pub fn try_send<R: Wait>(&mut self, rt: &R, value: T) -> Result<(), T>
        requires good { P.good self.old.key (self.old.sent ++ value ∷ []) }
        ensures ok { IfOk result (λ _. self.new ≡ record self.old { sent = self.old.sent ++ value ∷ [] }) }
        ensures back { IfErr result (λ back. (back ≡ value) × (self.new ≡ self.old)) }
        ensures full { IfErr result (λ _. self.old.room ≤ length self.old.sent) }
    {
        let queue = &self.shared.queue;
        queue.push_as::<Sends, R>(rt, &mut self.pass, value)
    }

    /// Sends a value, where what was sent stays good by it. Tries until the queue has room, with a pause between two
    /// tries; it wakes nobody.
    pub fn send<R: Wait>(&mut self, rt: &R, value: T)
        requires good { P.good self.old.key (self.old.sent ++ value ∷ []) }
        ensures sent { self.new ≡ record self.old { sent = self.old.sent ++ value ∷ [] } }
    {
        let backoff = Backoff::new();
        let mut value = value;
        for _ in rt.forever() {
            match self.try_send(rt, value) {
                Ok(()) => return,
                Err(back) => value = back,
            }
            backoff.snooze();
        }
        unreachable!()
    }

    /// Sends a value as `send` does. While it waits for room it is a waiter of the thread of an event count, which it
    /// wakes.
    pub fn send_as_waiter<R: Wait>(&mut self, rt: &R, events: &Events, value: T)
        requires good { P.good self.old.key (self.old.sent ++ value ∷ []) }
        ensures sent { self.new ≡ record self.old { sent = self.old.sent ++ value ∷ [] } }
    {
        if let Err(back) = self.try_send(rt, value) {
            events.add_waiter();
            self.send(rt, back);
            events.remove_waiter();
        }
    }

    /// Sends a value, where what was sent stays good by it, to a queue that has room for all that was sent and this
    /// value. It wakes nobody.
    pub fn push<R: Wait>(&mut self, rt: &R, value: T)
        requires good { P.good self.old.key (self.old.sent ++ value ∷ []) }
        requires room { length self.old.sent < self.old.room }
        ensures sent { self.new ≡ record self.old { sent = self.old.sent ++ value ∷ [] } }
    {
        let Ok(()) = self.try_send(rt, value) else {
            unreachable!();
        };
    }

    /// Wakes the taking end, where it sleeps at its queue.
    pub fn wake(&self) {
        self.shared.sleeper.notify_one();
    }

    /// What wakes the taking end from elsewhere; its value is the queue's name. An error says that there are too many of
    /// them.
    pub fn waker(&self) -> Result<Waker<T, K, P>, AllocError>
        ensures own { IfOk result (λ waker. waker ≡ self.now.name) }
    {
        let shared = Arc::try_clone(&self.shared)?;
        Ok(Waker { shared })
    }

    /// What the two ends of one queue know together: what was received is a front of what was sent, and what was sent
    /// is good.
    pub fn agree(&mut self, taker: Taker<T, K, P>)
        requires { self.old.name ≡ taker.name }
        ensures same { self.new ≡ self.old }
        ensures front { (rest : List T) × (self.old.sent ≡ taker.received ++ rest) }
        ensures good { P.good self.old.key self.old.sent }
    {
        let Taker {
            shared: _shared,
            pass: theirs,
            long_spins: _,
        } = taker;
        self.shared.queue.absorb::<Meets<P>>(&mut self.pass, theirs);
        self.shared.queue.learn_as::<Agrees<P>>(&mut self.pass);
        let _taker = self.shared.queue.another::<Meets<P>>(&mut self.pass);
    }
}

impl<T: Drop, K, P: Protocol<T, K>> Taker<T, K, P> {
    /// Takes the next value; what was received is good. There is none only where the queue was empty, and then nothing
    /// changes.
    pub fn try_take<R: Wait>(&mut self, rt: &R) -> Option<T>
        ensures none { IfNone result (self.new ≡ self.old) }
        ensures some { IfSome result (λ value. self.new ≡ record self.old { received = self.old.received ++ value ∷ [] }) }
        ensures good { IfSome result (λ value. P.good self.old.key (self.old.received ++ value ∷ [])) }
    {
        self.shared.queue.pop_as::<Takes<P>, R>(rt, &mut self.pass)
    }

    /// Takes the next value; what was received is good. Tries until there is one, with a pause between two tries; it
    /// does not sleep.
    pub fn take<R: Wait>(&mut self, rt: &R) -> T
        ensures taken { self.new ≡ record self.old { received = self.old.received ++ result ∷ [] } }
        ensures good { P.good self.old.key (self.old.received ++ result ∷ []) }
    {
        let backoff = Backoff::new();
        for _ in rt.forever() {
            if let Some(value) = self.try_take(rt) {
                return value;
            }
            backoff.snooze();
        }
        unreachable!()
    }

    /// Takes the next value; what was received is good. Until there is one it spins for some microseconds, and then
    /// sleeps at its queue until it is woken.
    pub fn take_or_sleep<R: Wait>(&mut self, rt: &R) -> T
        ensures taken { self.new ≡ record self.old { received = self.old.received ++ result ∷ [] } }
        ensures good { P.good self.old.key (self.old.received ++ result ∷ []) }
    {
        match self.spin() {
            Some(value) => value,
            None => self.sleep_and_take(rt, None),
        }
    }

    /// Takes the next value as `take_or_sleep` does, but sleeps at an event count until that is notified.
    pub fn take_or_sleep_at<R: Wait>(&mut self, rt: &R, events: &Events) -> T
        ensures taken { self.new ≡ record self.old { received = self.old.received ++ result ∷ [] } }
        ensures good { P.good self.old.key (self.old.received ++ result ∷ []) }
    {
        match self.spin() {
            Some(value) => value,
            None => self.sleep_and_take(rt, Some(events)),
        }
    }

    /// Takes the next value as `take_or_sleep` does. It wakes the thread of an event count, which is to send, and is a
    /// waiter of it while it sleeps.
    pub fn take_or_sleep_as_waiter<R: Wait>(&mut self, rt: &R, events: &Events) -> T
        ensures taken { self.new ≡ record self.old { received = self.old.received ++ result ∷ [] } }
        ensures good { P.good self.old.key (self.old.received ++ result ∷ []) }
    {
        events.notify();
        if let Some(value) = self.spin() {
            return value;
        }
        events.add_waiter();
        let value = self.sleep_and_take(rt, None);
        events.remove_waiter();
        value
    }

    // Takes the next value. Until there is one it sleeps, at its queue where no event count is named.
    fn sleep_and_take<R: Wait>(&mut self, rt: &R, events: Option<&Events>) -> T
        ensures taken { self.new ≡ record self.old { received = self.old.received ++ result ∷ [] } }
        ensures good { P.good self.old.key (self.old.received ++ result ∷ []) }
    {
        for _ in rt.forever() {
            let taken = match events {
                Some(events) => self.take_or_sleep_once_at(rt, events),
                None => self.take_or_sleep_once(rt),
            };
            if let Some(value) = taken {
                return value;
            }
        }
        unreachable!()
    }

    // Takes the next value, or sleeps at its queue until it is woken. It says that it will sleep before it looks, so
    // that nothing is sent unseen.
    fn take_or_sleep_once<R: Wait>(&mut self, rt: &R) -> Option<T>
        ensures may { MayTake P.good self.old self.new result }
    {
        let key = self.shared.sleeper.prepare_wait();
        match self.shared.queue.pop_as::<Takes<P>, R>(rt, &mut self.pass) {
            Some(value) => Some(value),
            None => {
                key.wait(rt);
                None
            }
        }
    }

    // Takes the next value, or sleeps at an event count until that is notified, with the same care.
    fn take_or_sleep_once_at<R: Wait>(&mut self, rt: &R, events: &Events) -> Option<T>
        ensures may { MayTake P.good self.old self.new result }
    {
        let key = events.sleeper.prepare_wait();
        match self.try_take(rt) {
            Some(value) => Some(value),
            None => {
                key.wait(rt);
                None
            }
        }
    }

    // Spins. It gives no processor away in between: on a busy machine that may take a whole turn of another program. A
    // short spin is enough where the other thread is at work. Where that is being woken a long one helps, for else both
    // would sleep in turn.
    fn spin(&mut self) -> Option<T>
        ensures may { MayTake P.good self.old self.new result }
    {
        if let Some(value) = self.spin_for(SPINS, QUICK_SPINS) {
            return Some(value);
        }
        if !self.long_spins.is_due() {
            return None;
        }
        if let Some(value) = self.spin_for(LONG_SPINS, 0) {
            self.long_spins.succeed();
            return Some(value);
        }
        self.long_spins.fail();
        None
    }

    // Takes the next value, if one is seen at once. It looks at no more of the queue than where that would lie.
    fn look_once(&mut self) -> Option<T>
        ensures may { MayTake P.good self.old self.new result }
    {
        self.shared.queue.try_pop_as::<Takes<P>>(&mut self.pass)
    }

    // Looks so many times, the first of them without a pause of one instruction in between.
    fn spin_for(&mut self, spins: u32, quick: u32) -> Option<T>
        ensures may { MayTake P.good self.old self.new result }
    {
        for spin in 0..spins {
            if let Some(value) = self.look_once() {
                return Some(value);
            }
            if spin >= quick {
                hint::spin_loop();
            }
        }
        None
    }
}
