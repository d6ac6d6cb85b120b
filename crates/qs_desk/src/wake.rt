//! Waking handlers.

ghost use Rattle.std.specs.Prelude.{◌≡◌, false, slice_index_or};
ghost use Rattle.qs_desk.specs.Wakings.{AreWoken, IsWokenIf};

use crate::bookings::Reserved;
use crate::queue::TicketWaker;

/// What wakes a handler, beside a log of which nothing is known but that each waking moves it on. What the front does is
/// proved for every such log, so that it wakes those that it is told of and no others, each once and in their order.
pub(crate) trait Wakes<L> {
    /// How a waking moves the log on.
    ghost moves: { Self → L → L → Type 0 };

    fn wake_at(&self, log: &mut L)
        ensures moved { moves self.now log.old log.new };
}

impl Wakes<()> for TicketWaker {
    ghost use Rattle.std.specs.Prelude.{⊤};

    ghost moves = { λ waker log after. ⊤ };

    fn wake_at(&self, log: &mut ()) {
        let _ = log;
        self.wake();
    }
}

// Whether this handler is told of.
fn is_told(told: &Reserved, handler: usize) -> bool
    ensures told { result ≡ slice_index_or told.now handler false }
{
    match told.get(handler) {
        Some(is_told) => *is_told,
        None => false,
    }
}

// Wakes a handler that is told of, where it sleeps.
fn wake_if<L, W: Wakes<L>>(waker: &W, is_told: bool, log: &mut L)
    ensures woken { IsWokenIf W.moves waker.now is_told log.old log.new }
{
    if is_told {
        waker.wake_at(log);
    }
}

/// Wakes each handler that it is told of, where that sleeps.
pub(crate) fn wake_told<L, W: Wakes<L>>(wakers: &[W], told: &Reserved, log: &mut L)
    ensures woken { AreWoken W.moves wakers.now told.now log.old log.new }
{
    for handler in 0..wakers.len() {
        wake_if(&wakers[handler], is_told(told, handler), log);
    }
}
