//! The event count of a thread that takes from several queues.

use crossbeam_utils::sync::EventCount;
use std::sync::atomic::AtomicU64;
use std::sync::atomic::Ordering::SeqCst;

/// Where one thread sleeps that takes from several queues, and how many waiters it has: threads that sleep until it has
/// done something.
pub struct Events {
    pub(crate) sleeper: EventCount,
    waiters: AtomicU64,
}

impl Drop for Events {
    fn drop(self) {
        let Events {
            sleeper: _,
            waiters: _,
        } = self;
    }
}

impl Events {
    /// The event count of a thread that does not sleep and has no waiters.
    pub const fn new() -> Events {
        Events {
            sleeper: EventCount::new(),
            waiters: AtomicU64::new(0),
        }
    }

    /// Wakes the thread, where it sleeps.
    pub fn notify(&self) {
        self.sleeper.notify_one();
    }

    /// Wakes the thread, where it sleeps and has a waiter.
    pub fn notify_if_awaited(&self) {
        if self.waiters.load(SeqCst) != 0 {
            self.notify();
        }
    }

    // One waiter more, from now on until `remove_waiter`; wakes the thread, where it sleeps.
    pub(crate) fn add_waiter(&self) {
        self.waiters.fetch_add(1, SeqCst);
        self.notify();
    }

    // One waiter fewer.
    pub(crate) fn remove_waiter(&self) {
        self.waiters.fetch_sub(1, SeqCst);
    }
}
