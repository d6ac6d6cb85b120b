//! A gate that counts the tickets that handlers begin, and holds handlers, each for so many turns at most.

use qs_objects::Ticket;
use qs_run::Gate;
use std::sync::atomic::Ordering::SeqCst;
use std::sync::atomic::{AtomicBool, AtomicU32};
use std::thread::yield_now;

// No handler is held longer.
const TURNS: u32 = 100_000_000;

/// How long a handler is held at a ticket.
#[derive(Clone, Copy)]
pub enum Until {
    /// Not at all.
    Now,
    /// For so many turns.
    Turns(u32),
    /// Until another handler, or it itself, has begun a ticket.
    Begun(u8),
    /// Until all eight handlers have begun a ticket.
    AllBegun,
}

/// What each handler is held for, which have begun a ticket, how many tickets were begun, and whether a handler was
/// held too long.
#[derive(Drop)]
pub struct Holding {
    until: [Until; 8],
    begun: [AtomicBool; 8],
    passes: AtomicU32,
    is_late: AtomicBool,
}

impl Holding {
    /// A gate that no handler has passed.
    pub fn new(until: [Until; 8]) -> Holding {
        Holding {
            until,
            begun: [
                AtomicBool::new(false),
                AtomicBool::new(false),
                AtomicBool::new(false),
                AtomicBool::new(false),
                AtomicBool::new(false),
                AtomicBool::new(false),
                AtomicBool::new(false),
                AtomicBool::new(false),
            ],
            passes: AtomicU32::new(0),
            is_late: AtomicBool::new(false),
        }
    }

    /// How many tickets were begun.
    pub fn passes(&self) -> u32 {
        self.passes.load(SeqCst)
    }

    /// Whether a handler was held too long.
    pub fn is_late(&self) -> bool {
        self.is_late.load(SeqCst)
    }

    fn begin(&self, object: u8) {
        if let Some(begun) = self.begun.get(usize::from(object)) {
            begun.store(true, SeqCst);
        }
    }

    fn has_begun(&self, object: u8) -> bool {
        match self.begun.get(usize::from(object)) {
            Some(begun) => begun.load(SeqCst),
            None => true,
        }
    }

    fn hold_for(&self, turns: u32) {
        for _turn in 0..turns {
            let _ = self.is_late.load(SeqCst);
        }
    }

    fn hold_until(&self, object: u8) {
        for _turn in 0..TURNS {
            if self.has_begun(object) {
                return;
            }
            yield_now();
        }
        self.is_late.store(true, SeqCst);
    }
}

impl Gate for Holding {
    fn pass(&self, _ticket: Ticket, object: u8) {
        self.passes.fetch_add(1, SeqCst);
        self.begin(object);
        match self.until.get(usize::from(object)) {
            Some(Until::Turns(turns)) => self.hold_for(*turns),
            Some(Until::Begun(other)) => self.hold_until(*other),
            Some(Until::AllBegun) => {
                for other in 0..8u8 {
                    self.hold_until(other);
                }
            }
            Some(Until::Now) | None => {}
        }
    }
}
