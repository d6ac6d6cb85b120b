//! When it pays to spin for long before a sleep.

// How many waits at most pass without a long spin before the next one with it.
const MOST_WITHOUT: u32 = 16;

/// How many of the next waits go without a long spin, and how many there will be after a long spin that was in vain.
#[derive(Clone, Copy)]
pub(crate) struct LongSpins {
    without: u32,
    next_without: u32,
}

impl LongSpins {
    /// The first waits go without a long spin: an end of a queue that waits only now and then would spin in vain.
    pub(crate) const fn new() -> LongSpins {
        LongSpins {
            without: MOST_WITHOUT,
            next_without: 1,
        }
    }

    /// Whether this wait spins for long; where it does not, one wait fewer is left without.
    pub(crate) fn is_due(&mut self) -> bool {
        if self.without == 0 {
            return true;
        }
        self.without -= 1;
        false
    }

    /// A long spin saw the value.
    pub(crate) fn succeed(&mut self) {
        self.next_without = 1;
    }

    /// A long spin was in vain: twice as many waits go without one as the last time.
    pub(crate) fn fail(&mut self) {
        self.without = self.next_without;
        if self.next_without < MOST_WITHOUT {
            self.next_without *= 2;
        }
    }
}
