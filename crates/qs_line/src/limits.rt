//! The limits of a list of actors, of a number of runs, and of a search.

// How often one part may stand for its actor.
pub(crate) const MOST_REPEATS: u32 = 1_000_000;

/// Actors of a list, each as often as its part says.
pub const MOST_ACTORS: u32 = 1_000_000;

// Runs on threads whose ends are counted.
pub(crate) const MOST_TIMES: u32 = 100_000;

// Blocks that a front may have: all of all clients.
pub(crate) const MOST_FRONT: u32 = 512;

// Threads that a search may take.
pub(crate) const MOST_THREADS: u32 = 64;

/// Bytes of a name of a script.
pub(crate) const LONGEST_NAME: usize = 16;
