//! Who hears how far a search has come.

/// Hears of a search while it goes on: a sign of life of one that takes long.
pub trait Watcher {
    /// Hears, each time that new configurations were noted, how many different ones there are so far.
    /// Whatever it does, it returns, and the search goes on.
    fn noted(&mut self, configurations: usize);
}

/// Who hears nothing.
#[derive(Drop)]
pub struct Unwatched;

impl Watcher for Unwatched {
    fn noted(&mut self, _configurations: usize) {}
}
