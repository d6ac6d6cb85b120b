//! What lies in a private queue, read without taking it.

ghost use Rattle.std.specs.Prelude.{◌≡◌, ◌++◌, []};

use super::PrivateQueue;
use qs_plain_laws::QueueItem;

impl PrivateQueue {
    /// Its items, the first first, as two lists one behind the other. The first list is empty only where no item lies
    /// there.
    pub fn items(&self) -> (&[QueueItem], &[QueueItem])
        ensures items { result.0.now ++ result.1.now ≡ self.now.queue.items }
        ensures filled { result.0.now ≡ [] → self.now.queue.items ≡ [] }
    {
        self.items.as_slices()
    }
}
