//! What lies in a private queue.

ghost use Rattle.std.specs.Prelude.{◌≡◌};

use qs_objects::Request;

/// What lies in a private queue: a command, a query, or the mark that ends it.
#[derive(Drop)]
pub enum QueueItem {
    Command(Request),
    Query(Request),
    EndMark,
}

impl QueueItem {
    /// The same item once more; takes no memory.
    pub fn copied(&self) -> QueueItem
        ensures same { result ≡ self.now }
    {
        match self {
            QueueItem::Command(request) => QueueItem::Command(request.copied()),
            QueueItem::Query(request) => QueueItem::Query(request.copied()),
            QueueItem::EndMark => QueueItem::EndMark,
        }
    }
}
