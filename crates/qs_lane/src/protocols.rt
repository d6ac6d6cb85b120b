//! What the queues of a lane may carry.

use qs_chunk::{Chunk, ChunkSize, Parcel};
use qs_objects::{Held, Request};
use qs_queue::{Key, Protocol};
use std::marker::{Brand, PhantomData};

/// Each parcel may follow those before it, and chunks have the lane's size.
pub struct InLane;

impl Protocol<Parcel, ChunkSize> for InLane {
    ghost use Rattle.qs_chunk.specs.Lanes.{IsLane};
    ghost use Rattle.qs_chunk.proofs.LaneFronts.{StandsFrom-front};
    ghost use Rattle.std.specs.Prelude.{false};

    ghost good = { IsLane };

    ghost none = { λ size. tt };

    ghost front = { λ size ps qs is. StandsFrom-front size false ps qs is };

    ghost unset = { 1 };
}

/// Any objects.
pub struct AnyObjects;

impl Protocol<Held, ()> for AnyObjects {
    ghost good = { λ key xs. Unit {0} };

    ghost none = { λ key. tt };

    ghost front = { λ key xs ys is. tt };

    ghost unset = { tt };
}

/// No key.
pub struct Keyless;

impl Key<()> for Keyless {
    ghost key = { tt };
}

/// Empty chunks of the lane's size.
pub struct EmptyChunks;

impl Protocol<Chunk<Request>, ChunkSize> for EmptyChunks {
    ghost use Rattle.qs_lane.specs.Spares.{AllEmpty, empty_front};

    ghost good = { AllEmpty };

    ghost none = { λ size. tt };

    ghost front = { empty_front };

    ghost unset = { 1 };
}

/// A size that is known only as a lane is made.
pub trait KnownSize {
    ghost use Rattle.std.specs.Prelude.{ℕ};

    ghost size: { ℕ };
}

impl KnownSize for Brand {
    ghost size = { 1 };
}

/// The size of a lane's chunks, as a key.
pub struct SizeKey<N> {
    of: PhantomData<N>,
}

impl<N: KnownSize> Key<ChunkSize> for SizeKey<N> {
    ghost key = { N.size };
}
