//! What may be sent.

/// What may be sent through a queue, as a property of the whole list so far: none may be sent, and fronts of good lists
/// are good. It may depend on a key, which each queue gets as it is made, as a size or a number that is known only
/// then.
pub trait Protocol<T, K> {
    ghost use Rattle.std.specs.Prelude.{List, [], ◌++◌};

    ghost good: { K → List T → Type 0 };

    ghost none: { (key : K) → good key [] };

    ghost front: { (key : K) (xs ys : List T) → good key (xs ++ ys) → good key xs };

    /// Any key. It stands where a queue has none yet.
    ghost unset: { K };
}

/// A key for a queue that is made.
pub trait Key<K> {
    ghost key: { K };
}
