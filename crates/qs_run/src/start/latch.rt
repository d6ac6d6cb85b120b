//! The latch, which holds the workers back until it is decided whether they go.

ghost use Rattle.std.specs.Prelude.{◌≡◌};

use std::marker::Model;
use std::snapshot::Snapshot;
use std::sync::{OnceLock, OnceToken, Wait};

/// Holds the workers until it is decided whether they go: they go once all of them are started, and end if one could
/// not be.
#[derive(Drop)]
pub(crate) struct Latch {
    go: OnceLock<bool>,
}

impl Model for Latch {
    ghost use Rattle.std.specs.Prelude.{ℕ};

    ghost Value = { ℕ };

    ghost view = { λ l. l.go.id };
}

/// The right to decide at a latch. It is made with the latch and used up by the decision, so there is one decision.
#[derive(Drop)]
pub(crate) struct Deciding {
    latch: Snapshot<Latch>,
}

impl Model for Deciding {
    ghost use Rattle.std.specs.Prelude.{ℕ};

    ghost Value = { ℕ };

    ghost view = { λ d. d.latch.value };
}

/// What was decided at a latch. Two decisions of one latch are the same.
pub(crate) type Decision<'l> = OnceToken<'l, bool>;

impl Latch {
    /// A latch at which nothing is decided, and the right to decide.
    pub(crate) fn new() -> (Latch, Deciding)
        ensures latch { result.1 ≡ result.0 }
    {
        let go = Latch {
            go: OnceLock::new(),
        };
        let latch = Snapshot::of(&go);
        (go, Deciding { latch })
    }

    /// Decides whether the workers go, by the right that was made with this latch. It is the first decision, as there
    /// is one right to it, so the latch takes it at the first try.
    pub(crate) fn decide<R: Wait>(&self, rt: &R, deciding: Deciding, go: bool) -> Decision<'_>
        requires own { deciding ≡ self.now }
        ensures latch { result.of ≡ self.now }
        ensures decided { result.value ≡ go }
    {
        drop(deciding);
        for _ in rt.forever() {
            if let Ok(decision) = self.go.set(rt, go) {
                return decision;
            }
        }
        unreachable!()
    }

    /// What was decided. Waits until something is.
    pub(crate) fn wait<R: Wait>(&self, rt: &R) -> Decision<'_>
        ensures latch { result.of ≡ self.now }
    {
        for _ in rt.forever() {
            let _ = self.go.wait(rt);
            if let Some(decision) = self.go.witness() {
                return decision;
            }
        }
        unreachable!()
    }

    /// Whether the workers go, by this latch's decision.
    pub(crate) fn lets_go<'l>(&'l self, decision: &Decision<'l>) -> bool
        requires latch { decision.now.of ≡ self.now }
        ensures value { result ≡ decision.now.value }
    {
        *self.go.value(decision)
    }
}

/// What was decided at a latch. Two decisions of one latch are the same.
pub(crate) trait Decided: Drop {
    ghost use Rattle.std.specs.Prelude.{◌≡◌, Bool, ℕ};

    /// The latch.
    ghost at: { Self → ℕ };

    /// Whether the workers go.
    ghost go: { Self → Bool };

    /// Two decisions of one latch are the same.
    fn agrees_with(&self, other: &Self)
        requires latch { at self.now ≡ at other.now }
        ensures same { go self.now ≡ go other.now };
}

impl<'l> Decided for Decision<'l> {
    ghost at = { λ d. d.of };

    ghost go = { λ d. d.value };

    fn agrees_with(&self, other: &Decision<'l>) {
        self.agrees(other);
    }
}
