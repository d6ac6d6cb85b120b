//! What may refuse the start of a worker's thread.

/// Is asked once before each start of a worker's thread, by the worker's number: 0, 1, 2, .. in text order, the
/// handlers first and then the clients. Where it answers false the thread is not started, and the run is refused.
pub trait Starter {
    ghost use Rattle.std.specs.Prelude.{ℕ, Bool};

    /// What it says of a question: the starter as it was, the worker's number, the answer, and the starter after it.
    ghost answers: { Self → ℕ → Bool → Self → Type 0 };

    /// Whether worker `n` may be started.
    fn may_start(&mut self, n: u32) -> bool
        ensures answered { answers self.old n result self.new };
}

/// A starter that lets every worker start.
#[derive(Drop)]
pub struct FreeStart;

impl Starter for FreeStart {
    ghost use Rattle.std.specs.Prelude.{◌≡◌, true};

    ghost answers = { λ before n answer after. answer ≡ true };

    fn may_start(&mut self, n: u32) -> bool {
        let _ = n;
        true
    }
}

/// A starter that is lent for one run.
#[derive(Drop)]
pub(crate) struct LentStarter<'a, S> {
    pub(crate) starter: &'a mut S,
}

impl<'a, S: Starter> Starter for LentStarter<'a, S> {
    ghost use Rattle.std.specs.Prelude.{◌≡◌};

    ghost answers = { λ before n answer after.
        (after.starter.ghost_name ≡ before.starter.ghost_name) × S.answers before.starter.now n answer after.starter.now };

    fn may_start(&mut self, n: u32) -> bool {
        self.starter.may_start(n)
    }
}
