//! What is asked for beside a report, and what is told.

use qs_played::Played;

/// How steps and queues are told.
#[derive(Clone, Copy, Debug, PartialEq, Eq)]
pub enum Form {
    /// As lines of text; of the queues of a finished run nothing is told.
    Text,
    /// As objects of JSON: one on a line for each step, and one on a line for all queues.
    Json,
}

/// What is asked for beside a report: what each step did, and what lies where at the end.
#[derive(Clone, Copy, Debug, PartialEq, Eq)]
pub struct Wanted {
    /// A line for each step.
    pub steps: bool,
    /// What lies where at the end.
    pub queues: bool,
    /// The form of both.
    pub form: Form,
}

/// What a run has told and shown: its steps, what lies where, and what is played. A text that was not asked for is
/// empty.
pub struct Told {
    /// The lines of the steps.
    pub steps: Vec<u8>,
    /// What lies where.
    pub queues: Vec<u8>,
    /// What the run shows.
    pub played: Played,
}

impl Drop for Told {
    fn drop(self) {
        let Told {
            steps: _,
            queues: _,
            played: _,
        } = self;
    }
}

impl Told {
    ghost use Rattle.std.specs.Prelude.{◌≡◌};

    /// Its parts: the lines of the steps, what lies where, and what is played.
    pub fn into_parts(self) -> (Vec<u8>, Vec<u8>, Played)
        ensures steps { result.0 ≡ self.steps }
        ensures queues { result.1 ≡ self.queues }
        ensures played { result.2 ≡ self.played }
    {
        let Told {
            steps,
            queues,
            played,
        } = self;
        (steps, queues, played)
    }
}
