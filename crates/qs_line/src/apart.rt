//! The settings of a line of which two do not stand together.

ghost use Rattle.std.specs.Prelude.{◌≡◌};
ghost use Rattle.qs_line.specs.audit.Apart.{is_flag, name_of};

/// A setting that does not stand beside some other, or beside some format.
#[derive(Clone, Copy, Debug)]
pub enum Setting {
    /// Whose blocks run, one whole block after another.
    Order,
    /// Who steps first.
    Pick,
    /// How many rounds are played.
    Rounds,
    /// A line for each step.
    Steps,
    /// What lies where at the end.
    Queues,
    /// How many times the script is run.
    Times,
    /// The synchronisations of each block.
    Counts,
    /// What was refused.
    Refusals,
    /// The ends alone.
    Ends,
    /// One of all alike outcomes.
    Alike,
    /// Whose blocks were run before.
    After,
    /// Whose blocks were run before, in several orders.
    Leads,
    /// How many threads search.
    Threads,
}

impl Setting {
    /// Its name, which stands on a line after `--`.
    pub fn name(self) -> &'static str
        ensures name { result.now ≡ name_of self }
    {
        match self {
            Setting::Order => "order",
            Setting::Pick => "pick",
            Setting::Rounds => "rounds",
            Setting::Steps => "steps",
            Setting::Queues => "queues",
            Setting::Times => "times",
            Setting::Counts => "counts",
            Setting::Refusals => "refusals",
            Setting::Ends => "ends",
            Setting::Alike => "alike",
            Setting::After => "after",
            Setting::Leads => "leads",
            Setting::Threads => "threads",
        }
    }

    /// Whether it stands on a line without a value.
    pub fn is_flag(self) -> bool
        ensures flag { result ≡ is_flag self }
    {
        match self {
            Setting::Steps
            | Setting::Queues
            | Setting::Counts
            | Setting::Refusals
            | Setting::Ends
            | Setting::Alike => true,
            Setting::Order
            | Setting::Pick
            | Setting::Rounds
            | Setting::Times
            | Setting::After
            | Setting::Leads
            | Setting::Threads => false,
        }
    }
}

/// Settings that do not stand together on a line: no two of a pair.
pub const APART: [(Setting, Setting); 8] = [
    (Setting::Order, Setting::Pick),
    (Setting::Order, Setting::Rounds),
    (Setting::Times, Setting::Counts),
    (Setting::Times, Setting::Refusals),
    (Setting::Alike, Setting::Ends),
    (Setting::Alike, Setting::After),
    (Setting::Alike, Setting::Threads),
    (Setting::Leads, Setting::After),
];
