//! What was counted: ends, and how often each came.

ghost use Rattle.std.specs.Prelude.{◌≡◌, ◌<◌, ◌+◌, ◌^◌};

use qs_standings::Standing;
use std::marker::Model;

/// An end of a program, and in how many runs it came.
pub struct CountedEnd {
    standing: Standing,
    times: u32,
}

impl Drop for CountedEnd {
    fn drop(self) {
        let CountedEnd {
            standing: _,
            times: _,
        } = self;
    }
}

impl Model for CountedEnd {
    ghost use Rattle.qs_tally.specs.Tallies.{CountedShape};

    ghost Value = { CountedShape };

    ghost view = { λ e. record { standing = e.standing; times = e.times } };
}

impl CountedEnd {
    ghost use Rattle.qs_tally.specs.Counting.{not_yet, once_more};

    /// Where the program stands at the end.
    pub fn standing(&self) -> &Standing
        ensures standing { result.now ≡ self.now.standing }
    {
        &self.standing
    }

    /// In how many runs it came.
    pub fn times(&self) -> u32
        ensures times { result ≡ self.now.times }
    {
        self.times
    }

    /// An end to which no run has come yet.
    pub(crate) fn new(standing: Standing) -> CountedEnd
        ensures new { result ≡ not_yet standing }
    {
        CountedEnd { standing, times: 0 }
    }

    /// Counts one more run.
    pub(crate) fn count(&mut self)
        requires few { self.old.times + 1 < 2 ^ 32 }
        ensures more { self.new ≡ once_more self.old }
    {
        self.times += 1;
    }
}

/// How often each end of a program came in many runs.
pub struct Tally {
    ends: Vec<CountedEnd>,
    listed: bool,
}

impl Drop for Tally {
    fn drop(self) {
        let Tally { ends: _, listed: _ } = self;
    }
}

impl Model for Tally {
    ghost use Rattle.qs_tally.specs.Tallies.{TallyShape};

    ghost Value = { TallyShape };

    ghost view = { λ t. record { ends = t.ends.items; listed = t.listed } };
}

impl Tally {
    ghost use Rattle.qs_tally.specs.Tallies.{tally_of};

    /// What was counted; whether the ends are listed says `begin`.
    pub fn new(ends: Vec<CountedEnd>, listed: bool) -> Tally
        ensures tally { result ≡ tally_of ends.items listed }
    {
        Tally { ends, listed }
    }

    /// The ends, each once. Where they are listed these are all outcomes, in their order.
    pub fn ends(&self) -> &[CountedEnd]
        ensures ends { result.now ≡ self.now.ends }
    {
        self.ends.as_slice()
    }

    /// Whether the ends are all outcomes of the program, those to which no run came too.
    pub fn is_listed(&self) -> bool
        ensures listed { result ≡ self.now.listed }
    {
        self.listed
    }
}
