//! Rounds played on from where the plain rules stand.

ghost use Rattle.std.specs.Prelude.{◌≡◌};
ghost use Rattle.qs_played.specs.audit.Schedule.{actors_of, rounds_of};
ghost use Rattle.qs_plain_laws.specs.audit.PlainSchedule.{plays};
ghost use Rattle.qs_plain.specs.Rules.{plain_of};

use super::Rules;

impl Rules<'_> {
    /// So many rounds. They end at the first one that steps nobody, as the further ones would change nothing either.
    pub fn play_rounds(&mut self, rounds: u32)
        ensures rounds { plain_of self.new ≡ plays self.old.program (rounds_of rounds (actors_of self.old.program)) (plain_of self.old) }
        ensures program { self.new.program ≡ self.old.program }
    {
        self.machine.play_rounds(rounds);
    }
}
