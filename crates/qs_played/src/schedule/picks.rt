//! Picks that name actors.

ghost use Rattle.std.specs.Prelude.{◌≡◌};
ghost use Rattle.qs_played.specs.audit.Schedule.{all_named, names_actor};

use crate::schedule::Actor;
use qs_program::Program;

/// Rounds of a schedule.
pub const MOST_ROUNDS: u32 = 1_000_000;

/// Whether each pick names an actor of the program: a client or an object by its number in text order.
pub fn are_named(program: &Program, picks: &[Actor]) -> bool
    ensures named { result ≡ all_named program.now picks.now }
{
    let mut named = true;
    for pick in picks {
        named = named && is_named(program, *pick);
    }
    named
}

fn is_named(program: &Program, pick: Actor) -> bool
    ensures named { result ≡ names_actor program.now pick }
{
    match pick {
        Actor::Client(client) => usize::from(client) < program.clients(),
        Actor::Handler(handler) => usize::from(handler) < program.objects(),
    }
}
