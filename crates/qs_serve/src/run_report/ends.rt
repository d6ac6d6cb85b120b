// Where a program stands at the end of a run.

ghost use Rattle.std.specs.Prelude.{◌≡◌, IfOk, IfSome, option_map};
ghost use Rattle.qs_meaning.specs.audit.Serial.{IsLegal};
ghost use Rattle.qs_outcomes.specs.Outcomes.{HasPlaces};
ghost use Rattle.qs_serve.specs.audit.RunReports.{locals_at_end};
ghost use Rattle.qs_standings.specs.Standings.{configuration_in};

use qs_played::Played;
use qs_program::Program;
use qs_standings::{Standing, standing_after};
use std::alloc::{AllocError, Global};

/// Where the program stands at the end of a run; None where the run is not finished.
pub(crate) fn end_of(
    alloc: Global,
    program: &Program,
    played: &Played,
) -> Result<Option<Standing>, AllocError>
    requires legal { IsLegal program.now played.now.order }
    ensures locals { IfOk result (λ end. option_map (λ standing. (configuration_in standing).locals) end ≡ locals_at_end program.now played.now) }
    ensures places { IfOk result (λ end. IfSome end (HasPlaces program.now)) }
{
    if !played.is_finished() {
        return Ok(None);
    }
    let standing = standing_after(alloc, program, played.order())?;
    Ok(Some(standing))
}
