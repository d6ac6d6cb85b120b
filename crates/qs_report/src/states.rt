// The states of the objects.

ghost use Rattle.std.specs.Prelude.{◌≡◌, ◌<◌, ◌++◌, length, OnOk};
ghost use Rattle.qs_report.specs.audit.Report.{state_line, object_text, states_text};
ghost use Rattle.qs_text.specs.TellApart.{IsOfWords};

use qs_objects::Object;
use qs_played::Played;
use qs_program::Program;
use qs_text::{object_name, put, put_state};
use std::alloc::AllocError;

// The line of an object's state.
pub(crate) fn put_state_line(
    out: &mut Vec<u8>,
    name: &[u8],
    object: &Object,
) -> Result<(), AllocError>
    ensures ok { OnOk result (out.new.items ≡ out.old.items ++ state_line name.now object.now) }
    ensures words { OnOk result (IsOfWords object.now) }
{
    put_state(out, name, object)?;
    put(out, b"\n")
}

// The object of a number.
fn put_object(
    out: &mut Vec<u8>,
    program: &Program,
    played: &Played,
    place: usize,
) -> Result<(), AllocError>
    requires { place < length played.now.states }
    ensures ok { OnOk result (out.new.items ≡ out.old.items ++ object_text program.now played.now place) }
{
    put_state_line(out, object_name(program, place), &played.states()[place])
}

// The states of all objects.
pub(crate) fn put_states(
    out: &mut Vec<u8>,
    program: &Program,
    played: &Played,
) -> Result<(), AllocError>
    ensures ok { OnOk result (out.new.items ≡ out.old.items ++ states_text program.now played.now) }
{
    put(out, b"states\n")?;
    for place in 0..played.states().len() {
        put_object(out, program, played, place)?;
    }
    Ok(())
}
