// A client's variables.

ghost use Rattle.std.specs.Prelude.{◌≡◌, ◌++◌, OnOk, length, pos, slice_index_or};
ghost use Rattle.qs_text.specs.TellApart.{AreWords, IsWord};
ghost use Rattle.qs_text.specs.audit.Texts.{texts_up_to};
ghost use Rattle.qs_text.specs.Variables.{variable_text, variables_text};

use crate::bytes::put_number;
use qs_diagnosis::put_all;
use qs_program::{Locals, Names, variable_name};
use std::alloc::AllocError;

// A variable with its value.
fn put_variable(
    out: &mut Vec<u8>,
    variables: &Names,
    locals: &Locals,
    number: usize,
) -> Result<(), AllocError>
    ensures ok { OnOk result (out.new.items ≡ out.old.items ++ variable_text variables.now locals.now number) }
    ensures word { OnOk result (IsWord (slice_index_or locals.now number (pos 0))) }
{
    put_all(out, &[b" ", variable_name(variables, number), b" "])?;
    put_number(out, locals.get(number).copied().unwrap_or(0))
}

/// Puts all variables of a client at the end, each with its value, a number of 64 bits. An error says that an allocation
/// failed.
pub fn put_variables(
    out: &mut Vec<u8>,
    variables: &Names,
    locals: &Locals,
) -> Result<(), AllocError>
    ensures ok { OnOk result (out.new.items ≡ out.old.items ++ variables_text variables.now locals.now) }
    ensures words { OnOk result (AreWords (length variables.now) locals.now) }
{
    for number in 0..variables.len() {
        put_variable(out, variables, locals, number)?;
    }
    Ok(())
}
