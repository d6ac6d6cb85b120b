// The clients with their variables at the end of a run.

ghost use Rattle.std.specs.Prelude.{◌≡◌, ◌+◌, ◌*◌, ◌^◌, ◌<◌, [], if◌then◌else◌, IfOk, IfSome, OnOk, length, option_map};
ghost use Rattle.qs_outcomes.specs.Outcomes.{HasPlaces};
ghost use Rattle.qs_standings.specs.Standings.{configuration_in};
ghost use Rattle.qs_svg.specs.audit.RunSvg.{client_end, client_line, end_lines, end_shapes, has_variables, lines_before, lines_of_client};
ghost use Rattle.qs_svg.specs.audit.Shapes.{shapes_up_to};
ghost use Rattle.qs_svg.specs.Shapes.{Draws};

use crate::legend::put_square;
use crate::pieces::put_fitted;
use crate::words::put_client_words;
use qs_program::Program;
use qs_standings::Standing;
use std::alloc::{AllocError, Global};

// How many lines the variables of all clients take.
fn all_lines(program: &Program) -> u8
    ensures lines { result ≡ lines_before program.now (length program.now.clients) }
{
    program.keeps_sound();
    let mut lines = 0;
    for client in 0..program.clients() as u8 {
        if has_variables(program, client) {
            lines += 1;
        }
    }
    lines
}

/// How many lines the variables at the end take.
pub(crate) fn lines_of(program: &Program, end: Option<&Standing>) -> u8
    ensures lines { result ≡ end_lines program.now (option_map (λ standing. (configuration_in standing.now).locals) end.entry) }
{
    match end {
        None => 0,
        Some(_) => all_lines(program),
    }
}

// Whether a client has variables.
fn has_variables(program: &Program, client: u8) -> bool
    requires client { client < length program.now.clients }
    ensures variables { result ≡ has_variables program.now client }
{
    program.variables(client).len() > 0
}

// A client with its variables, on a line.
fn put_client_line(
    out: &mut Vec<u8>,
    alloc: Global,
    program: &Program,
    standing: &Standing,
    client: u8,
    y: u32,
) -> Result<(), AllocError>
    requires client { client < length program.now.clients }
    requires place { client < length standing.now.locals }
    requires y { y < 2 ^ 31 }
    ensures ok { OnOk result (Draws (client_line program.now (configuration_in standing.now).locals y client) out.old.items out.new.items) }
{
    let mut words = Vec::new(alloc);
    put_client_words(&mut words, program, client, &standing.locals(client))?;
    put_square(out, client, 12, y)?;
    put_fitted(out, 26, y + 8, 762, words.as_slice())
}

// A client that has variables, with those; answers the next line.
fn put_client_end(
    out: &mut Vec<u8>,
    alloc: Global,
    program: &Program,
    standing: &Standing,
    client: u8,
    line: u32,
) -> Result<u32, AllocError>
    requires client { client < length program.now.clients }
    requires place { client < length standing.now.locals }
    requires line { line < 2 ^ 31 }
    ensures ok { IfOk result (λ next. Draws
        (if has_variables program.now client then client_line program.now (configuration_in standing.now).locals line client else [])
        out.old.items out.new.items) }
    ensures next { IfOk result (λ next. next ≡ line + 16 * lines_of_client program.now client) }
{
    if has_variables(program, client) {
        put_client_line(out, alloc, program, standing, client, line)?;
        Ok(line + 16)
    } else {
        Ok(line)
    }
}

// All clients that have variables, from a line on.
fn put_client_ends(
    out: &mut Vec<u8>,
    alloc: Global,
    program: &Program,
    standing: &Standing,
    y: u32,
) -> Result<(), AllocError>
    requires places { HasPlaces program.now standing.now }
    requires y { y < 2 ^ 30 }
    ensures ok { OnOk result (Draws (shapes_up_to (length program.now.clients) (client_end program.now (configuration_in standing.now).locals y))
        out.old.items out.new.items) }
{
    program.keeps_sound();
    let mut line = y;
    for client in 0..program.clients() as u8 {
        line = put_client_end(out, alloc, program, standing, client, line)?;
    }
    Ok(())
}

/// Puts the clients with their variables at the end, below a line, where an end is given.
pub(crate) fn put_end(
    out: &mut Vec<u8>,
    alloc: Global,
    program: &Program,
    end: Option<&Standing>,
    y: u32,
) -> Result<(), AllocError>
    requires places { IfSome end (λ standing. HasPlaces program.now standing.now) }
    requires y { y < 2 ^ 30 }
    ensures ok { OnOk result (Draws (end_shapes program.now (option_map (λ standing. (configuration_in standing.now).locals) end.entry) y)
        out.old.items out.new.items) }
{
    let Some(standing) = end else {
        return Ok(());
    };
    put_client_ends(out, alloc, program, standing, y)
}
