// The picture of a run.

ghost use Rattle.std.specs.Prelude.{◌≡◌, IfOk, IfSome, OnOk, option_map};
ghost use Rattle.qs_outcomes.specs.Outcomes.{HasPlaces};
ghost use Rattle.qs_standings.specs.Standings.{configuration_in};
ghost use Rattle.qs_svg.specs.Shapes.{Draws};
ghost use Rattle.qs_text.specs.Texts.{Puts};
ghost use Rattle.qs_svg.specs.audit.RunSvg as definitions;

use crate::blocks::{put_columns, put_columns_left};
use crate::ends::{lines_of, put_end};
use crate::facts::all_columns;
use crate::head::{put_head, put_title};
use crate::layout::{Layout, band_edge, bands_of, layout_of};
use crate::legend::{put_clients, put_signs};
use crate::rows::put_row;
use qs_played::Played;
use qs_program::Program;
use qs_standings::Standing;
use qs_text::fates::journal_fates;
use qs_text::put_word;
use std::alloc::{AllocError, Global};

// The title, once more as a shape.
fn put_heading(out: &mut Vec<u8>, program: &Program, played: &Played) -> Result<(), AllocError>
    ensures ok { OnOk result (Puts (definitions.heading program.now played.now) out.old.items out.new.items) }
{
    put_word(out, b"<text class='head' x='12' y='22'>")?;
    put_title(out, program, played)?;
    put_word(out, b"</text>\n")
}

// The ground, the title and the legend.
fn put_legend(out: &mut Vec<u8>, program: &Program, played: &Played) -> Result<(), AllocError>
    ensures ok { OnOk result (Draws (definitions.legend_shapes program.now played.now) out.old.items out.new.items) }
{
    put_word(out, b"<rect class='ground' width='100%' height='100%'/>\n")?;
    put_heading(out, program, played)?;
    put_clients(out, program)?;
    put_signs(out)
}

// All rows.
fn put_rows(
    out: &mut Vec<u8>,
    alloc: Global,
    program: &Program,
    played: &Played,
    layout: Layout,
) -> Result<(), AllocError>
    ensures ok { OnOk result (Draws (definitions.row_shapes program.now played.now layout) out.old.items out.new.items) }
{
    program.keeps_sound();
    let fates = journal_fates(alloc, program, played)?;
    for row in 0..program.objects() as u8 {
        put_row(out, alloc, program, played, layout, row, &fates)?;
    }
    Ok(())
}

// The picture of a run, by a layout.
fn put_picture(
    out: &mut Vec<u8>,
    alloc: Global,
    program: &Program,
    played: &Played,
    end: Option<&Standing>,
    layout: Layout,
) -> Result<(), AllocError>
    requires places { IfSome end (λ standing. HasPlaces program.now standing.now) }
    ensures ok { OnOk result (Puts (definitions.picture program.now played.now
        (option_map (λ standing. (configuration_in standing.now).locals) end.entry) layout) out.old.items out.new.items) }
{
    put_head(out, program, played, lines_of(program, end), layout)?;
    put_legend(out, program, played)?;
    put_columns(out, program, played, layout)?;
    put_columns_left(out, played, layout)?;
    put_rows(out, alloc, program, played, layout)?;
    let bottom = band_edge(layout, bands_of(all_columns(played)));
    put_end(out, alloc, program, end, bottom)?;
    put_word(out, b"</svg>\n")
}

/// A run as one picture in SVG: a column for each block, in the order of the reservations, and a row for each object,
/// with the requests that it ran, what became of them, what it held after each block, and its last state; and the
/// clients' variables where the program stands at the run's end, where an end is given. A number past the program's
/// objects or clients has no name. An error says that an allocation failed, and nothing is left.
pub fn run_svg(
    alloc: Global,
    program: &Program,
    played: &Played,
    end: Option<&Standing>,
) -> Result<Vec<u8>, AllocError>
    requires places { IfSome end (λ standing. HasPlaces program.now standing.now) }
    ensures picture { IfOk result (λ bytes. bytes.items ≡ definitions.run_svg program.now played.now
        (option_map (λ standing. (configuration_in standing.now).locals) end.entry)) }
{
    let layout = layout_of(program, played);
    let mut out = Vec::new(alloc);
    put_picture(&mut out, alloc, program, played, end, layout)?;
    Ok(out)
}
