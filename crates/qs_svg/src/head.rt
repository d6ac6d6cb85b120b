// The beginning of a picture: its size, its title, its description and its style.

ghost use Rattle.std.specs.Prelude.{◌≡◌, ◌+◌, ◌<◌, ◌≤◌, OnOk, length};
ghost use Rattle.qs_program.specs.audit.Limits.{most_clients};
ghost use Rattle.qs_text.specs.audit.Texts.{texts_up_to};
ghost use Rattle.qs_text.specs.Texts.{Puts};
ghost use Rattle.qs_svg.specs.audit.Stretches.{most_columns};
ghost use Rattle.qs_svg.specs.audit.Places.{picture_width};
ghost use Rattle.qs_svg.specs.audit.Words.{description, finished_words as words_of_end, object_told, reserved_words, ticket_told, title_words};
ghost use Rattle.qs_svg.specs.audit.RunSvg.{head_text, size_text};

use crate::facts::{all_columns, has_ended, journal_of, ticket_at};
use crate::layout::{Layout, band_edge, bands_of};
use crate::legend::put_style;
use crate::words::put_block_words;
use qs_played::Played;
use qs_program::Program;
use qs_text::{object_name, put_count, put_word};
use std::alloc::AllocError;

fn width_of(columns: usize, clients: usize) -> u64
    requires columns { columns ≤ most_columns + 1 }
    requires clients { clients ≤ most_clients }
    ensures width { result ≡ picture_width columns clients }
{
    let names = 24 + 130 * clients as u64;
    let least = names.max(800);
    least.max(212 + 196 * columns.min(7) as u64)
}

// The first line.
fn put_size(out: &mut Vec<u8>, width: u64, height: u64) -> Result<(), AllocError>
    ensures ok { OnOk result (Puts (size_text width height) out.old.items out.new.items) }
{
    put_count(
        out,
        b"<svg xmlns='http://www.w3.org/2000/svg' role='img' aria-labelledby='title description' width='",
        width,
    )?;
    put_count(out, b"' height='", height)?;
    put_count(out, b"' viewBox='0 0 ", width)?;
    put_count(out, b" ", height)?;
    put_word(out, b"'>\n")
}

fn finished_words(finished: bool) -> &'static [u8]
    ensures words { result.now ≡ words_of_end finished }
{
    if finished {
        b", finished"
    } else {
        b", unfinished"
    }
}

/// Puts the words of the title.
pub(crate) fn put_title(
    out: &mut Vec<u8>,
    program: &Program,
    played: &Played,
) -> Result<(), AllocError>
    ensures ok { OnOk result (Puts (title_words program.now played.now) out.old.items out.new.items) }
{
    put_count(
        out,
        b"A run of separate blocks: blocks ",
        played.order().len() as u64,
    )?;
    put_count(out, b", objects ", program.objects() as u64)?;
    put_count(out, b", synchronisations ", played.syncs())?;
    put_word(out, finished_words(played.is_finished()))
}

// The names of the objects that a block reserves.
fn put_reserved(out: &mut Vec<u8>, program: &Program, objects: &[u8]) -> Result<(), AllocError>
    ensures ok { OnOk result (Puts (reserved_words program.now objects.now) out.old.items out.new.items) }
{
    for place in 0..objects.len() {
        put_word(out, b" ")?;
        put_word(out, object_name(program, usize::from(objects[place])))?;
    }
    Ok(())
}

// A ticket with the objects that its block reserves.
fn put_ticket_told(
    out: &mut Vec<u8>,
    program: &Program,
    played: &Played,
    place: usize,
) -> Result<(), AllocError>
    requires { place < length played.now.order }
    ensures ok { OnOk result (Puts (ticket_told program.now played.now place) out.old.items out.new.items) }
{
    put_word(out, b" ")?;
    put_block_words(
        out,
        program,
        ticket_at(played, place),
        has_ended(played, place),
    )?;
    put_word(out, b" on")?;
    put_reserved(out, program, played.sync_objects(place))?;
    put_word(out, b";")
}

// All tickets.
fn put_tickets_told(out: &mut Vec<u8>, program: &Program, played: &Played) -> Result<(), AllocError>
    ensures ok { OnOk result (Puts (texts_up_to (length played.now.order) (ticket_told program.now played.now)) out.old.items out.new.items) }
{
    for place in 0..played.order().len() {
        put_ticket_told(out, program, played, place)?;
    }
    Ok(())
}

// An object with the number of its requests.
fn put_object_told(
    out: &mut Vec<u8>,
    program: &Program,
    played: &Played,
    object: usize,
) -> Result<(), AllocError>
    ensures ok { OnOk result (Puts (object_told program.now played.now object) out.old.items out.new.items) }
{
    put_word(out, b" ")?;
    put_word(out, object_name(program, object))?;
    put_count(out, b" ", journal_of(played, object).len() as u64)?;
    put_word(out, b";")
}

// All objects.
fn put_objects_told(out: &mut Vec<u8>, program: &Program, played: &Played) -> Result<(), AllocError>
    ensures ok { OnOk result (Puts (texts_up_to (length program.now.objects) (object_told program.now played.now)) out.old.items out.new.items) }
{
    for object in 0..program.objects() {
        put_object_told(out, program, played, object)?;
    }
    Ok(())
}

// The description.
fn put_description(out: &mut Vec<u8>, program: &Program, played: &Played) -> Result<(), AllocError>
    ensures ok { OnOk result (Puts (description program.now played.now) out.old.items out.new.items) }
{
    put_word(
        out,
        b"A row for each object, with the requests that it ran from left to right. A column for each block, in the order of the reservations. Blocks:",
    )?;
    put_tickets_told(out, program, played)?;
    put_word(out, b" Requests:")?;
    put_objects_told(out, program, played)
}

/// Puts the beginning of a picture, with so many lines below its bands.
pub(crate) fn put_head(
    out: &mut Vec<u8>,
    program: &Program,
    played: &Played,
    lines: u8,
    layout: Layout,
) -> Result<(), AllocError>
    ensures ok { OnOk result (Puts (head_text program.now played.now lines layout) out.old.items out.new.items) }
{
    program.keeps_sound();
    let columns = all_columns(played);
    let height = band_edge(layout, bands_of(columns)) + 16 * u32::from(lines);
    put_size(out, width_of(columns, program.clients()), u64::from(height))?;
    put_word(out, b"<title id='title'>")?;
    put_title(out, program, played)?;
    put_word(out, b"</title>\n")?;
    put_word(out, b"<desc id='description'>")?;
    put_description(out, program, played)?;
    put_word(out, b"</desc>\n")?;
    put_style(out)
}
