// The stretch of a ticket at an object: its frame, its requests and its synchronisations.

ghost use Rattle.std.specs.Prelude.{◌≡◌, ◌+◌, ◌^◌, ◌<◌, OnOk, length, slice_index_or};
ghost use Rattle.qs_text.specs.declared.fates.fate.Fate.TheVariants.{Done};
ghost use Rattle.qs_svg.specs.audit.Shapes.{fitted_text};
ghost use Rattle.qs_svg.specs.Shapes.{Draws};
ghost use Rattle.qs_text.specs.Texts.{Puts};
ghost use Rattle.qs_svg.specs.audit.Places.{symbol_x, symbol_y};
ghost use Rattle.qs_svg.specs.audit.Words.{line_words};
ghost use Rattle.qs_svg.specs.audit.Blocks.{cross, form, more_symbols, request_shapes, right_side, stretch_frame, stretch_shapes, symbol, symbol_kind, symbols, sync_symbols, sync_text};

use crate::facts::{has_ended, queries_in, sent_for, ticket_at};
use crate::layout::{Spot, column_edge, row_edge, symbol_left, symbol_top};
use crate::pieces::{put_counted, put_fitted, put_path, put_text};
use crate::words::{put_entry, put_line, put_stretch_words};
use qs_objects::{Entry, Ticket};
use qs_played::Played;
use qs_program::Program;
use qs_text::fates::Fate;
use qs_text::{put_count, put_word};
use std::alloc::{AllocError, Global};

// The corner of a symbol.
#[derive(Clone, Copy)]
struct Corner {
    x: u32,
    y: u32,
}

// The corner of the symbol on a line of a stretch.
fn corner_of(spot: Spot, line: u8) -> Corner
    ensures x { result.x ≡ symbol_x spot.column }
    ensures y { result.y ≡ symbol_y spot.layout spot.column spot.row line }
    ensures left { result.x < 2 ^ 31 }
    ensures top { result.y < 2 ^ 31 }
{
    Corner {
        x: symbol_left(spot),
        y: symbol_top(spot, line),
    }
}

// What goes on from the point where a symbol begins.
fn form_of(query: bool) -> &'static [u8]
    ensures form { result.now ≡ form query }
{
    if query {
        b"m0,4a4,4 0 1 1 8,0a4,4 0 1 1-8,0z"
    } else {
        b"h8v8h-8z"
    }
}

// The right side of a frame, which is there where the block has ended.
fn side(ended: bool) -> &'static [u8]
    ensures side { result.now ≡ right_side ended }
{
    if ended { b"z" } else { b"" }
}

// How a symbol looks by what became of its request.
fn kind_of_symbol(fate: Fate) -> &'static [u8]
    ensures kind { result.now ≡ symbol_kind fate }
{
    match fate {
        Fate::Done => b"symbol",
        Fate::Refused | Fate::NoValue => b"void",
    }
}

fn cross_of(fate: Fate) -> &'static [u8]
    ensures cross { result.now ≡ cross fate }
{
    match fate {
        Fate::Refused => b"l8,8m0-8l-8,8",
        Fate::Done | Fate::NoValue => b"",
    }
}

// The symbol of a request.
fn put_symbol(
    out: &mut Vec<u8>,
    program: &Program,
    corner: Corner,
    entry: &Entry,
    fate: Fate,
) -> Result<(), AllocError>
    ensures ok { OnOk result (Puts (symbol program.now corner.x corner.y entry.now fate) out.old.items out.new.items) }
{
    put_path(
        out,
        kind_of_symbol(fate),
        entry.ticket.client,
        corner.x,
        corner.y,
    )?;
    put_word(out, form_of(entry.request.op.is_query()))?;
    put_word(out, cross_of(fate))?;
    put_word(out, b"'><title>")?;
    put_entry(out, program, entry, fate)?;
    put_word(out, b"</title></path>\n")
}

// The words of a request.
fn put_words(
    out: &mut Vec<u8>,
    alloc: Global,
    corner: Corner,
    entry: &Entry,
    fate: Fate,
) -> Result<(), AllocError>
    requires x { corner.x < 2 ^ 31 }
    requires y { corner.y < 2 ^ 31 }
    ensures ok { OnOk result (Puts (fitted_text (corner.x + 14) (corner.y + 8) 156 (line_words entry.now fate)) out.old.items out.new.items) }
{
    let mut words = Vec::new(alloc);
    put_line(&mut words, entry, fate)?;
    put_fitted(out, corner.x + 14, corner.y + 8, 156, words.as_slice())
}

// A request.
fn put_request(
    out: &mut Vec<u8>,
    alloc: Global,
    program: &Program,
    corner: Corner,
    entry: &Entry,
    fate: Fate,
) -> Result<(), AllocError>
    requires x { corner.x < 2 ^ 31 }
    requires y { corner.y < 2 ^ 31 }
    ensures ok { OnOk result (Draws (request_shapes program.now corner.x corner.y entry.now fate) out.old.items out.new.items) }
{
    put_symbol(out, program, corner, entry, fate)?;
    put_words(out, alloc, corner, entry, fate)
}

// What became of the request at a place.
fn fate_at(fates: &[Fate], place: usize) -> Fate
    ensures fate { result ≡ slice_index_or fates.now place Done }
{
    fates.get(place).copied().unwrap_or(Fate::Done)
}

// The requests of a stretch that are drawn.
fn put_symbols(
    out: &mut Vec<u8>,
    alloc: Global,
    program: &Program,
    spot: Spot,
    entries: &[Entry],
    fates: &[Fate],
) -> Result<(), AllocError>
    ensures ok { OnOk result (Draws (symbols program.now spot.layout spot.column spot.row entries.now fates.now) out.old.items out.new.items) }
{
    let count = entries.len().min(usize::from(spot.layout.most)) as u8;
    for number in 0..count {
        let place = usize::from(number);
        let corner = corner_of(spot, number);
        put_request(
            out,
            alloc,
            program,
            corner,
            &entries[place],
            fate_at(fates, place),
        )?;
    }
    Ok(())
}

// How many more there are.
fn put_more(out: &mut Vec<u8>, spot: Spot, requests: usize) -> Result<(), AllocError>
    ensures ok { OnOk result (Draws (more_symbols spot.layout spot.column spot.row requests) out.old.items out.new.items) }
{
    let most = spot.layout.most;
    if usize::from(most) < requests {
        let x = symbol_left(spot);
        let y = symbol_top(spot, most) + 8;
        put_counted(out, x, y, b"+ ", requests - usize::from(most), b" more")
    } else {
        Ok(())
    }
}

// The synchronisations that were sent and those that were skipped.
fn put_signs(out: &mut Vec<u8>, spot: Spot, sent: u32, queries: usize) -> Result<(), AllocError>
    ensures ok { OnOk result (Puts (sync_text spot.layout spot.column spot.row sent queries) out.old.items out.new.items) }
{
    let sent = u64::from(sent);
    let skipped = (queries as u64).saturating_sub(sent);
    let x = symbol_left(spot);
    let y = symbol_top(spot, spot.layout.lines) + 8;
    put_text(out, x, y)?;
    put_count(out, b"&#9670; ", sent)?;
    put_count(out, b" &#9671; ", skipped)?;
    put_word(out, b"</text>\n")
}

fn put_syncs(out: &mut Vec<u8>, spot: Spot, sent: u32, queries: usize) -> Result<(), AllocError>
    ensures ok { OnOk result (Draws (sync_symbols spot.layout spot.column spot.row sent queries) out.old.items out.new.items) }
{
    if sent == 0 && queries == 0 {
        Ok(())
    } else {
        put_signs(out, spot, sent, queries)
    }
}

// The frame of a stretch.
fn put_frame(
    out: &mut Vec<u8>,
    program: &Program,
    spot: Spot,
    ticket: Ticket,
    ended: bool,
    requests: usize,
) -> Result<(), AllocError>
    ensures ok { OnOk result (Puts (stretch_frame program.now ticket ended spot.layout spot.column spot.row requests) out.old.items out.new.items) }
{
    let x = column_edge(spot.column) + 188;
    let y = row_edge(spot.layout, spot.column / 7, spot.row) + 6;
    put_path(out, b"stretch", ticket.client, x, y)?;
    put_count(out, b"h-180v", 16 * u64::from(spot.layout.lines) + 42)?;
    put_word(out, b"h180")?;
    put_word(out, side(ended))?;
    put_word(out, b"'><title>")?;
    put_stretch_words(out, program, ticket, usize::from(spot.row), requests)?;
    put_word(out, b"</title></path>\n")
}

/// Puts all that is drawn of a ticket at an object, where its block reserves it.
pub(crate) fn put_stretch(
    out: &mut Vec<u8>,
    alloc: Global,
    program: &Program,
    played: &Played,
    spot: Spot,
    entries: &[Entry],
    fates: &[Fate],
) -> Result<(), AllocError>
    requires place { spot.column < length played.now.order }
    ensures ok { OnOk result (Draws (stretch_shapes program.now played.now spot.layout spot.column spot.row entries.now fates.now) out.old.items out.new.items) }
{
    let place = usize::from(spot.column);
    let ticket = ticket_at(played, place);
    let ended = has_ended(played, place);
    let sent = sent_for(played, place, usize::from(spot.row));
    put_frame(out, program, spot, ticket, ended, entries.len())?;
    put_symbols(out, alloc, program, spot, entries, fates)?;
    put_more(out, spot, entries.len())?;
    put_syncs(out, spot, sent, queries_in(entries))
}
