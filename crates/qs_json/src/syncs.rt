// How many synchronisations each mode sends.

ghost use Rattle.std.specs.Prelude.{◌≡◌, ◌<◌, IfOk, OnOk, codes, length};
ghost use Rattle.qs_text.specs.Texts.{Puts};
ghost use Rattle.qs_text.specs.audit.Texts.{texts_up_to};
ghost use Rattle.qs_json.specs.audit.Pieces.{array, array_up_to, element, field, first_field};
ghost use Rattle.qs_json.specs.OutcomesJson.{next_client_json};
ghost use Rattle.qs_json.specs.SyncsJson.{block_head_json, block_json, mode_counts_json, row_json, saved_json, sent_json, syncs_json as json_of_syncs};
ghost use Rattle.qs_report.specs.SyncTable.{width_at};

use crate::outcomes::put_joined;
use crate::pieces::{put_client_name, put_comma, put_object_name};
use qs_objects::Ticket;
use qs_program::Program;
use qs_report::{ModeCounts, SyncTable};
use qs_text::{put_count, put_word};
use std::alloc::{AllocError, Global};

// How many are sent in each mode, as a field.
fn put_sent(out: &mut Vec<u8>, counts: ModeCounts) -> Result<(), AllocError>
    ensures ok { OnOk result (Puts (field (codes "sent") (sent_json counts)) out.old.items out.new.items) }
{
    put_count(out, b",\"sent\":{\"none\":", counts.none)?;
    put_count(out, b",\"dynamic\":", counts.dynamic)?;
    put_count(out, b",\"static\":", counts.fixed)?;
    put_count(out, b",\"both\":", counts.both)?;
    put_word(out, b"}")
}

// How many fewer these are than without coalescing, as a field.
fn put_saved(out: &mut Vec<u8>, counts: ModeCounts) -> Result<(), AllocError>
    ensures ok { OnOk result (Puts (field (codes "saved") (saved_json counts)) out.old.items out.new.items) }
{
    let none = counts.none;
    put_count(
        out,
        b",\"saved\":{\"dynamic\":",
        none.saturating_sub(counts.dynamic),
    )?;
    put_count(out, b",\"static\":", none.saturating_sub(counts.fixed))?;
    put_count(out, b",\"both\":", none.saturating_sub(counts.both))?;
    put_word(out, b"}")
}

// Both, as the last fields.
fn put_mode_counts(out: &mut Vec<u8>, counts: ModeCounts) -> Result<(), AllocError>
    ensures ok { OnOk result (Puts (mode_counts_json counts) out.old.items out.new.items) }
{
    put_sent(out, counts)?;
    put_saved(out, counts)?;
    put_word(out, b"}")
}

// An object of a block's list, with the numbers for it.
fn put_row(
    out: &mut Vec<u8>,
    program: &Program,
    table: &SyncTable,
    place: usize,
    index: usize,
) -> Result<(), AllocError>
    requires place { place < length table.now.order }
    requires index { index < width_at table.now place }
    ensures ok { OnOk result (Puts (row_json program.now table.now place index) out.old.items out.new.items) }
{
    put_object_name(out, program, table.object(place, index))?;
    put_mode_counts(out, table.counts(place, index))
}

// The objects of a block's list, with a comma between each two.
fn put_elements(
    out: &mut Vec<u8>,
    program: &Program,
    table: &SyncTable,
    place: usize,
) -> Result<(), AllocError>
    requires place { place < length table.now.order }
    ensures ok { OnOk result (Puts (texts_up_to (width_at table.now place) (element (row_json program.now table.now place))) out.old.items out.new.items) }
{
    for index in 0..table.width(place) {
        put_comma(out, index)?;
        put_row(out, program, table, place, index)?;
    }
    Ok(())
}

// The same as a field.
fn put_rows(
    out: &mut Vec<u8>,
    program: &Program,
    table: &SyncTable,
    place: usize,
) -> Result<(), AllocError>
    requires place { place < length table.now.order }
    ensures ok { OnOk result (Puts (field (codes "objects") (array_up_to (width_at table.now place) (row_json program.now table.now place))) out.old.items out.new.items) }
{
    put_word(out, b",\"objects\":[")?;
    put_elements(out, program, table, place)?;
    put_word(out, b"]")
}

// A block.
fn put_head(out: &mut Vec<u8>, program: &Program, ticket: Ticket) -> Result<(), AllocError>
    ensures ok { OnOk result (Puts (block_head_json program.now ticket) out.old.items out.new.items) }
{
    put_client_name(out, program, ticket.client)?;
    put_count(out, b",\"block\":", u64::from(ticket.index))
}

// A block with each object of its list.
fn put_block(
    out: &mut Vec<u8>,
    program: &Program,
    table: &SyncTable,
    place: usize,
) -> Result<(), AllocError>
    requires place { place < length table.now.order }
    ensures ok { OnOk result (Puts (block_json program.now table.now place) out.old.items out.new.items) }
{
    put_head(out, program, table.order()[place])?;
    put_rows(out, program, table, place)?;
    put_word(out, b"}\n")
}

// All blocks, one after another.
fn put_blocks(out: &mut Vec<u8>, program: &Program, table: &SyncTable) -> Result<(), AllocError>
    ensures ok { OnOk result (Puts (texts_up_to (length table.now.order) (block_json program.now table.now)) out.old.items out.new.items) }
{
    for place in 0..table.order().len() {
        put_block(out, program, table, place)?;
    }
    Ok(())
}

// An order, as a first field.
fn put_first_order(out: &mut Vec<u8>, order: &[Ticket]) -> Result<(), AllocError>
    ensures ok { OnOk result (Puts (first_field (codes "order") (array next_client_json order.now)) out.old.items out.new.items) }
{
    put_word(out, b"{\"order\":[")?;
    put_joined(out, order)?;
    put_word(out, b"]")
}

/// A table, an object on a line for each block: for each object of its list how many synchronisations each mode sends,
/// and how many each saves; and a last line with the order and the sums. An error says that an allocation failed, and
/// nothing is left.
pub fn syncs_json(
    alloc: Global,
    program: &Program,
    table: &SyncTable,
) -> Result<Vec<u8>, AllocError>
    ensures text { IfOk result (λ bytes. bytes.items ≡ json_of_syncs program.now table.now) }
{
    let mut out = Vec::new(alloc);
    put_blocks(&mut out, program, table)?;
    put_first_order(&mut out, table.order())?;
    put_mode_counts(&mut out, table.sums())?;
    put_word(&mut out, b"\n")?;
    Ok(out)
}
