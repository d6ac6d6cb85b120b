// How many synchronisations each mode sends.

ghost use Rattle.std.specs.Prelude.{◌≡◌, ◌<◌, ◌++◌, codes, length, IfOk, OnOk};
ghost use Rattle.qs_text.specs.audit.Texts.{texts_up_to};
ghost use Rattle.qs_report.specs.SyncTable.{width_at};
ghost use Rattle.qs_report.specs.SyncsText.{block_heading, block_rows, mode_counts_text, row_line, saving_text, syncs_text as text_of_syncs};

use crate::outcomes::put_clients_in;
use crate::sync_table::{ModeCounts, SyncTable};
use itoa::Buffer;
use qs_objects::Ticket;
use qs_program::Program;
use qs_text::{client_name, object_name, put, put_all};
use std::alloc::{AllocError, Global};

// A mode, how many it sends, and what it saves.
fn put_saving(out: &mut Vec<u8>, mode: &[u8], none: u64, sent: u64) -> Result<(), AllocError>
    ensures ok { OnOk result (out.new.items ≡ out.old.items ++ saving_text mode.now none sent) }
{
    let mut count = Buffer::new();
    let mut saved = Buffer::new();
    put_all(
        out,
        &[
            mode,
            count.format(sent).as_bytes(),
            b" saves ",
            saved.format(none.saturating_sub(sent)).as_bytes(),
        ],
    )
}

// The end of a line: how many are sent in each mode.
fn put_mode_counts(out: &mut Vec<u8>, counts: ModeCounts) -> Result<(), AllocError>
    ensures ok { OnOk result (out.new.items ≡ out.old.items ++ mode_counts_text counts) }
{
    let none = counts.none;
    let mut buffer = Buffer::new();
    put_all(out, &[b" none ", buffer.format(none).as_bytes()])?;
    put_saving(out, b" dynamic ", none, counts.dynamic)?;
    put_saving(out, b" static ", none, counts.fixed)?;
    put_saving(out, b" both ", none, counts.both)?;
    put(out, b"\n")
}

// An object of a block's list, with the numbers for it.
fn put_row(
    out: &mut Vec<u8>,
    program: &Program,
    table: &SyncTable,
    place: usize,
    index: usize,
) -> Result<(), AllocError>
    requires place { place < length table.now.order }
    requires index { index < width_at table.now place }
    ensures ok { OnOk result (out.new.items ≡ out.old.items ++ row_line program.now table.now place index) }
{
    let object = usize::from(table.object(place, index));
    put(out, b"sync ")?;
    put(out, object_name(program, object))?;
    put_mode_counts(out, table.counts(place, index))
}

// A block.
fn put_heading(out: &mut Vec<u8>, program: &Program, ticket: Ticket) -> Result<(), AllocError>
    ensures ok { OnOk result (out.new.items ≡ out.old.items ++ block_heading program.now ticket) }
{
    let mut buffer = Buffer::new();
    let index = buffer.format(ticket.index).as_bytes();
    put(out, b"block ")?;
    put(out, client_name(program, ticket.client))?;
    put_all(out, &[b" ", index, b"\n"])
}

// A line for each object of a block's list.
fn put_rows(
    out: &mut Vec<u8>,
    program: &Program,
    table: &SyncTable,
    place: usize,
) -> Result<(), AllocError>
    requires place { place < length table.now.order }
    ensures ok { OnOk result (out.new.items
        ≡ out.old.items ++ texts_up_to (width_at table.now place) (row_line program.now table.now place)) }
{
    for index in 0..table.width(place) {
        put_row(out, program, table, place, index)?;
    }
    Ok(())
}

// A block with these.
fn put_block(
    out: &mut Vec<u8>,
    program: &Program,
    table: &SyncTable,
    place: usize,
) -> Result<(), AllocError>
    requires place { place < length table.now.order }
    ensures ok { OnOk result (out.new.items ≡ out.old.items ++ block_rows program.now table.now place) }
{
    put_heading(out, program, table.order()[place])?;
    put_rows(out, program, table, place)
}

// All blocks, one after another.
fn put_blocks(out: &mut Vec<u8>, program: &Program, table: &SyncTable) -> Result<(), AllocError>
    ensures ok { OnOk result (out.new.items
        ≡ out.old.items ++ texts_up_to (length table.now.order) (block_rows program.now table.now)) }
{
    for place in 0..table.order().len() {
        put_block(out, program, table, place)?;
    }
    Ok(())
}

/// The text of a table: its order, for each block and each object of its list how many synchronisations each mode sends
/// and what it saves, and the sums. An error says that an allocation failed, and nothing is left.
pub fn syncs_text(
    alloc: Global,
    program: &Program,
    table: &SyncTable,
) -> Result<Vec<u8>, AllocError>
    ensures text { IfOk result (λ bytes. bytes.items ≡ text_of_syncs program.now table.now) }
{
    let mut out = Vec::new(alloc);
    put(&mut out, b"order ")?;
    put_clients_in(&mut out, table.order())?;
    put(&mut out, b"\n")?;
    put_blocks(&mut out, program, table)?;
    put(&mut out, b"syncs")?;
    put_mode_counts(&mut out, table.sums())?;
    Ok(out)
}
