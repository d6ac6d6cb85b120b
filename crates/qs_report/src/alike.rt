// One of all outcomes that differ by alike clients in each other's places.

ghost use Rattle.std.specs.Prelude.{◌≡◌, ◌++◌, length, sum, IfOk, OnOk};
ghost use Rattle.std.specs.List.{AllByRecursion};
ghost use Rattle.qs_outcomes.specs.Outcomes.{HasPlaces};
ghost use Rattle.qs_report.specs.AlikeText.{alike_line, alike_outcome, alike_outcome_at, alike_text as text_of_alike, of_all_line, stands_for};
ghost use Rattle.qs_text.specs.audit.Texts.{texts_up_to};

use crate::outcomes::{outcome_at, put_clients, put_numbered, put_objects};
use itoa::Buffer;
use qs_objects::Ticket;
use qs_outcomes::Standing;
use qs_program::Program;
use qs_text::{put_all, put_count_line};
use std::alloc::{AllocError, Global};

// For how many outcomes one stands.
fn put_stands_for(out: &mut Vec<u8>, count: u32) -> Result<(), AllocError>
    ensures ok { OnOk result (out.new.items ≡ out.old.items ++ stands_for count) }
{
    let mut buffer = Buffer::new();
    put_all(
        out,
        &[b" stands for ", buffer.format(count).as_bytes(), b"\n"],
    )
}

// The line that begins an outcome.
fn put_alike_line(
    out: &mut Vec<u8>,
    number: usize,
    order: &[Ticket],
    count: u32,
) -> Result<(), AllocError>
    ensures ok { OnOk result (out.new.items ≡ out.old.items ++ alike_line number order.now count) }
{
    put_numbered(out, b"outcome ", number, order)?;
    put_stands_for(out, count)
}

// An outcome, and for how many it stands.
fn put_alike(
    out: &mut Vec<u8>,
    program: &Program,
    number: usize,
    standing: &Standing,
    count: u32,
) -> Result<(), AllocError>
    requires places { HasPlaces program.now standing.now }
    ensures ok { OnOk result (out.new.items ≡ out.old.items ++ alike_outcome program.now number standing.now count) }
{
    put_alike_line(out, number, standing.order(), count)?;
    put_objects(out, program, standing)?;
    put_clients(out, program, standing)
}

// All that are listed, one after another.
fn put_listed(
    out: &mut Vec<u8>,
    program: &Program,
    found: &[Standing],
    counts: &[u32],
) -> Result<(), AllocError>
    requires places { AllByRecursion (HasPlaces program.now) found.now }
    requires counted { length counts.now ≡ length found.now }
    ensures ok { OnOk result (out.new.items
        ≡ out.old.items ++ texts_up_to (length found.now) (alike_outcome_at program.now found.now counts.now)) }
{
    for place in 0..found.len() {
        put_alike(
            out,
            program,
            place + 1,
            outcome_at(found, place),
            counts[place],
        )?;
    }
    Ok(())
}

/// For how many outcomes all together stand that each stand for so many.
pub fn all_of(counts: &[u32]) -> u128
    ensures sum { result ≡ sum counts.now }
{
    let mut all = 0;
    for count in counts {
        all += u128::from(*count);
    }
    all
}

// How many outcomes are listed, and how many there are in all.
fn put_of_all_line(out: &mut Vec<u8>, listed: usize, all: u128) -> Result<(), AllocError>
    ensures ok { OnOk result (out.new.items ≡ out.old.items ++ of_all_line listed all) }
{
    let mut number = Buffer::new();
    put_all(out, &[b"outcomes ", number.format(listed).as_bytes()])?;
    let mut buffer = Buffer::new();
    put_all(out, &[b" of ", buffer.format(all).as_bytes(), b"\n"])
}

/// The text of outcomes of which each stands for all that differ from it by alike clients in each other's places: how
/// many are listed, and how many there are in all; each with its number, an order that comes to it, for how many it
/// stands, the objects' lines and the clients' lines; and how many configurations were noted. An error says that an
/// allocation failed, and nothing is left.
pub fn alike_text(
    alloc: Global,
    program: &Program,
    found: &[Standing],
    counts: &[u32],
    configurations: usize,
) -> Result<Vec<u8>, AllocError>
    requires places { AllByRecursion (HasPlaces program.now) found.now }
    requires counted { length counts.now ≡ length found.now }
    ensures text { IfOk result (λ bytes. bytes.items ≡ text_of_alike program.now found.now counts.now configurations) }
{
    let mut out = Vec::new(alloc);
    put_of_all_line(&mut out, found.len(), all_of(counts))?;
    put_listed(&mut out, program, found, counts)?;
    put_count_line(&mut out, b"configurations", configurations as u64)?;
    Ok(out)
}
