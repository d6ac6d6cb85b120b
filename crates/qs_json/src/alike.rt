// One of all outcomes that differ by alike clients in each other's places.

ghost use Rattle.std.specs.Prelude.{◌≡◌, ◌++◌, codes, decimal, length, IfOk, OnOk};
ghost use Rattle.std.specs.List.{AllByRecursion};
ghost use Rattle.qs_outcomes.specs.Outcomes.{HasPlaces};
ghost use Rattle.qs_text.specs.audit.Texts.{texts_up_to};
ghost use Rattle.qs_text.specs.Texts.{Puts};
ghost use Rattle.qs_json.specs.AlikeJson.{alike_counts, alike_json as json_of_alike, alike_json_at, all_alike_json};
ghost use Rattle.qs_json.specs.audit.Pieces.{field};

use crate::outcomes::{put_outcome_head, put_standing};
use itoa::Buffer;
use qs_outcomes::Standing;
use qs_program::Program;
use qs_report::{all_of, outcome_at};
use qs_text::{put_all, put_count, put_word};
use std::alloc::{AllocError, Global};

// An outcome with its number, and for how many it stands.
fn put_alike(
    out: &mut Vec<u8>,
    program: &Program,
    number: usize,
    standing: &Standing,
    count: u32,
) -> Result<(), AllocError>
    requires places { HasPlaces program.now standing.now }
    ensures ok { OnOk result (Puts (json_of_alike program.now number standing.now count) out.old.items out.new.items) }
{
    put_outcome_head(out, number, standing.order())?;
    put_count(out, b",\"stands_for\":", u64::from(count))?;
    put_standing(out, program, standing)?;
    put_word(out, b"}\n")
}

// All that are listed, one after another.
fn put_listed(
    out: &mut Vec<u8>,
    program: &Program,
    found: &[Standing],
    counts: &[u32],
) -> Result<(), AllocError>
    requires places { AllByRecursion (HasPlaces program.now) found.now }
    requires counted { length counts.now ≡ length found.now }
    ensures ok { OnOk result (Puts (texts_up_to (length found.now) (alike_json_at program.now found.now counts.now)) out.old.items out.new.items) }
{
    for place in 0..found.len() {
        put_alike(
            out,
            program,
            place + 1,
            outcome_at(found, place),
            counts[place],
        )?;
    }
    Ok(())
}

// How many outcomes there are in all, as a field.
fn put_of_all(out: &mut Vec<u8>, all: u128) -> Result<(), AllocError>
    ensures ok { OnOk result (Puts (field (codes "of") (decimal all)) out.old.items out.new.items) }
{
    let mut buffer = Buffer::new();
    put_all(out, &[b",\"of\":", buffer.format(all).as_bytes()])
}

// How many outcomes are listed, how many there are in all, and how many configurations were noted.
fn put_counts(
    out: &mut Vec<u8>,
    listed: usize,
    all: u128,
    configurations: usize,
) -> Result<(), AllocError>
    ensures ok { OnOk result (Puts (alike_counts listed all configurations) out.old.items out.new.items) }
{
    put_count(out, b"{\"outcomes\":", listed as u64)?;
    put_of_all(out, all)?;
    put_count(out, b",\"configurations\":", configurations as u64)?;
    put_word(out, b"}\n")
}

/// Outcomes of which each stands for all that differ from it by alike clients in each other's places, an object on a
/// line for each: its number, an order that comes to it, for how many it stands, the objects and the clients with their
/// variables; and a last line with how many are listed, how many there are in all, and how many configurations were
/// noted. An error says that an allocation failed, and nothing is left.
pub fn alike_json(
    alloc: Global,
    program: &Program,
    found: &[Standing],
    counts: &[u32],
    configurations: usize,
) -> Result<Vec<u8>, AllocError>
    requires places { AllByRecursion (HasPlaces program.now) found.now }
    requires counted { length counts.now ≡ length found.now }
    ensures text { IfOk result (λ bytes. bytes.items ≡ all_alike_json program.now found.now counts.now configurations) }
{
    let mut out = Vec::new(alloc);
    put_listed(&mut out, program, found, counts)?;
    put_counts(&mut out, found.len(), all_of(counts), configurations)?;
    Ok(out)
}
