// Where a program can stand after so many blocks.

ghost use Rattle.std.specs.Prelude.{◌≡◌, ◌++◌, length, IfOk, OnOk};
ghost use Rattle.std.specs.List.{AllByRecursion};
ghost use Rattle.qs_outcomes.specs.Outcomes.{HasPlaces};
ghost use Rattle.qs_report.specs.FrontsText.{front_text, front_text_at, fronts_text as text_of_fronts};
ghost use Rattle.qs_text.specs.audit.Texts.{texts_up_to};

use crate::outcomes::{outcome_at, put_clients, put_numbered, put_objects};
use qs_outcomes::Standing;
use qs_program::Program;
use qs_text::{put, put_count_line};
use std::alloc::{AllocError, Global};

// A front with its number.
fn put_front(
    out: &mut Vec<u8>,
    program: &Program,
    number: usize,
    standing: &Standing,
) -> Result<(), AllocError>
    requires places { HasPlaces program.now standing.now }
    ensures ok { OnOk result (out.new.items ≡ out.old.items ++ front_text program.now number standing.now) }
{
    put_numbered(out, b"front ", number, standing.order())?;
    put(out, b"\n")?;
    put_objects(out, program, standing)?;
    put_clients(out, program, standing)
}

// All fronts, one after another.
fn put_fronts(out: &mut Vec<u8>, program: &Program, found: &[Standing]) -> Result<(), AllocError>
    requires places { AllByRecursion (HasPlaces program.now) found.now }
    ensures ok { OnOk result (out.new.items ≡ out.old.items ++ texts_up_to (length found.now) (front_text_at program.now found.now)) }
{
    for place in 0..found.len() {
        put_front(out, program, place + 1, outcome_at(found, place))?;
    }
    Ok(())
}

/// The text of fronts: how many there are; and each with its number, its order, the objects' lines and the clients'
/// lines. An error says that an allocation failed, and nothing is left.
pub fn fronts_text(
    alloc: Global,
    program: &Program,
    found: &[Standing],
) -> Result<Vec<u8>, AllocError>
    requires places { AllByRecursion (HasPlaces program.now) found.now }
    ensures text { IfOk result (λ bytes. bytes.items ≡ text_of_fronts program.now found.now) }
{
    let mut out = Vec::new(alloc);
    put_count_line(&mut out, b"fronts", found.len() as u64)?;
    put_fronts(&mut out, program, found)?;
    Ok(out)
}
