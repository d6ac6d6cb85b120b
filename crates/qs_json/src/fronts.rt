// Where a program can stand after so many blocks.

ghost use Rattle.std.specs.Prelude.{◌≡◌, length, IfOk, OnOk};
ghost use Rattle.std.specs.List.{AllByRecursion};
ghost use Rattle.qs_outcomes.specs.Outcomes.{HasPlaces};
ghost use Rattle.qs_text.specs.audit.Texts.{texts_up_to};
ghost use Rattle.qs_text.specs.Texts.{Puts};
ghost use Rattle.qs_json.specs.FrontsJson.{all_fronts_json, front_json, front_json_at};

use crate::outcomes::{put_order, put_standing};
use qs_outcomes::Standing;
use qs_program::Program;
use qs_report::outcome_at;
use qs_text::{put_count, put_word};
use std::alloc::{AllocError, Global};

// A front with its number.
fn put_front(
    out: &mut Vec<u8>,
    program: &Program,
    number: usize,
    standing: &Standing,
) -> Result<(), AllocError>
    requires places { HasPlaces program.now standing.now }
    ensures ok { OnOk result (Puts (front_json program.now number standing.now) out.old.items out.new.items) }
{
    put_count(out, b"{\"front\":", number as u64)?;
    put_order(out, standing.order())?;
    put_standing(out, program, standing)?;
    put_word(out, b"}\n")
}

// All fronts, one after another.
fn put_fronts(out: &mut Vec<u8>, program: &Program, found: &[Standing]) -> Result<(), AllocError>
    requires places { AllByRecursion (HasPlaces program.now) found.now }
    ensures ok { OnOk result (Puts (texts_up_to (length found.now) (front_json_at program.now found.now)) out.old.items out.new.items) }
{
    for place in 0..found.len() {
        put_front(out, program, place + 1, outcome_at(found, place))?;
    }
    Ok(())
}

/// Fronts, an object on a line for each: its number, its order, the objects and the clients with their variables; and a
/// last line with how many there are. An error says that an allocation failed, and nothing is left.
pub fn fronts_json(
    alloc: Global,
    program: &Program,
    found: &[Standing],
) -> Result<Vec<u8>, AllocError>
    requires places { AllByRecursion (HasPlaces program.now) found.now }
    ensures text { IfOk result (λ bytes. bytes.items ≡ all_fronts_json program.now found.now) }
{
    let mut out = Vec::new(alloc);
    put_fronts(&mut out, program, found)?;
    put_count(&mut out, b"{\"fronts\":", found.len() as u64)?;
    put_word(&mut out, b"}\n")?;
    Ok(out)
}
