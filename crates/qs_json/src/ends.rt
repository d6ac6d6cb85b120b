// The ends that a program can come to.

ghost use Rattle.std.specs.Prelude.{◌≡◌, IfOk, map};
ghost use Rattle.std.specs.List.{AllByRecursion};
ghost use Rattle.qs_outcomes.specs.Outcomes.{HasPlaces};
ghost use Rattle.qs_text.specs.SortedTexts.{IsInOrder};
ghost use Rattle.qs_text.specs.TellApart.{IsEndOfWords};
ghost use Rattle.qs_json.specs.EndsJson.{end_json, ends_json as json_of_ends};

use crate::outcomes::{put_clients, put_objects};
use qs_outcomes::{AllOutcomes, Standing};
use qs_program::Program;
use qs_text::{put_word, sorted_text};
use std::alloc::{AllocError, Global};

// An end by itself.
fn json_of_end(alloc: Global, program: &Program, standing: &Standing) -> Result<Vec<u8>, AllocError>
    requires places { HasPlaces program.now standing.now }
    ensures text { IfOk result (λ text. text.items ≡ end_json program.now standing.now) }
    ensures words { IfOk result (λ text. IsEndOfWords program.now standing.now) }
{
    let mut out = Vec::new(alloc);
    put_word(&mut out, b"{\"states\":[")?;
    put_objects(&mut out, program, standing)?;
    put_word(&mut out, b"]")?;
    put_word(&mut out, b",\"clients\":[")?;
    put_clients(&mut out, program, standing)?;
    put_word(&mut out, b"]")?;
    put_word(&mut out, b"}\n")?;
    Ok(out)
}

// All ends, each by itself.
fn json_of_all(
    alloc: Global,
    program: &Program,
    found: &[Standing],
) -> Result<Vec<Vec<u8>>, AllocError>
    requires places { AllByRecursion (HasPlaces program.now) found.now }
    ensures texts { IfOk result (λ texts. map (λ text. text.items) texts.items ≡ json_of_ends program.now found.now) }
    ensures words { IfOk result (λ texts. AllByRecursion (IsEndOfWords program.now) found.now) }
{
    let mut texts = Vec::new(alloc);
    for standing in found {
        texts.push(json_of_end(alloc, program, standing)?)?;
    }
    Ok(texts)
}

/// The ends that a program can come to, each once: an object on a line for each, with the objects and the clients with
/// their variables, in the order of these lines. Different ends have different lines (`ends_tell_apart`), since each
/// number that was written is one of 64 bits. An error says that an allocation failed, and nothing is left.
pub fn ends_json(alloc: Global, program: &Program, all: &AllOutcomes) -> Result<Vec<u8>, AllocError>
    requires places { AllByRecursion (HasPlaces program.now) all.now.found }
    ensures text { IfOk result (λ bytes. IsInOrder (json_of_ends program.now all.now.found) bytes.items) }
    ensures words { IfOk result (λ bytes. AllByRecursion (IsEndOfWords program.now) all.now.found) }
{
    sorted_text(alloc, json_of_all(alloc, program, all.found())?)
}
