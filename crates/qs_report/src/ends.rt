// The ends that a program can come to.

ghost use Rattle.std.specs.Prelude.{◌≡◌, ◌++◌, IfOk, OnOk, map};
ghost use Rattle.std.specs.List.{AllByRecursion};
ghost use Rattle.qs_outcomes.specs.Outcomes.{HasPlaces};
ghost use Rattle.qs_report.specs.EndsText.{end_text, end_texts};
ghost use Rattle.qs_text.specs.SortedTexts.{IsInOrder};
ghost use Rattle.qs_text.specs.TellApart.{IsEndOfWords};

use crate::outcomes::{put_clients, put_objects};
use qs_outcomes::{AllOutcomes, Standing};
use qs_program::Program;
use qs_text::{put, sorted_text};
use std::alloc::{AllocError, Global};

// An end by itself.
fn text_of_end(alloc: Global, program: &Program, standing: &Standing) -> Result<Vec<u8>, AllocError>
    requires places { HasPlaces program.now standing.now }
    ensures text { IfOk result (λ text. text.items ≡ end_text program.now standing.now) }
    ensures words { IfOk result (λ text. IsEndOfWords program.now standing.now) }
{
    let mut out = Vec::new(alloc);
    put(&mut out, b"end\n")?;
    put_objects(&mut out, program, standing)?;
    put_clients(&mut out, program, standing)?;
    Ok(out)
}

// All ends, each by itself.
fn texts_of_ends(
    alloc: Global,
    program: &Program,
    found: &[Standing],
) -> Result<Vec<Vec<u8>>, AllocError>
    requires places { AllByRecursion (HasPlaces program.now) found.now }
    ensures texts { IfOk result (λ texts. map (λ text. text.items) texts.items ≡ end_texts program.now found.now) }
    ensures words { IfOk result (λ texts. AllByRecursion (IsEndOfWords program.now) found.now) }
{
    let mut texts = Vec::new(alloc);
    for standing in found {
        texts.push(text_of_end(alloc, program, standing)?)?;
    }
    Ok(texts)
}

/// The text of the ends that a program can come to, each once: the objects' lines and the clients' lines below a line
/// `end`, in the order of their texts. Different ends have different texts (`ends_tell_apart`), since each number that
/// was written is one of 64 bits. An error says that an allocation failed, and nothing is left.
pub fn ends_text(alloc: Global, program: &Program, all: &AllOutcomes) -> Result<Vec<u8>, AllocError>
    requires places { AllByRecursion (HasPlaces program.now) all.now.found }
    ensures text { IfOk result (λ bytes. IsInOrder (end_texts program.now all.now.found) bytes.items) }
    ensures words { IfOk result (λ bytes. AllByRecursion (IsEndOfWords program.now) all.now.found) }
{
    sorted_text(alloc, texts_of_ends(alloc, program, all.found())?)
}
