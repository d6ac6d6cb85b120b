// Answers to claims.

ghost use Rattle.std.specs.Prelude.{◌≡◌, ◌++◌, IfOk, IfSome, OnOk};
ghost use Rattle.qs_outcomes.specs.Outcomes.{HasPlaces};
ghost use Rattle.qs_report.specs.AnswerText.{answer_line, is_yes as is_yes_by, lead_word, place_line, text_of_answer, witness_text, witness_text_in};

use crate::outcomes::{put_clients, put_clients_in, put_objects};
use qs_conditions::Quantifier;
use qs_outcomes::{Answer, Standing};
use qs_program::Program;
use qs_text::{put, put_all, put_count_line};
use std::alloc::{AllocError, Global};

// The line of the file on which the claim stands, where it stands in one.
fn put_place_line(out: &mut Vec<u8>, line: usize) -> Result<(), AllocError>
    ensures ok { OnOk result (out.new.items ≡ out.old.items ++ place_line line) }
{
    if line == 0 {
        Ok(())
    } else {
        put_count_line(out, b"line", line as u64)
    }
}

// The line that says yes or no.
fn put_answer_line(out: &mut Vec<u8>, quantifier: Quantifier, holds: bool) -> Result<(), AllocError>
    ensures ok { OnOk result (out.new.items ≡ out.old.items ++ answer_line quantifier holds) }
{
    let answer: &[u8] = if holds { b" yes\n" } else { b" no\n" };
    put_all(out, &[quantifier.word(), answer])
}

// What stands before the order of a witness.
fn lead_word(quantifier: Quantifier) -> &'static [u8]
    ensures word { result.now ≡ lead_word quantifier }
{
    match quantifier {
        Quantifier::Always | Quantifier::Some => b"order",
        Quantifier::Throughout | Quantifier::Ever | Quantifier::Never => b"after",
    }
}

// An order that leads to what is looked for, the objects and the clients.
fn put_witness(
    out: &mut Vec<u8>,
    program: &Program,
    quantifier: Quantifier,
    standing: &Standing,
) -> Result<(), AllocError>
    requires places { HasPlaces program.now standing.now }
    ensures ok { OnOk result (out.new.items ≡ out.old.items ++ witness_text program.now quantifier standing.now) }
{
    put_all(out, &[lead_word(quantifier), b" "])?;
    put_clients_in(out, standing.order())?;
    put(out, b"\n")?;
    put_objects(out, program, standing)?;
    put_clients(out, program, standing)
}

// The witness, where there is one.
fn put_witness_in(
    out: &mut Vec<u8>,
    program: &Program,
    quantifier: Quantifier,
    answer: &Answer,
) -> Result<(), AllocError>
    requires places { IfSome answer.now.witness (HasPlaces program.now) }
    ensures ok { OnOk result (out.new.items ≡ out.old.items ++ witness_text_in program.now quantifier answer.now.witness) }
{
    match &answer.witness {
        Some(standing) => put_witness(out, program, quantifier, standing),
        None => Ok(()),
    }
}

/// The text of the answer to a claim: the line of the file on which the claim stands, which is 0 where it stands on the
/// command line and is not told then; the quantifier with `yes` or `no`; where there is a witness, the order that leads
/// to it, the objects' lines and the clients' lines; and how many configurations were noted. An error says that an
/// allocation failed, and nothing is left.
pub fn answer_text(
    alloc: Global,
    program: &Program,
    line: usize,
    quantifier: Quantifier,
    answer: &Answer,
) -> Result<Vec<u8>, AllocError>
    requires places { IfSome answer.now.witness (HasPlaces program.now) }
    ensures text { IfOk result (λ bytes. bytes.items ≡ text_of_answer program.now line quantifier answer.now) }
{
    let mut out = Vec::new(alloc);
    put_place_line(&mut out, line)?;
    put_answer_line(&mut out, quantifier, is_yes(quantifier, answer))?;
    put_witness_in(&mut out, program, quantifier, answer)?;
    put_count_line(&mut out, b"configurations", answer.configurations as u64)?;
    Ok(out)
}

/// Whether the answer to a claim is yes.
pub fn is_yes(quantifier: Quantifier, answer: &Answer) -> bool
    ensures holds { result ≡ is_yes_by quantifier answer.now }
{
    let found = answer.witness.is_some();
    match quantifier {
        Quantifier::Always | Quantifier::Throughout | Quantifier::Never => !found,
        Quantifier::Some | Quantifier::Ever => found,
    }
}
