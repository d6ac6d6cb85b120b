// Answers to claims.

ghost use Rattle.std.specs.Prelude.{◌≡◌, ◌++◌, codes, IfOk, IfSome, OnOk};
ghost use Rattle.std.specs.List.{join_by};
ghost use Rattle.qs_conditions.specs.Claims.{word};
ghost use Rattle.qs_outcomes.specs.Outcomes.{HasPlaces};
ghost use Rattle.qs_text.specs.Texts.{Puts};
ghost use Rattle.qs_json.specs.OutcomesJson.{next_client_json};
ghost use Rattle.qs_json.specs.audit.Pieces.{truth};
ghost use Rattle.qs_json.specs.AnswerJson.{answer_fields, json_of_answer, order_field, witness_field, witness_json};

use crate::outcomes::{put_joined, put_standing};
use crate::pieces::truth_word;
use qs_conditions::Quantifier;
use qs_objects::Ticket;
use qs_outcomes::{Answer, Standing};
use qs_program::Program;
use qs_report::is_yes;
use qs_text::{put_count, put_word};
use std::alloc::{AllocError, Global};

// These bytes, the name of the answer, and the answer.
fn put_answer_after(
    out: &mut Vec<u8>,
    before: &[u8],
    quantifier: Quantifier,
    holds: bool,
) -> Result<(), AllocError>
    ensures ok { OnOk result (Puts (before.now ++ (word quantifier ++ codes "\":" ++ truth holds)) out.old.items out.new.items) }
{
    put_word(out, before)?;
    put_word(out, quantifier.word())?;
    put_word(out, b"\":")?;
    put_word(out, truth_word(holds))
}

// The line of the file on which the claim stands, where it stands in one, and the answer.
fn put_answer(
    out: &mut Vec<u8>,
    line: usize,
    quantifier: Quantifier,
    holds: bool,
) -> Result<(), AllocError>
    ensures ok { OnOk result (Puts (answer_fields line quantifier holds) out.old.items out.new.items) }
{
    if line == 0 {
        return put_answer_after(out, b"{\"", quantifier, holds);
    }
    put_count(out, b"{\"line\":", line as u64)?;
    put_answer_after(out, b",\"", quantifier, holds)
}

// A word, the clients of an order, and the bracket that closes them.
fn put_named_order(out: &mut Vec<u8>, word: &[u8], order: &[Ticket]) -> Result<(), AllocError>
    ensures ok { OnOk result (Puts (word.now ++ (join_by next_client_json (codes ",") order.now ++ codes "]")) out.old.items out.new.items) }
{
    put_word(out, word)?;
    put_joined(out, order)?;
    put_word(out, b"]")
}

// The order of a witness, as a first field.
fn put_order(out: &mut Vec<u8>, quantifier: Quantifier, order: &[Ticket]) -> Result<(), AllocError>
    ensures ok { OnOk result (Puts (order_field quantifier order.now) out.old.items out.new.items) }
{
    match quantifier {
        Quantifier::Always | Quantifier::Some => put_named_order(out, b"{\"order\":[", order),
        Quantifier::Throughout | Quantifier::Ever | Quantifier::Never => {
            put_named_order(out, b"{\"after\":[", order)
        }
    }
}

// An order that leads to what is looked for, the objects and the clients.
fn put_witness(
    out: &mut Vec<u8>,
    program: &Program,
    quantifier: Quantifier,
    standing: &Standing,
) -> Result<(), AllocError>
    requires places { HasPlaces program.now standing.now }
    ensures ok { OnOk result (Puts (witness_json program.now quantifier standing.now) out.old.items out.new.items) }
{
    put_order(out, quantifier, standing.order())?;
    put_standing(out, program, standing)?;
    put_word(out, b"}")
}

// The witness as a field, which is null where there is none.
fn put_witness_field(
    out: &mut Vec<u8>,
    program: &Program,
    quantifier: Quantifier,
    answer: &Answer,
) -> Result<(), AllocError>
    requires places { IfSome answer.now.witness (HasPlaces program.now) }
    ensures ok { OnOk result (Puts (witness_field program.now quantifier answer.now.witness) out.old.items out.new.items) }
{
    put_word(out, b",\"witness\":")?;
    match &answer.witness {
        Some(standing) => put_witness(out, program, quantifier, standing),
        None => put_word(out, b"null"),
    }
}

/// The answer to a claim as an object on a line: the line of the file on which the claim stands, which is 0 where it
/// stands on the command line and is not told then; the answer; where there is a witness, the order that leads to it
/// with the objects and the clients; and how many configurations were noted. An error says that an allocation failed,
/// and nothing is left.
pub fn answer_json(
    alloc: Global,
    program: &Program,
    line: usize,
    quantifier: Quantifier,
    answer: &Answer,
) -> Result<Vec<u8>, AllocError>
    requires places { IfSome answer.now.witness (HasPlaces program.now) }
    ensures text { IfOk result (λ bytes. bytes.items ≡ json_of_answer program.now line quantifier answer.now) }
{
    let mut out = Vec::new(alloc);
    put_answer(&mut out, line, quantifier, is_yes(quantifier, answer))?;
    put_witness_field(&mut out, program, quantifier, answer)?;
    put_count(
        &mut out,
        b",\"configurations\":",
        answer.configurations as u64,
    )?;
    put_word(&mut out, b"}\n")?;
    Ok(out)
}
