// Which values a sum has at ends.

ghost use Rattle.std.specs.Prelude.{◌≡◌, ◌<◌, ◌++◌, codes, length, IfOk, OnOk};
ghost use Rattle.std.specs.Fmt.{signed_decimal};
ghost use Rattle.std.specs.List.{join_by};
ghost use Rattle.qs_questions.specs.SumValues.{AreWithin};
ghost use Rattle.qs_text.specs.Texts.{Puts};
ghost use Rattle.qs_json.specs.ValuesJson.{json_of_values, value_json};
ghost use Rattle.qs_json.specs.audit.Pieces.{first_field};

use crate::outcomes::put_order;
use crate::pieces::put_comma;
use itoa::Buffer;
use qs_outcomes::{AllOutcomes, Standing};
use qs_questions::SumValue;
use qs_report::outcome_at;
use qs_text::{put_all, put_count, put_word};
use std::alloc::{AllocError, Global};

// What a sum comes to, as a first field.
fn put_sum(out: &mut Vec<u8>, number: i128) -> Result<(), AllocError>
    ensures ok { OnOk result (Puts (first_field (codes "value") (signed_decimal number)) out.old.items out.new.items) }
{
    let mut buffer = Buffer::new();
    put_all(out, &[b"{\"value\":", buffer.format(number).as_bytes()])
}

// A value, at how many ends the sum has it, and an order that comes to the first of these.
fn put_value(out: &mut Vec<u8>, ends: &[Standing], value: SumValue) -> Result<(), AllocError>
    requires within { value.first < length ends.now }
    ensures ok { OnOk result (Puts (value_json ends.now value) out.old.items out.new.items) }
{
    put_sum(out, value.value)?;
    put_count(out, b",\"ends\":", value.ends as u64)?;
    put_order(out, outcome_at(ends, value.first).order())?;
    put_word(out, b"}")
}

// All values, with a comma between each two.
fn put_joined(out: &mut Vec<u8>, ends: &[Standing], values: &[SumValue]) -> Result<(), AllocError>
    requires within { AreWithin ends.now values.now }
    ensures ok { OnOk result (Puts (join_by (value_json ends.now) (codes ",") values.now) out.old.items out.new.items) }
{
    for place in 0..values.len() {
        put_comma(out, place)?;
        put_value(out, ends, values[place])?;
    }
    Ok(())
}

/// The values that a sum has at all ends, as one object on a line: each value in their order, with the number of ends
/// and an order that comes to the first of these; and how many configurations there are. An error says that an
/// allocation failed, and nothing is left.
pub fn values_json(
    alloc: Global,
    values: &[SumValue],
    all: &AllOutcomes,
) -> Result<Vec<u8>, AllocError>
    requires within { AreWithin all.now.found values.now }
    ensures text { IfOk result (λ bytes. bytes.items ≡ json_of_values values.now all.now) }
{
    let mut out = Vec::new(alloc);
    put_word(&mut out, b"{\"values\":[")?;
    put_joined(&mut out, all.found(), values)?;
    put_word(&mut out, b"]")?;
    put_count(
        &mut out,
        b",\"configurations\":",
        all.configurations() as u64,
    )?;
    put_word(&mut out, b"}\n")?;
    Ok(out)
}
