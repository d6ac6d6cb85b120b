// Which values a sum has at ends.

ghost use Rattle.std.specs.Prelude.{◌≡◌, ◌<◌, ◌++◌, flat_map, length, slice_index_or, IfOk, OnOk};
ghost use Rattle.qs_questions.specs.SumValues.{AreWithin};
ghost use Rattle.qs_report.specs.OutcomesText.{no_standing};
ghost use Rattle.qs_report.specs.ValuesText.{text_of_values, value_line};

use crate::outcomes::{outcome_at, put_clients_in};
use itoa::Buffer;
use qs_outcomes::{AllOutcomes, Standing};
use qs_questions::SumValue;
use qs_text::{put, put_all, put_count_line};
use std::alloc::{AllocError, Global};

// A value, at how many ends the sum has it, and an order that comes to the first of these.
fn put_value(out: &mut Vec<u8>, ends: &[Standing], value: SumValue) -> Result<(), AllocError>
    requires within { value.first < length ends.now }
    ensures ok { OnOk result (out.new.items ≡ out.old.items ++ value_line ends.now value) }
{
    let mut number = Buffer::new();
    put_all(out, &[b"value ", number.format(value.value).as_bytes()])?;
    let mut count = Buffer::new();
    put_all(
        out,
        &[b" ends ", count.format(value.ends).as_bytes(), b" order "],
    )?;
    put_clients_in(out, outcome_at(ends, value.first).order())?;
    put(out, b"\n")
}

// All values, one after another.
fn put_values(out: &mut Vec<u8>, ends: &[Standing], values: &[SumValue]) -> Result<(), AllocError>
    requires within { AreWithin ends.now values.now }
    ensures ok { OnOk result (out.new.items ≡ out.old.items ++ flat_map (value_line ends.now) values.now) }
{
    for value in values {
        put_value(out, ends, *value)?;
    }
    Ok(())
}

/// The text of the values that a sum has at all ends: how many there are; each in their order, with the number of ends
/// and an order that comes to the first of these; and how many configurations there are. An error says that an
/// allocation failed, and nothing is left.
pub fn values_text(
    alloc: Global,
    values: &[SumValue],
    all: &AllOutcomes,
) -> Result<Vec<u8>, AllocError>
    requires within { AreWithin all.now.found values.now }
    ensures text { IfOk result (λ bytes. bytes.items ≡ text_of_values values.now all.now) }
{
    let mut out = Vec::new(alloc);
    put_count_line(&mut out, b"values", values.len() as u64)?;
    put_values(&mut out, all.found(), values)?;
    put_count_line(&mut out, b"configurations", all.configurations() as u64)?;
    Ok(out)
}
