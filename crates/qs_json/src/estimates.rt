// How many configurations a search can have.

ghost use Rattle.std.specs.Prelude.{◌≡◌, IfOk, OnOk, codes};
ghost use Rattle.qs_text.specs.Texts.{Puts};
ghost use Rattle.qs_json.specs.audit.Pieces.{first_field};
ghost use Rattle.qs_json.specs.EstimateJson.{bound_or_null, estimate_json as json_of_estimate};

use qs_outcomes::estimate::Estimate;
use qs_text::{put_count, put_word};
use std::alloc::{AllocError, Global};

// How many there are at most, as a first field.
fn put_most(out: &mut Vec<u8>, most: Option<u64>) -> Result<(), AllocError>
    ensures ok { OnOk result (Puts (first_field (codes "configurations_at_most") (bound_or_null most)) out.old.items out.new.items) }
{
    match most {
        Some(most) => put_count(out, b"{\"configurations_at_most\":", most),
        None => put_word(out, b"{\"configurations_at_most\":null"),
    }
}

/// An estimate as an object on a line: how many configurations there are at most, which is null where there may be more
/// than the greatest number that is told; and how many there are at least where those of all orders are looked at, as
/// `--throughout` does. An error says that an allocation failed, and nothing is left.
pub fn estimate_json(alloc: Global, estimate: Estimate) -> Result<Vec<u8>, AllocError>
    ensures text { IfOk result (λ bytes. bytes.items ≡ json_of_estimate estimate) }
{
    let mut out = Vec::new(alloc);
    put_most(&mut out, estimate.most)?;
    put_count(&mut out, b",\"throughout_at_least\":", estimate.least)?;
    put_word(&mut out, b"}\n")?;
    Ok(out)
}
