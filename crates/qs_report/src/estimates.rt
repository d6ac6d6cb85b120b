// How many configurations a search can have.

ghost use Rattle.std.specs.Prelude.{◌≡◌, ◌++◌, IfOk, OnOk};
ghost use Rattle.qs_report.specs.EstimateText.{estimate_text as text_of_estimate, most_line};

use qs_outcomes::estimate::Estimate;
use qs_text::{put, put_count_line};
use std::alloc::{AllocError, Global};

// How many there are at most.
fn put_most_line(out: &mut Vec<u8>, most: Option<u64>) -> Result<(), AllocError>
    ensures ok { OnOk result (out.new.items ≡ out.old.items ++ most_line most) }
{
    match most {
        Some(most) => put_count_line(out, b"configurations at most", most),
        None => put(out, b"configurations may be over 1000000000000000000\n"),
    }
}

/// The text of an estimate: how many configurations there are at most, or that there may be more than the greatest
/// number that is told; and how many there are at least where those of all orders are looked at, as `--throughout`
/// does. An error says that an allocation failed, and nothing is left.
pub fn estimate_text(alloc: Global, estimate: Estimate) -> Result<Vec<u8>, AllocError>
    ensures text { IfOk result (λ bytes. bytes.items ≡ text_of_estimate estimate) }
{
    let mut out = Vec::new(alloc);
    put_most_line(&mut out, estimate.most)?;
    put_count_line(&mut out, b"throughout at least", estimate.least)?;
    Ok(out)
}
