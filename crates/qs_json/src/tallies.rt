// How often each end came in many runs.

ghost use Rattle.std.specs.Prelude.{◌≡◌, ◌<◌, ◌++◌, length, IfOk, OnOk};
ghost use Rattle.std.specs.List.{AllByRecursion};
ghost use Rattle.qs_outcomes.specs.Outcomes.{HasPlaces};
ghost use Rattle.qs_text.specs.audit.Texts.{texts_up_to};
ghost use Rattle.qs_text.specs.Texts.{Puts};
ghost use Rattle.qs_json.specs.TallyJson.{came_json, counted_json, counted_json_at, end_head_json, number_or_null, tally_json as json_of_tally};

use crate::outcomes::{put_joined, put_standing};
use qs_program::Program;
use qs_report::{came, end_at};
use qs_tally::{CountedEnd, Tally};
use qs_text::{put_all, put_count, put_word};
use std::alloc::{AllocError, Global};

// A word, and a number where the ends are all outcomes, or null.
fn put_number_or_null(
    out: &mut Vec<u8>,
    word: &[u8],
    listed: bool,
    number: usize,
) -> Result<(), AllocError>
    ensures ok { OnOk result (Puts (word.now ++ number_or_null listed number) out.old.items out.new.items) }
{
    if listed {
        put_count(out, word, number as u64)
    } else {
        put_all(out, &[word, b"null"])
    }
}

// The number of an outcome, an order that comes to the end, and in how many runs it came.
fn put_end_head(
    out: &mut Vec<u8>,
    listed: bool,
    number: usize,
    end: &CountedEnd,
) -> Result<(), AllocError>
    ensures ok { OnOk result (Puts (end_head_json listed number end.now) out.old.items out.new.items) }
{
    put_number_or_null(out, b"{\"outcome\":", listed, number)?;
    put_word(out, b",\"order\":[")?;
    put_joined(out, end.standing().order())?;
    put_word(out, b"]")?;
    put_count(out, b",\"came\":", u64::from(end.times()))
}

// An end that came.
fn put_came(
    out: &mut Vec<u8>,
    program: &Program,
    listed: bool,
    number: usize,
    end: &CountedEnd,
) -> Result<(), AllocError>
    requires places { HasPlaces program.now end.now.standing }
    ensures ok { OnOk result (Puts (came_json program.now listed number end.now) out.old.items out.new.items) }
{
    put_end_head(out, listed, number, end)?;
    put_standing(out, program, end.standing())?;
    put_word(out, b"}\n")
}

// An end, if it came.
fn put_end(
    out: &mut Vec<u8>,
    program: &Program,
    listed: bool,
    number: usize,
    end: &CountedEnd,
) -> Result<(), AllocError>
    requires places { HasPlaces program.now end.now.standing }
    ensures ok { OnOk result (Puts (counted_json program.now listed number end.now) out.old.items out.new.items) }
{
    if end.times() == 0 {
        Ok(())
    } else {
        put_came(out, program, listed, number, end)
    }
}

// All ends that came, one after another.
fn put_ends(
    out: &mut Vec<u8>,
    program: &Program,
    listed: bool,
    ends: &[CountedEnd],
) -> Result<(), AllocError>
    requires places { AllByRecursion (λ e. HasPlaces program.now e.standing) ends.now }
    ensures ok { OnOk result (Puts (texts_up_to (length ends.now) (counted_json_at program.now listed ends.now)) out.old.items out.new.items) }
{
    for place in 0..ends.len() {
        put_end(out, program, listed, place + 1, end_at(ends, place))?;
    }
    Ok(())
}

/// A tally of so many runs, an object on a line for each end that came: its number where the ends are all outcomes of
/// the program, an order that comes to it, in how many runs it came, the objects and the clients with their variables;
/// and a last line with how many runs there were, and how many ends came. An error says that an allocation failed, and
/// nothing is left.
pub fn tally_json(
    alloc: Global,
    program: &Program,
    runs: u32,
    tally: &Tally,
) -> Result<Vec<u8>, AllocError>
    requires places { AllByRecursion (λ e. HasPlaces program.now e.standing) tally.now.ends }
    ensures text { IfOk result (λ bytes. bytes.items ≡ json_of_tally program.now runs tally.now) }
{
    let mut out = Vec::new(alloc);
    let ends = tally.ends();
    let listed = tally.is_listed();
    put_ends(&mut out, program, listed, ends)?;
    put_count(&mut out, b"{\"runs\":", u64::from(runs))?;
    put_count(&mut out, b",\"came\":", came(ends) as u64)?;
    put_number_or_null(&mut out, b",\"outcomes\":", listed, ends.len())?;
    put_word(&mut out, b"}\n")?;
    Ok(out)
}
