// How often each end came in many runs.

ghost use Rattle.std.specs.Prelude.{◌≡◌, ◌<◌, ◌++◌, length, slice_index_or, IfOk, OnOk};
ghost use Rattle.std.specs.List.{AllByRecursion};
ghost use Rattle.qs_outcomes.specs.Outcomes.{HasPlaces};
ghost use Rattle.qs_report.specs.TallyText.{came_line, came_text, came_up_to, counted_text, counted_text_at, end_line, end_name, no_end, of_all, tally_text as text_of_tally};
ghost use Rattle.qs_text.specs.audit.Texts.{texts_up_to};

use crate::outcomes::{put_clients, put_clients_in, put_objects};
use itoa::Buffer;
use qs_program::Program;
use qs_tally::{CountedEnd, Tally};
use qs_text::{put, put_all, put_count_line};
use std::alloc::{AllocError, Global};

// The number of an outcome, where the ends are all outcomes.
fn put_end_name(out: &mut Vec<u8>, listed: bool, number: usize) -> Result<(), AllocError>
    ensures ok { OnOk result (out.new.items ≡ out.old.items ++ end_name listed number) }
{
    if listed {
        let mut buffer = Buffer::new();
        put_all(out, &[b"outcome ", buffer.format(number).as_bytes()])
    } else {
        put(out, b"end")
    }
}

// The line that begins an end.
fn put_end_line(
    out: &mut Vec<u8>,
    listed: bool,
    number: usize,
    end: &CountedEnd,
) -> Result<(), AllocError>
    ensures ok { OnOk result (out.new.items ≡ out.old.items ++ end_line listed number end.now) }
{
    put_end_name(out, listed, number)?;
    put(out, b" ")?;
    put_clients_in(out, end.standing().order())?;
    let mut buffer = Buffer::new();
    put_all(
        out,
        &[b" came ", buffer.format(end.times()).as_bytes(), b"\n"],
    )
}

// An end that came.
fn put_came(
    out: &mut Vec<u8>,
    program: &Program,
    listed: bool,
    number: usize,
    end: &CountedEnd,
) -> Result<(), AllocError>
    requires places { HasPlaces program.now end.now.standing }
    ensures ok { OnOk result (out.new.items ≡ out.old.items ++ came_text program.now listed number end.now) }
{
    put_end_line(out, listed, number, end)?;
    put_objects(out, program, end.standing())?;
    put_clients(out, program, end.standing())
}

// An end, if it came.
fn put_end(
    out: &mut Vec<u8>,
    program: &Program,
    listed: bool,
    number: usize,
    end: &CountedEnd,
) -> Result<(), AllocError>
    requires places { HasPlaces program.now end.now.standing }
    ensures ok { OnOk result (out.new.items ≡ out.old.items ++ counted_text program.now listed number end.now) }
{
    if end.times() == 0 {
        Ok(())
    } else {
        put_came(out, program, listed, number, end)
    }
}

/// The end at a place of a list.
pub fn end_at(ends: &[CountedEnd], place: usize) -> &CountedEnd
    requires { place < length ends.now }
    ensures end { result.now ≡ slice_index_or ends.now place no_end }
{
    &ends[place]
}

// All ends that came, one after another.
fn put_ends(
    out: &mut Vec<u8>,
    program: &Program,
    listed: bool,
    ends: &[CountedEnd],
) -> Result<(), AllocError>
    requires places { AllByRecursion (λ e. HasPlaces program.now e.standing) ends.now }
    ensures ok { OnOk result (out.new.items
        ≡ out.old.items ++ texts_up_to (length ends.now) (counted_text_at program.now listed ends.now)) }
{
    for place in 0..ends.len() {
        put_end(out, program, listed, place + 1, end_at(ends, place))?;
    }
    Ok(())
}

/// How many ends came.
pub fn came(ends: &[CountedEnd]) -> usize
    ensures came { result ≡ came_up_to (length ends.now) ends.now }
{
    let mut came = 0;
    for place in 0..ends.len() {
        if end_at(ends, place).times() > 0 {
            came += 1;
        }
    }
    came
}

// Of how many outcomes, where the ends are all of them.
fn put_of_all(out: &mut Vec<u8>, listed: bool, all: usize) -> Result<(), AllocError>
    ensures ok { OnOk result (out.new.items ≡ out.old.items ++ of_all listed all) }
{
    if listed {
        let mut buffer = Buffer::new();
        put_all(out, &[b" of ", buffer.format(all).as_bytes()])
    } else {
        Ok(())
    }
}

// How many ends came.
fn put_came_line(out: &mut Vec<u8>, listed: bool, came: usize, all: usize) -> Result<(), AllocError>
    ensures ok { OnOk result (out.new.items ≡ out.old.items ++ came_line listed came all) }
{
    let mut buffer = Buffer::new();
    put_all(out, &[b"came ", buffer.format(came).as_bytes()])?;
    put_of_all(out, listed, all)?;
    put(out, b"\n")
}

/// The text of a tally of so many runs: how many there were; each end that came, with its number where the ends are all
/// outcomes of the program, an order that comes to it, and in how many runs it came, above the objects' lines and the
/// clients' lines; and how many ends came. An error says that an allocation failed, and nothing is left.
pub fn tally_text(
    alloc: Global,
    program: &Program,
    runs: u32,
    tally: &Tally,
) -> Result<Vec<u8>, AllocError>
    requires places { AllByRecursion (λ e. HasPlaces program.now e.standing) tally.now.ends }
    ensures text { IfOk result (λ bytes. bytes.items ≡ text_of_tally program.now runs tally.now) }
{
    let mut out = Vec::new(alloc);
    let ends = tally.ends();
    put_count_line(&mut out, b"runs", u64::from(runs))?;
    put_ends(&mut out, program, tally.is_listed(), ends)?;
    put_came_line(&mut out, tally.is_listed(), came(ends), ends.len())?;
    Ok(out)
}
