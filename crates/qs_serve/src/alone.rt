// What is due by a command line and a script's text where there are no threads, as bytes.

ghost use Rattle.std.specs.Prelude.{◌≡◌, IfErr, IfOk, map};
ghost use Rattle.qs_line.specs.Line.{line_in, request_of};
ghost use Rattle.qs_serve.specs.Due.{IsDueOfFault, IsDueOfLine, IsDueOfTextAlone, IsFormatOfLine, due_text, format_of_answer, refusal_in, takes_threads as takes_threads_in};

use crate::asking::prepared_whole;
use crate::due::{Due, due_of_fault, due_of_program};
use crate::output::write_refusal;
use qs_line::{Format, LineFault, Settings, read_line};
use qs_outcomes::Unwatched;
use qs_report::Fault;
use qs_text::Watch;
use std::alloc::{AllocError, Global};

// Whether settings ask for runs on threads.
fn takes_threads(settings: &Settings) -> bool
    ensures takes { result ≡ takes_threads_in (request_of settings.now) }
{
    matches!(settings, Settings::Run { .. } | Settings::Tally { .. })
}

// What settings make of a text.
fn due_of_text_alone(alloc: Global, settings: Settings, text: &[u8]) -> Due
    ensures due { IsDueOfTextAlone (request_of settings) text.now result }
{
    if takes_threads(&settings) {
        return Due::Refused(Fault::CommandLine);
    }
    match prepared_whole(alloc, settings, text) {
        Ok((settings, it)) => {
            due_of_program(alloc, &settings, &it.program, &it.lines, &mut Unwatched)
        }
        Err(fault) => Due::Refused(fault),
    }
}

// What is due by the answer of reading a line, and in which format.
fn due_of_answer(alloc: Global, line: Result<Settings, LineFault>, text: &[u8]) -> (Due, Format)
    ensures due { IfOk line (λ settings. IsDueOfTextAlone (request_of settings) text.now result.0) }
    ensures fault { IfErr line (λ f. IsDueOfFault f result.0) }
    ensures format { result.1 ≡ format_of_answer line }
{
    match line {
        Ok(settings) => {
            let format = settings.format();
            (due_of_text_alone(alloc, settings, text), format)
        }
        Err(fault) => (due_of_fault(fault), Format::Text),
    }
}

/// What is due by a command line and a script's text, and in which format. The words are all that stand on a line, the
/// program's name first. What takes threads is refused before the text is read, as a fault of the line. The format is
/// the one that the line asks for, and text where it asks for none or where memory ran out before the line was read.
pub fn due_without_threads<'a>(alloc: Global, words: &'a [&'a str], text: &[u8]) -> (Due, Format)
    ensures due { IsDueOfLine (line_in (map (λ word. word.now) words.entry.now)) text.now result.0 }
    ensures format { IsFormatOfLine (line_in (map (λ word. word.now) words.entry.now)) result.0 result.1 }
{
    let line = read_line(alloc, words);
    due_of_answer(alloc, line, text)
}

// The bytes of a refusal, in a format.
fn bytes_of_refusal(
    alloc: Global,
    format: Format,
    details: &[u8],
    fault: &Fault,
) -> Result<Vec<u8>, AllocError>
    ensures bytes { IfOk result (λ bytes. bytes.items ≡ refusal_in format details.now fault.now) }
{
    let mut out = Vec::new(alloc);
    if write_refusal(&mut out, &mut Watch::new(), format, details, fault) {
        Ok(out)
    } else {
        Err(AllocError)
    }
}

/// The bytes of what is due, in a format; a refusal as JSON has further fields. An error says that an allocation failed.
pub fn bytes_of(
    alloc: Global,
    format: Format,
    details: &[u8],
    due: Due,
) -> Result<Vec<u8>, AllocError>
    ensures bytes { IfOk result (λ bytes. bytes.items ≡ due_text format details.now due) }
{
    match due {
        Due::Text(bytes) | Due::No(bytes) => Ok(bytes),
        Due::Refused(fault) => bytes_of_refusal(alloc, format, details, &fault),
    }
}
