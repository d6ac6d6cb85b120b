// What is said of a fault, as fields of an object of JSON, for editors: the parts of what standard error says. No
// contract speaks of these words.

use crate::fault::told_whole;
use crate::line_causes::is_of_claims;
use itoa::Buffer;
use qs_diagnosis::{put, put_all};
use qs_report::{Fault, place_of};
use std::alloc::{AllocError, Global};
use std::str;

// Where the place is that is told.
#[derive(Clone, Copy)]
enum Origin {
    // In the script; and the fault's own words have this line.
    Line(u32),
    // In the script.
    Script,
    // In a word of the line.
    Word,
}

// The rest of the first line that begins so, but for blanks.
fn rest_after<'a>(told: &'a str, head: &str) -> Option<&'a str> {
    for line in told.split('\n') {
        if let Some(rest) = line.trim_ascii_start().strip_prefix(head) {
            return Some(rest);
        }
    }
    None
}

// The line below the source line, from its first mark on.
fn marked_in(told: &str) -> &str {
    match rest_after(told, "| ") {
        Some(rest) => rest.trim_ascii_start(),
        None => "",
    }
}

// How many marks there are.
fn marks_in(told: &str) -> u64 {
    let mut marks = 0u64;
    for byte in marked_in(told).as_bytes() {
        if *byte != b'^' {
            return marks;
        }
        marks = marks.saturating_add(1);
    }
    marks
}

// What stands beside the marks.
fn label_in(told: &str) -> Option<&str> {
    let mut parts = marked_in(told).split("^ ");
    let _marks = parts.next();
    parts.next()
}

// Puts a byte of a string of JSON.
fn put_byte(out: &mut Vec<u8>, byte: u8) -> Result<(), AllocError> {
    match byte {
        b'"' => put(out, b"\\\""),
        b'\\' => put(out, b"\\\\"),
        b'\n' => put(out, b"\\n"),
        // No script and no message has another one; a word of the line may.
        0..=31 => put(out, b"\\ufffd"),
        _ => {
            out.push(byte)?;
            Ok(())
        }
    }
}

fn put_escaped(out: &mut Vec<u8>, text: &str) -> Result<(), AllocError> {
    for byte in text.as_bytes() {
        put_byte(out, *byte)?;
    }
    Ok(())
}

// Puts a field whose value is a string.
fn put_field(out: &mut Vec<u8>, name: &[u8], text: &str) -> Result<(), AllocError> {
    put_all(out, &[b",\"", name, b"\":\""])?;
    put_escaped(out, text)?;
    put(out, b"\"")
}

// Puts all lines of help, as one string with a line's end between each two.
fn put_help(out: &mut Vec<u8>, told: &str) -> Result<(), AllocError> {
    let mut has_some = false;
    for line in told.split('\n') {
        if let Some(help) = line.trim_ascii_start().strip_prefix("= help: ") {
            put(out, if has_some { b"\\n" } else { b",\"help\":\"" })?;
            put_escaped(out, help)?;
            has_some = true;
        }
    }
    if has_some { put(out, b"\"") } else { Ok(()) }
}

// Puts the part of the word that is shown.
fn put_word(alloc: Global, out: &mut Vec<u8>, told: &str, line: &str) -> Result<(), AllocError> {
    let head = format!(in alloc; "{line} | ")?;
    match rest_after(told, head.as_str()) {
        Some(word) => put_field(out, b"word", word),
        None => Ok(()),
    }
}

// Puts the column and how much is marked.
fn put_column(out: &mut Vec<u8>, told: &str, column: &str) -> Result<(), AllocError> {
    let mut buffer = Buffer::new();
    let length = buffer.format(marks_in(told)).as_bytes();
    put_all(
        out,
        &[b",\"column\":", column.as_bytes(), b",\"length\":", length],
    )
}

// Puts the place: a line of the script, or a word of the line. Where the fault's own words have another line than the
// place that is told, that line stands alone.
fn put_place(
    alloc: Global,
    out: &mut Vec<u8>,
    told: &str,
    origin: Origin,
) -> Result<(), AllocError> {
    let Some(place) = rest_after(told, "--> line ") else {
        return Ok(());
    };
    let mut parts = place.split(", column ");
    let (Some(line), Some(column)) = (parts.next(), parts.next()) else {
        return Ok(());
    };
    match origin {
        Origin::Line(known) => {
            if line.parse::<u32>().ok() != Some(known) {
                return Ok(());
            }
        }
        Origin::Script => put_all(out, &[b",\"line\":", line.as_bytes()])?,
        Origin::Word => put_word(alloc, out, told, line)?,
    }
    put_column(out, told, column)
}

// Where the place is of what is told of a fault.
fn origin_of<'a>(
    alloc: Global,
    words: &'a [&'a str],
    text: &[u8],
    fault: &Fault,
) -> Result<Origin, AllocError> {
    if let Some(line) = place_of(fault) {
        return Ok(Origin::Line(line));
    }
    let in_script = match fault {
        Fault::Read(_) | Fault::Check(_) => true,
        Fault::CommandLine => is_of_claims(alloc, words, text)?,
        _ => false,
    };
    Ok(if in_script {
        Origin::Script
    } else {
        Origin::Word
    })
}

/// What is said of a fault, as fields of an object of JSON, each with a comma before it: `line`, `column` and `length`,
/// or `word`, `column` and `length` where a word of the line is meant; `cause`; `label`, what stands beside the marks;
/// and `help`. Each only where there is one. An error says that an allocation failed.
pub fn fault_details<'a>(
    alloc: Global,
    words: &'a [&'a str],
    text: &[u8],
    fault: &Fault,
) -> Result<Vec<u8>, AllocError> {
    let mut out = Vec::new(alloc);
    let said = told_whole(alloc, words, text, fault)?;
    let Ok(told) = str::from_utf8(said.as_slice()) else {
        return Ok(out);
    };
    let origin = origin_of(alloc, words, text, fault)?;
    put_place(alloc, &mut out, told, origin)?;
    if let Some(cause) = rest_after(told, "error: ") {
        put_field(&mut out, b"cause", cause)?;
    }
    if let Some(label) = label_in(told) {
        put_field(&mut out, b"label", label)?;
    }
    put_help(&mut out, told)?;
    Ok(out)
}
