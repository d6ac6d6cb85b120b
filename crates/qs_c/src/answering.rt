// What a call answers.

ghost use Rattle.std.specs.Prelude.{◌≡◌, ◌==◌, IfOk, length, map};
ghost use Rattle.std.specs.List.{slice_split};
ghost use Rattle.qs_c.specs.Answers.{IsAnswered, IsDueOfWords, cut_into, line_words, words_of};

use qs_line::Format;
use qs_report::Fault;
use qs_serve::{Due, bytes_of, details_of, due_without_threads};
use std::alloc::{AllocError, Global};
use std::str;

// What is written where memory runs out.
const MEMORY: &[u8] = b"refused: memory\n";

// The lines of a text.
fn lines_of<'a>(alloc: Global, text: &'a str) -> Result<Vec<&'a str>, AllocError>
    ensures lines { IfOk result (λ lines. map (λ line. line.now) lines.items ≡ slice_split (λ byte. byte == 10) text.now) }
{
    text.split('\n').collect(alloc)
}

// The words that a text has, one on each of its lines.
fn words_in<'a>(alloc: Global, text: &'a str) -> Result<Vec<&'a str>, AllocError>
    ensures words { IfOk result (λ words. map (λ word. word.now) words.items ≡ words_of text.now) }
{
    if text.is_empty() {
        return Ok(Vec::new(alloc));
    }
    lines_of(alloc, text)
}

// The words of a line: the program's name, the word of a call, and those that a text has.
fn line_of<'a>(alloc: Global, word: &'a str, text: &'a str) -> Result<Vec<&'a str>, AllocError>
    ensures words { IfOk result (λ words. map (λ word. word.now) words.items ≡ line_words word.now text.now) }
{
    let rest = words_in(alloc, text)?;
    let mut words = vec![in alloc; "qs", word]?;
    words.extend_from_slice(rest.as_slice())?;
    Ok(words)
}

// What is due by a word, a text of further words and a script, in which format, and what a refusal as JSON says of why
// and where.
fn due_of_words(alloc: Global, word: &str, words: &[u8], script: &[u8]) -> (Due, Format, Vec<u8>)
    ensures due { IsDueOfWords word.now words.now script.now result.0 result.1 }
{
    let Ok(text) = str::from_utf8(words) else {
        return (
            Due::Refused(Fault::CommandLine),
            Format::Text,
            Vec::new(alloc),
        );
    };
    match line_of(alloc, word, text) {
        Ok(line) => {
            let (due, format) = due_without_threads(alloc, line.as_slice(), script);
            let details = details_of(alloc, line.as_slice(), script, format, &due);
            (due, format, details)
        }
        Err(_) => (Due::Refused(Fault::Memory), Format::Text, Vec::new(alloc)),
    }
}

// Copies as much of a text as there is room for, and answers its length.
fn put_text(text: &[u8], room: &mut [u8]) -> usize
    ensures cut { room.new ≡ cut_into text.now room.old }
    ensures length { result ≡ length text.now }
{
    let count = text.len().min(room.len());
    room[..count].copy_from_slice(&text[..count]);
    text.len()
}

/// Writes what is due by a word, a text of further words and a script, as much of it as there is room for. The answer
/// is how long it is.
pub(crate) fn answered(
    alloc: Global,
    word: &str,
    script: &[u8],
    words: &[u8],
    room: &mut [u8],
    status: &mut u8,
) -> usize
    ensures answer { IsAnswered word.now words.now script.now room.old room.new status.new result }
{
    let (due, format, details) = due_of_words(alloc, word, words, script);
    *status = due.status();
    let bytes = bytes_of(alloc, format, details.as_slice(), due);
    drop(details);
    match bytes {
        Ok(bytes) => put_text(bytes.as_slice(), room),
        Err(_) => {
            *status = Due::Refused(Fault::Memory).status();
            put_text(MEMORY, room)
        }
    }
}
