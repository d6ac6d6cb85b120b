// What is said of a command line that is refused.

use crate::causes::name_bytes;
use crate::line_causes::condition::{put_condition, put_sum};
use crate::line_causes::hints::put_hint;
use qs_diagnosis::{put, put_all};
use qs_line::{APART, MOST_ACTORS, Setting, Who, part_of, refusal, value_after};
use qs_played::Actor;
use std::alloc::{AllocError, Global};

const SCRIPT: &[u8] = b"\nThe script comes on standard input: qs check < my.script\n";

const HELP: &[u8] =
    b"\n`qs --help` says what can be done with a script, and `qs help language` how it is written.\n";

const NO_WORD: &[u8] =
    b"error: no word stands on the line: `check`, `graph`, `rules`, `play`, `run`, `syncs`, `outcomes`, `ask`, `fronts` or `estimate`\n  = help: `qs --help` says what each of them does\n";

/// Puts what is said of a line at the end: what `clap` says where it refuses the line by an error, and else which value
/// is wrong.
pub(crate) fn put_line<'a>(
    alloc: Global,
    out: &mut Vec<u8>,
    words: &'a [&'a str],
) -> Result<(), AllocError> {
    match refusal(alloc, words)? {
        Some(text) => {
            put_hint(out, words, text.as_str())?;
            if out.is_empty() {
                put(out, text.as_bytes())?;
                put_beneath(out, words)?;
            }
            Ok(())
        }
        None if words.len() < 2 => put(out, NO_WORD),
        None => put_value(alloc, out, words),
    }
}

// Puts below what `clap` says how help is asked for, or that the script comes on standard input.
fn put_beneath<'a>(out: &mut Vec<u8>, words: &'a [&'a str]) -> Result<(), AllocError> {
    if words.get(1) == Some(&"help") {
        return match words.get(2) {
            Some(word) if is_word(word) => put_all(
                out,
                &[
                    b"\n`qs ",
                    word.as_bytes(),
                    b" --help` says what `",
                    word.as_bytes(),
                    b"` does, and which settings it has.\n",
                ],
            ),
            _ => put(out, HELP),
        };
    }
    if names_file(words) {
        return put(out, SCRIPT);
    }
    Ok(())
}

fn is_word(word: &str) -> bool {
    matches!(
        word,
        "check"
            | "graph"
            | "rules"
            | "play"
            | "run"
            | "syncs"
            | "outcomes"
            | "ask"
            | "fronts"
            | "estimate"
    )
}

// Whether a word after the first looks like the name of a file.
fn names_file<'a>(words: &'a [&'a str]) -> bool {
    for (place, word) in words.iter().enumerate() {
        if place > 0 && !word.starts_with("-") && (word.contains('.') || word.contains('/')) {
            return true;
        }
    }
    false
}

// Puts what is wrong with the line: two settings that do not stand together, a format that the word or another setting
// does not have, or a value that cannot be parsed.
fn put_value<'a>(alloc: Global, out: &mut Vec<u8>, words: &'a [&'a str]) -> Result<(), AllocError> {
    put_apart(out, words)?;
    if out.is_empty() {
        put_format(out, words)?;
    }
    if out.is_empty() {
        put_numbers(out, words)?;
    }
    if out.is_empty() {
        put_list(out, words, "--pick", true)?;
        put_list(out, words, "--order", false)?;
        put_list(out, words, "--after", false)?;
        put_lists(out, words)?;
    }
    if out.is_empty() {
        for setting in CLAIMS {
            put_condition(alloc, out, words, setting)?;
        }
        put_sum(alloc, out, words)?;
    }
    Ok(())
}

// Whether a setting stands on the line.
fn stands<'a>(words: &'a [&'a str], setting: Setting) -> bool {
    for word in words {
        if let Some(rest) = word.strip_prefix("--") {
            if rest.split('=').next() == Some(setting.name()) {
                return true;
            }
        }
    }
    false
}

// A setting as the help shows it: with the name of its value, where it has one.
fn shown(setting: Setting) -> &'static str {
    match setting {
        Setting::Order => "--order <LIST>",
        Setting::Pick => "--pick <LIST>",
        Setting::Rounds => "--rounds <N>",
        Setting::Steps => "--steps",
        Setting::Queues => "--queues",
        Setting::Times => "--times <N>",
        Setting::Counts => "--counts",
        Setting::Refusals => "--refusals",
        Setting::Ends => "--ends",
        Setting::Alike => "--alike",
        Setting::After => "--after <LIST>",
        Setting::Leads => "--leads <LISTS>",
        Setting::Threads => "--threads <N>",
    }
}

// Puts the first two settings of the line that do not stand together.
fn put_apart<'a>(out: &mut Vec<u8>, words: &'a [&'a str]) -> Result<(), AllocError> {
    for (one, other) in APART {
        if stands(words, one) && stands(words, other) {
            return put_beside(out, shown(one), shown(other));
        }
    }
    Ok(())
}

fn put_beside(out: &mut Vec<u8>, one: &str, other: &str) -> Result<(), AllocError> {
    put(out, b"error: the argument '")?;
    put(out, one.as_bytes())?;
    put(out, b"' cannot be used with '")?;
    put(out, other.as_bytes())?;
    put(out, b"'\n")
}

// The formats of a word, beside `text` and `json`.
fn picture_of(word: &str) -> &'static str {
    match word {
        "graph" | "outcomes" => "dot",
        "rules" | "play" | "run" => "svg",
        _ => "",
    }
}

// Settings whose text is no drawing and no picture, or stands beside none.
const UNDRAWN: [Setting; 6] = [
    Setting::Ends,
    Setting::Alike,
    Setting::Threads,
    Setting::Times,
    Setting::Steps,
    Setting::Queues,
];

// Puts which format the word does not have, or which setting does not stand beside the format.
fn put_format<'a>(out: &mut Vec<u8>, words: &'a [&'a str]) -> Result<(), AllocError> {
    let (Some(format), Some(word)) = (value_after(words, "--format"), words.get(1)) else {
        return Ok(());
    };
    let picture = picture_of(word);
    if format != "text" && format != "json" && (picture.is_empty() || format != picture) {
        return put_no_format(out, format, picture);
    }
    for setting in UNDRAWN {
        if format == picture && stands(words, setting) {
            return put_beside_format(out, setting, format);
        }
    }
    Ok(())
}

fn put_no_format(out: &mut Vec<u8>, format: &str, picture: &str) -> Result<(), AllocError> {
    put_all(
        out,
        &[
            b"error: there is no format '",
            format.as_bytes(),
            b"' for '--format <F>' here\n  [possible values: text, json",
        ],
    )?;
    if !picture.is_empty() {
        put_all(out, &[b", ", picture.as_bytes()])?;
    }
    put(out, b"]\n")
}

fn put_beside_format(out: &mut Vec<u8>, setting: Setting, format: &str) -> Result<(), AllocError> {
    put(out, b"error: the argument '")?;
    put(out, shown(setting).as_bytes())?;
    put(out, b"' cannot be used with '--format ")?;
    put(out, format.as_bytes())?;
    put(out, b"'\n")
}

// Puts which mode or which number of rounds cannot be parsed.
fn put_numbers<'a>(out: &mut Vec<u8>, words: &'a [&'a str]) -> Result<(), AllocError> {
    if let Some(mode) = value_after(words, "--mode") {
        if !is_mode(mode) {
            return put_mode(out, mode);
        }
    }
    if let Some(rounds) = value_after(words, "--rounds") {
        if rounds.parse::<u32>().is_err() {
            return put_rounds(out, rounds);
        }
    }
    Ok(())
}

fn is_mode(word: &str) -> bool {
    matches!(word, "none" | "dynamic" | "static" | "both")
}

fn put_mode(out: &mut Vec<u8>, mode: &str) -> Result<(), AllocError> {
    put_all(
        out,
        &[
            b"error: there is no mode '",
            mode.as_bytes(),
            b"' for '--mode <M>'\n  [possible values: none, dynamic, static, both]\n",
        ],
    )
}

fn put_rounds(out: &mut Vec<u8>, rounds: &str) -> Result<(), AllocError> {
    put_all(
        out,
        &[
            b"error: '",
            rounds.as_bytes(),
            b"' is no number of rounds for '--rounds <N>'\n  [from 0 to 1000000]\n",
        ],
    )
}

/// The settings that take a condition.
pub(crate) const CLAIMS: [&str; 5] = ["--always", "--some", "--throughout", "--ever", "--never"];

const NO_ACTOR: &[u8] =
    b"is no actor\n  = help: an actor is `@` and a name, or `c` or `h` and one digit, as in `@ann*2,@a`: twice the client ann, and then the handler of the object a\n";

const NO_CLIENT: &[u8] =
    b"is no client\n  = help: a client is `@` and a name, or `c` and one digit, as in `@ann*2,@bob`: two blocks of ann, and then one of bob\n";

const NO_TIMES: &[u8] = b"has no number from 1 to 1000000 after its `*`\n";

const REPEATED_NUMBER: &[u8] =
    b"has a `*` after a number\n  = help: how often an actor stands there is said after a name alone, as in `@bob*2`\n";

const TOO_MANY: &[u8] = b"brings the list to more than 1000000\n";

// Whether a text is an actor that may stand in a list: a client by its number, a handler where handlers may, or a name
// after its sign.
fn may_stand(actor: &str, may_be_handler: bool) -> bool {
    match part_of(actor.as_bytes()) {
        Some(part) => may_be_handler || !matches!(&part.who, Who::Number(Actor::Handler(_))),
        None => false,
    }
}

// What is wrong with a part of a list: before its `*` stands no actor that may stand there, or one by its number, or it
// says by no number how often.
fn fault_of_part(part: &str, may_be_handler: bool) -> Option<&'static [u8]> {
    let actor = part.split('*').next().unwrap_or("");
    if !may_stand(actor, may_be_handler) {
        return Some(if may_be_handler { NO_ACTOR } else { NO_CLIENT });
    }
    if part_of(part.as_bytes()).is_none() {
        return Some(if part.starts_with("@") {
            NO_TIMES
        } else {
            REPEATED_NUMBER
        });
    }
    None
}

// Whether a part of a list begins with a name, and has no `@` before it: it is no `c` or `h` with digits alone.
fn is_bare_name(part: &str) -> bool {
    let text = part.split('*').next().unwrap_or("").as_bytes();
    match text {
        [b'c' | b'h', rest @ ..] if rest.iter().all(u8::is_ascii_digit) => false,
        [b'a'..=b'z', ..] => name_bytes(text) == text.len(),
        _ => false,
    }
}

// Puts that a name in a list has no `@`, and how it is written.
fn put_bare_name(
    out: &mut Vec<u8>,
    which: Which<'_>,
    place: u64,
    part: &[u8],
) -> Result<(), AllocError> {
    put_part(
        out,
        which,
        place,
        part,
        b"is a name without an `@` before it\n",
    )?;
    put_all(out, &[b"  = help: write `@", part, b"`\n"])
}

// For how many actors a part of a list stands.
fn times_of(part: &str) -> u32 {
    match part_of(part.as_bytes()) {
        Some(part) => part.count,
        None => 0,
    }
}

// Puts which part of the list after a setting is no actor that may stand there, or one too many.
fn put_list<'a>(
    out: &mut Vec<u8>,
    words: &'a [&'a str],
    setting: &str,
    may_be_handler: bool,
) -> Result<(), AllocError> {
    match value_after(words, setting) {
        Some(list) => put_fault(out, list, Which::only(setting), may_be_handler),
        None => Ok(()),
    }
}

// The same of the first of the lists after `--leads` of which there is something to say.
fn put_lists<'a>(out: &mut Vec<u8>, words: &'a [&'a str]) -> Result<(), AllocError> {
    let Some(lists) = value_after(words, LEADS) else {
        return Ok(());
    };
    for (index, list) in lists.split(':').enumerate() {
        if out.is_empty() {
            put_fault(out, list, Which::of_several(index), false)?;
        }
    }
    Ok(())
}

fn put_fault(
    out: &mut Vec<u8>,
    list: &str,
    which: Which<'_>,
    may_be_handler: bool,
) -> Result<(), AllocError> {
    let mut place = 1u64;
    let mut count = 0u32;
    for part in list.split(',') {
        if is_bare_name(part) {
            return put_bare_name(out, which, place, part.as_bytes());
        }
        if let Some(what) = fault_of_part(part, may_be_handler) {
            return put_part(out, which, place, part.as_bytes(), what);
        }
        count = count.saturating_add(times_of(part));
        if count > MOST_ACTORS {
            return put_part(out, which, place, part.as_bytes(), TOO_MANY);
        }
        place = place.saturating_add(1);
    }
    Ok(())
}

/// The setting that takes several lists.
pub(crate) const LEADS: &str = "--leads";

/// A list of the line: the only one after its setting, or one of several, by its number from 1.
#[derive(Clone, Copy)]
pub(crate) struct Which<'a> {
    setting: &'a str,
    number: Option<u64>,
}

impl<'a> Which<'a> {
    /// The only list after a setting.
    pub(crate) fn only(setting: &'a str) -> Which<'a> {
        Which {
            setting,
            number: None,
        }
    }

    /// One of the lists after `--leads`, by its number from 0.
    pub(crate) fn of_several(index: usize) -> Which<'a> {
        Which {
            setting: LEADS,
            number: Some((index as u64).saturating_add(1)),
        }
    }
}

// Puts which list it is.
fn put_which(out: &mut Vec<u8>, which: Which<'_>) -> Result<(), AllocError> {
    let mut buffer = itoa::Buffer::new();
    match which.number {
        Some(number) => put_all(
            out,
            &[b" of list ", buffer.format(number).as_bytes(), b" for '"],
        )?,
        None => put(out, b" of the list for '")?,
    }
    let value: &[u8] = if which.number.is_some() {
        b" <LISTS>'"
    } else {
        b" <LIST>'"
    };
    put_all(out, &[which.setting.as_bytes(), value])
}

/// Puts what is wrong with a part of a list.
pub(crate) fn put_part(
    out: &mut Vec<u8>,
    which: Which<'_>,
    place: u64,
    part: &[u8],
    what: &[u8],
) -> Result<(), AllocError> {
    let mut buffer = itoa::Buffer::new();
    put_all(out, &[b"error: part ", buffer.format(place).as_bytes()])?;
    put_which(out, which)?;
    put_all(out, &[b", '", part, b"', ", what])
}
