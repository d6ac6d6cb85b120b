// What helps where a line has a setting that its word does not have, or a condition that begins with a `-`.

use crate::line_causes::line::CLAIMS;
use qs_diagnosis::{put, put_all};
use std::alloc::AllocError;

// The words that have a setting, where there are some.
fn owners_of(name: &str) -> Option<&'static str> {
    match name {
        "verbose" => Some("`check`"),
        "order" => Some("`rules`, `play` and `syncs`"),
        "rounds" | "pick" | "steps" | "queues" => Some("`rules` and `play`"),
        "counts" | "refusals" => Some("`rules`, `play` and `run`"),
        "mode" | "chunk" => Some("`play` and `run`"),
        "times" => Some("`run`"),
        "limit" => Some("`outcomes`, `ask` and `fronts`"),
        "after" => Some("`outcomes`, `ask`, `fronts` and `estimate`"),
        "ends" | "alike" | "threads" => Some("`outcomes`"),
        "leads" => Some("`fronts`"),
        "always" | "some" | "throughout" | "ever" | "never" | "values" => Some("`ask`"),
        "format" | "warn" => Some("each word"),
        _ => None,
    }
}

// Whether a setting says who goes on, which on threads the system decides.
fn is_of_schedule(name: &str) -> bool {
    matches!(name, "rounds" | "pick" | "order" | "steps" | "queues")
}

// What there is for a setting that no word has.
fn meant_by(name: &str) -> Option<&'static str> {
    match name {
        "estimate" => Some("`qs estimate` says how many configurations there can be"),
        "front" => Some("`qs fronts K` lists where the script can stand after K blocks"),
        "sometimes" | "eventually" | "can" | "exists" => Some(
            "`qs ask --ever 'COND'` says whether a condition holds somewhere on the way, and `--some 'COND'` whether it holds at some end",
        ),
        "invariant" | "forall" | "globally" => Some(
            "`qs ask --throughout 'COND'` says whether a condition holds everywhere on the way, and `--always 'COND'` whether it holds at each end",
        ),
        _ => None,
    }
}

// The name of the setting that a refusal of `clap` calls unexpected.
fn unexpected_in<'a>(refusal: &'a str) -> Option<&'a str> {
    refusal
        .strip_prefix("error: unexpected argument '--")?
        .split('\'')
        .next()
}

fn put_unexpected(out: &mut Vec<u8>, name: &str) -> Result<(), AllocError> {
    put_all(
        out,
        &[
            b"error: unexpected argument '--",
            name.as_bytes(),
            b"' found\n  = help: ",
        ],
    )
}

// Puts which words have a setting, and where it stands.
fn put_owners<'x>(
    out: &mut Vec<u8>,
    word: &'x str,
    name: &'x str,
    owners: &'x str,
) -> Result<(), AllocError> {
    put_unexpected(out, name)?;
    if word.starts_with("-") {
        return put_all(
            out,
            &[
                b"a setting stands after its word; `--",
                name.as_bytes(),
                b"` is one of ",
                owners.as_bytes(),
                b"\n",
            ],
        );
    }
    put_all(
        out,
        &[
            b"`--",
            name.as_bytes(),
            b"` is a setting of ",
            owners.as_bytes(),
        ],
    )?;
    if word == "run" && is_of_schedule(name) {
        put(out, b": on threads the system decides who goes on")?;
    }
    put_all(
        out,
        &[
            b"\n  = help: `qs ",
            word.as_bytes(),
            b" --help` shows the settings of `",
            word.as_bytes(),
            b"`\n",
        ],
    )
}

// Puts where the value of a setting for conditions begins with a `-`.
fn put_signed<'a>(out: &mut Vec<u8>, words: &'a [&'a str]) -> Result<(), AllocError> {
    for (place, word) in words.iter().enumerate() {
        let Some(value) = words.get(place.saturating_add(1)) else {
            return Ok(());
        };
        if (CLAIMS.contains(word) || *word == "--values")
            && value.starts_with("-")
            && !value.starts_with("--")
        {
            return put_all(
                out,
                &[
                    b"error: the value of '",
                    word.as_bytes(),
                    b" <COND>' begins with a `-`, so it is taken for a setting\n  = help: write it after a `=`: ",
                    word.as_bytes(),
                    b"='",
                    value.as_bytes(),
                    b"'\n",
                ],
            );
        }
    }
    Ok(())
}

/// Puts what is meant by a line that `clap` refuses, where that is known.
pub(crate) fn put_hint<'a>(
    out: &mut Vec<u8>,
    words: &'a [&'a str],
    refusal: &str,
) -> Result<(), AllocError> {
    put_signed(out, words)?;
    let (Some(word), Some(name)) = (words.get(1), unexpected_in(refusal)) else {
        return Ok(());
    };
    if !out.is_empty() {
        return Ok(());
    }
    if let Some(meant) = meant_by(name) {
        put_unexpected(out, name)?;
        return put_all(out, &[meant.as_bytes(), b"\n"]);
    }
    match owners_of(name) {
        Some(owners) => put_owners(out, word, name, owners),
        None => Ok(()),
    }
}
