// What is said of a line that is refused.

use crate::line_causes::claims::put_claims;
use crate::line_causes::condition::{put_unknown, put_unknown_sum};
use crate::line_causes::line::{CLAIMS, put_line};
use crate::line_causes::lists::put_names;
use std::alloc::{AllocError, Global};

// Puts what the line itself does wrong, or else which name of its lists or of its conditions the script of the text does
// not have.
fn put_of_line<'a>(
    alloc: Global,
    out: &mut Vec<u8>,
    words: &'a [&'a str],
    text: &[u8],
) -> Result<(), AllocError> {
    put_line(alloc, out, words)?;
    if out.is_empty() {
        put_names(alloc, out, words, text)?;
    }
    if out.is_empty() {
        for setting in CLAIMS {
            put_unknown(alloc, out, words, text, setting)?;
        }
        put_unknown_sum(alloc, out, words, text)?;
    }
    Ok(())
}

/// Whether the claims of the script are what is wrong with a line that is refused.
pub(crate) fn is_of_claims<'a>(
    alloc: Global,
    words: &'a [&'a str],
    text: &[u8],
) -> Result<bool, AllocError> {
    let mut out = Vec::new(alloc);
    put_of_line(alloc, &mut out, words, text)?;
    Ok(out.is_empty())
}

/// Puts why a line is refused: what the line itself does wrong, or else which name of its lists or of its conditions the
/// script of the text does not have; or what is wrong with the claims of the script, where these are asked.
pub fn put_refused<'a>(
    alloc: Global,
    out: &mut Vec<u8>,
    words: &'a [&'a str],
    text: &[u8],
) -> Result<(), AllocError> {
    put_of_line(alloc, out, words, text)?;
    if out.is_empty() {
        put_claims(alloc, out, words, text)?;
    }
    Ok(())
}
