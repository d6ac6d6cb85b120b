// What clap says of a line that it refuses.

use crate::command::command;
use clap::error::ErrorKind;
use std::alloc::{AllocError, Global};

/// What `clap` says of a line that it refuses by an error, with its suggestion and the usage; None where it takes the
/// line, or answers with help or with the version.
pub fn refusal<'a>(alloc: Global, words: &'a [&'a str]) -> Result<Option<String>, AllocError> {
    match command(alloc)?.try_get_matches_from(words) {
        Ok(matches) => {
            drop(matches);
            Ok(None)
        }
        Err(error) => match error.kind() {
            ErrorKind::DisplayHelp | ErrorKind::DisplayVersion | ErrorKind::OutOfMemory => Ok(None),
            _ => Ok(Some(error.to_string(alloc)?)),
        },
    }
}

/// The value that stands on a line after a setting, as in `--pick c1,h0` and `--pick=c1,h0`.
pub fn value_after<'a>(words: &'a [&'a str], setting: &str) -> Option<&'a str> {
    for (place, word) in words.iter().enumerate() {
        if *word == setting {
            return words.get(place.saturating_add(1)).copied();
        }
        if let Some(rest) = word.strip_prefix(setting) {
            if let Some(value) = rest.strip_prefix("=") {
                return Some(value);
            }
        }
    }
    None
}
