// The script of a text.

use qs_check::{Program, check};
use qs_script::read;
use std::alloc::Global;

/// The script of a text, unless the text is refused.
pub(crate) fn program_of(alloc: Global, text: &[u8]) -> Option<Program> {
    let Ok(script) = read(alloc, text) else {
        return None;
    };
    match check(alloc, script) {
        Ok(program) => Some(program),
        Err(_) => None,
    }
}
