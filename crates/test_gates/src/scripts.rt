//! Scripts as programs.

use qs_program::Program;
use std::alloc::Global;

/// The program of a script, where it is one.
pub fn checked(alloc: Global, text: &str) -> Option<Program> {
    let script = qs_script::read(alloc, text.as_bytes()).ok()?;
    qs_check::check(alloc, script).ok()
}
