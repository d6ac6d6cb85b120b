//! Scripts as programs.

use qs_program::Program;
use std::alloc::Global;

/// Ann moves 30 from one account to the other in two blocks, and bob may come before, between or after them. Of her two
/// queries in a row the second needs no synchronisation.
pub const TRANSFER: &str = "object a account 100 object b account 100
    client ann { separate a { a.withdraw(30); x = a.balance(); z = a.balance(); } separate b { b.deposit(30); } }
    client bob { separate a b { a.deposit(1); y = b.balance(); } }";

/// The second block is reserved when the first is over, so its handler begins later.
pub const ONE_AFTER_THE_OTHER: &str = "object a account 100 object b account 100
    client ann { separate a { x = a.balance(); } separate b { y = b.balance(); } }";

/// Five clients who read an account and add to it: four of a template, and one with the same text but for a name.
pub const ALIKE: &str = "object a account 0
    template reads(account p) { separate p { x = p.balance(); p.deposit(1); } }
    client c = reads(a) client d = reads(a) client e = reads(a) client f = reads(a)
    client g { separate a { seen = a.balance(); a.deposit(1); } }";

/// Ann reads one account.
pub const READS: &str = "object a account 7 client ann { separate a { x = a.balance(); } }";

/// The program of a script. `read` answers the one script that the text is, or a fault: there is none. `check` answers
/// the script's program, or the first fault of those in SPEC, in text order.
pub(crate) fn program(alloc: Global, text: &str) -> Option<Program> {
    let script = qs_script::read(alloc, text.as_bytes()).ok()?;
    qs_check::check(alloc, script).ok()
}
