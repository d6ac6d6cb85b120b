// From a text to a script.

ghost use Rattle.std.specs.Prelude.{◌≡◌, ◌<◌, ◌≤◌, ◌↔◌, length, Ok, IfOk, IfErr, IsErrOf, IsTrue, ℕ, List};
ghost use Rattle.qs_script.specs.audit.tokens.Tokens.{tokens_of};
ghost use Rattle.qs_script.specs.Reads.{HasFault, IsFaultAt, IsReadOf};
ghost use Rattle.qs_script.specs.grammar.FormPlaces.{BeginsScript, IsFormPlaceOf};
ghost use Rattle.qs_script.specs.audit.tree.Limits.{longest_text};

use crate::fault::{ReadFault, TreeFault};
use crate::items::script;
use crate::lines::line_of;
use crate::tokens::{Token, TokenFault, TokensFault, list_tokens};
use crate::tree::{LONGEST_TEXT, Script};
use std::alloc::{AllocError, Global};

// The fault at that line.
fn placed(fault: TokenFault, line: u32) -> ReadFault
    ensures same { (text : List ℕ) → IsFaultAt text fault line → HasFault result text }
{
    match fault {
        TokenFault::Byte => ReadFault::Byte { line },
        TokenFault::Number => ReadFault::Number { line },
        TokenFault::Name => ReadFault::Name { line },
    }
}

// The tokens of a text, or its first token fault.
fn tokenize(alloc: Global, text: &[u8]) -> Result<Vec<Token>, ReadFault>
    requires short { length text.now ≤ longest_text }
    ensures tokens { IfOk result (λ tokens. tokens_of text.now ≡ Ok tokens.items) }
    ensures fault { IfErr result (λ fault. HasFault fault text.now) }
{
    match list_tokens(alloc, text) {
        Ok(tokens) => Ok(tokens),
        Err(TokensFault::Token(fault)) => Err(placed(fault, line_of(text, text.len()))),
        Err(TokensFault::Memory) => Err(ReadFault::Memory),
    }
}

/// Reads a script: objects, and clients whose blocks reserve the objects that they name together. The answer is the
/// tree of the text's tokens, which is the only one, or the first fault of the whole text: `Size` before anything else
/// and before any memory is taken, then the first byte that begins no token or number or name that is too long, then
/// `Form` where no script has these tokens. `Memory` may come at any allocation. A fault leaves nothing behind.
pub fn read(alloc: Global, text: &[u8]) -> Result<Script, ReadFault>
    ensures exact { IsReadOf text.now result }
    ensures size { IsErrOf result ReadFault.Size ↔ (longest_text < length text.now) }
{
    if text.len() > LONGEST_TEXT {
        return Err(ReadFault::Size);
    }
    let tokens = tokenize(alloc, text)?;
    match script(alloc, tokens.as_slice()) {
        Ok(script) => Ok(script),
        Err(TreeFault::Form(left)) => Err(ReadFault::Form {
            line: line_of(text, tokens.len().saturating_sub(left)),
        }),
        Err(TreeFault::Memory) => Err(ReadFault::Memory),
    }
}

/// The place of the fault of form of some tokens: how many stand before the first with which no script goes on, or,
/// where there is no such token, all of them. Nothing, where they are a script's. It fails only where memory runs out.
#[tactic(auto, using(crate::proofs::grammar::Places::form_place, crate::proofs::grammar::Readings::is_script, crate::proofs::grammar::Readings::is_no_script))]
pub fn form_place(alloc: Global, tokens: &[Token]) -> Result<Option<usize>, AllocError>
    ensures exact { IfOk result (IsFormPlaceOf tokens.now) }
{
    match script(alloc, tokens) {
        Ok(script) => {
            drop(script);
            Ok(None)
        }
        Err(TreeFault::Form(left)) => Ok(Some(tokens.len().saturating_sub(left))),
        Err(TreeFault::Memory) => Err(AllocError),
    }
}

/// Whether some script begins with these tokens. It fails only where memory runs out.
#[tactic(auto, using(crate::proofs::grammar::Places::begins_where, crate::proofs::grammar::Places::script_begins))]
pub fn begins_script(alloc: Global, tokens: &[Token]) -> Result<bool, AllocError>
    ensures exact { IfOk result (λ begins. IsTrue begins ↔ BeginsScript tokens.now) }
{
    match form_place(alloc, tokens)? {
        Some(place) => Ok(place == tokens.len()),
        None => Ok(true),
    }
}
