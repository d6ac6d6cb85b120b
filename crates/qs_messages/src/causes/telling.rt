// The diagnosis of a text that is refused.

ghost use Rattle.std.specs.Prelude.{◌≡◌, ◌≤◌, ◌<◌, ◌↔◌, IsTrue, OnOk, IfOk, List, [], length, Ok, Err, Some};
ghost use Rattle.qs_script.specs.declared.tokens.token.Token.{Token};
ghost use Rattle.qs_script.specs.declared.tokens.lex.TokenFault.{TokenFault};
ghost use Rattle.qs_script.specs.audit.tokens.Tokens.{tokens_of};
ghost use Rattle.qs_script.specs.audit.grammar.Grammar.{IsScript};
ghost use Rattle.qs_script.specs.audit.Reads.{IsScriptText};
ghost use Rattle.qs_script.specs.grammar.FormPlaces.{IsFormPlace};
ghost use Rattle.qs_script.specs.declared.tree.tree.Item.{Item};
ghost use Rattle.qs_messages.specs.ReadTold.{IsFormTold, IsTokenTold, MayEnd};
ghost use Rattle.qs_messages.specs.Spans.{ArePlaced, IsFaultAt, Stand, tokens_in};
ghost use Rattle.qs_messages.specs.CheckTold.{IsCheckTold, IsRefusalTold, IsRefusedAt, IsSaidAt, IsToldAt, span_at};

use crate::causes::bytes::say_token;
use crate::causes::finding::{FormFault, form_fault};
use crate::causes::refusal::{Refusal, Why, refusal_of, say_refusal};
use crate::causes::said::Said;
use crate::causes::shape::say_form;
use crate::causes::source::Source;
use crate::causes::spans::{PlacedToken, SpanFault, place_of_anchor, placed_tokens};
use qs_diagnosis::{Diagnosis, Span, put_diagnosis};
use qs_script::tokens::{TokenFault, TokensFault, list_tokens};
use qs_script::tree::Script;
use qs_script::{ReadFault, read};
use std::alloc::{AllocError, Global};

// Puts what is said of some bytes at the end.
fn put_said(
    alloc: Global,
    out: &mut Vec<u8>,
    text: &[u8],
    span: Span,
    said: &Said,
) -> Result<(), AllocError>
    requires within { span.start ≤ length text.now }
    ensures told { OnOk result (IsSaidAt text.now span out.old.items out.new.items) }
{
    let diagnosis = Diagnosis {
        span,
        cause: said.cause.as_slice(),
        label: said.label.as_slice(),
        help: said.help.as_slice(),
    };
    put_diagnosis(alloc, out, text, &diagnosis)
}

// Tells a fault of form.
fn tell_place(
    alloc: Global,
    out: &mut Vec<u8>,
    text: &[u8],
    tokens: &[PlacedToken],
    fault: FormFault,
) -> Result<(), AllocError>
    requires placed { ArePlaced text.now tokens.now }
    requires there { IsFormPlace (tokens_in tokens.now) fault.place }
    requires ends { IsTrue fault.ends ↔ MayEnd (tokens_in tokens.now) fault.place }
    ensures told { OnOk result (IsFormTold text.now out.old.items out.new.items) }
{
    let said = say_form(alloc, Source::new(text, tokens), fault)?;
    put_said(alloc, out, text, said.span, &said)
}

// Tells why no script has the tokens of a text, where none has.
fn tell_form(
    alloc: Global,
    out: &mut Vec<u8>,
    text: &[u8],
    tokens: &[PlacedToken],
) -> Result<(), AllocError>
    requires placed { ArePlaced text.now tokens.now }
    ensures form { OnOk result (((s : List Item) → IsScript s (tokens_in tokens.now) → ⊥) → IsFormTold text.now out.old.items out.new.items) }
    ensures script { OnOk result ((s : List Item) → IsScript s (tokens_in tokens.now) → out.new.items ≡ out.old.items) }
{
    match list_tokens(alloc, text) {
        Ok(list) => match form_fault(alloc, list)? {
            Some(fault) => tell_place(alloc, out, text, tokens, fault),
            None => Ok(()),
        },
        Err(TokensFault::Memory) => Err(AllocError),
        Err(TokensFault::Token(_)) => unreachable!(),
    }
}

// Tells a token at fault.
fn tell_token(
    alloc: Global,
    out: &mut Vec<u8>,
    text: &[u8],
    fault: TokenFault,
    start: usize,
) -> Result<(), AllocError>
    requires there { IsFaultAt text.now (SpanFault.Token fault start) }
    ensures told { OnOk result (IsTokenTold text.now fault out.old.items out.new.items) }
{
    let before = text[..start].last().copied();
    let said = say_token(alloc, fault, start, before, &text[start..])?;
    put_said(alloc, out, text, said.span, &said)
}

/// Puts the diagnosis of a text that can't be read at the end: of its first token at fault, or else of the first token
/// with which no script goes on; where a `;` may stand there, that may be told right after the token before. Nothing,
/// where some script has the text's tokens.
pub fn tell_read(alloc: Global, out: &mut Vec<u8>, text: &[u8]) -> Result<(), AllocError>
    ensures token { OnOk result ((fault : TokenFault) → tokens_of text.now ≡ Err fault → IsTokenTold text.now fault out.old.items out.new.items) }
    ensures form { OnOk result ((ts : List Token) → tokens_of text.now ≡ Ok ts → ((s : List Item) → IsScript s ts → ⊥) → IsFormTold text.now out.old.items out.new.items) }
    ensures script { OnOk result ((ts : List Token) (s : List Item) → tokens_of text.now ≡ Ok ts → IsScript s ts → out.new.items ≡ out.old.items) }
{
    match placed_tokens(alloc, text) {
        Ok(tokens) => tell_form(alloc, out, text, tokens.as_slice()),
        Err(SpanFault::Token { fault, start }) => tell_token(alloc, out, text, fault, start),
        Err(SpanFault::Memory) => Err(AllocError),
    }
}

// Tells what is wrong at a token.
fn tell_at(
    alloc: Global,
    out: &mut Vec<u8>,
    text: &[u8],
    tokens: &[PlacedToken],
    place: usize,
    why: Why,
) -> Result<(), AllocError>
    requires place { place < length tokens.now }
    requires stand { Stand text.now tokens.now (Ok []) }
    ensures told { OnOk result (IsSaidAt text.now (span_at tokens.now place) out.old.items out.new.items) }
{
    let said = say_refusal(alloc, Source::new(text, tokens), place, why)?;
    let span = span_of(text, tokens, place);
    put_said(alloc, out, text, span, &said)
}

// The bytes of a token.
fn span_of(text: &[u8], tokens: &[PlacedToken], place: usize) -> Span
    requires place { place < length tokens.now }
    requires stand { Stand text.now tokens.now (Ok []) }
    ensures span { result ≡ span_at tokens.now place }
    ensures within { result.start ≤ length text.now }
{
    let token = &tokens[place];
    Span {
        start: token.start,
        length: token.end - token.start,
    }
}

// Tells why a script is refused, at its anchor.
fn tell_refusal(
    alloc: Global,
    out: &mut Vec<u8>,
    text: &[u8],
    tokens: &[PlacedToken],
    refusal: Refusal,
) -> Result<(), AllocError>
    requires placed { ArePlaced text.now tokens.now }
    requires anchor { (items : List Item) × IsScriptText text.now items × IsRefusedAt items (Some refusal.anchor) }
    ensures told { OnOk result (IsToldAt text.now refusal.anchor out.old.items out.new.items) }
{
    match place_of_anchor(tokens, refusal.anchor) {
        Some(place) => tell_at(alloc, out, text, tokens, place, refusal.why),
        None => unreachable!(),
    }
}

// Tells why the script of a text is refused, if it is.
fn tell_script(
    alloc: Global,
    out: &mut Vec<u8>,
    text: &[u8],
    script: &Script,
) -> Result<(), AllocError>
    requires text { IsScriptText text.now script.now }
    ensures told { OnOk result (IsRefusalTold text.now script.now out.old.items out.new.items) }
{
    let Some(refusal) = refusal_of(alloc, script)? else {
        return Ok(());
    };
    match placed_tokens(alloc, text) {
        Ok(tokens) => tell_refusal(alloc, out, text, tokens.as_slice(), refusal),
        Err(SpanFault::Memory) => Err(AllocError),
        Err(SpanFault::Token { fault: _, start: _ }) => unreachable!(),
    }
}

/// Puts the diagnosis of a script that is refused at the end: of the token at which its first fault in text order
/// stands, which is the fault that `check` answers; or, where its text has none, of the block with which it passes the
/// limit of the load or of the weight, at its `separate`, or at its client's name where the client is started with a
/// template. Nothing, where the script is not refused, or the text is no script.
pub fn tell_check(alloc: Global, out: &mut Vec<u8>, text: &[u8]) -> Result<(), AllocError>
    ensures told { OnOk result (IsCheckTold text.now out.old.items out.new.items) }
    ensures no_script { OnOk result (((items : List Item) → IsScriptText text.now items → ⊥) → out.new.items ≡ out.old.items) }
{
    match read(alloc, text) {
        Ok(script) => {
            let told = tell_script(alloc, out, text, &script);
            drop(script);
            told
        }
        Err(ReadFault::Memory) => Err(AllocError),
        Err(_) => Ok(()),
    }
}
