// Where the names of a checked script stand, by the numbers that a program has for them.

ghost use Rattle.std.specs.Prelude.{◌≡◌, length, option_map};
ghost use Rattle.qs_messages.specs.WarningPlaces.{after, before, blocks_at, blocks_name, brace_at, client_at, is_beside_dot, is_kind_at, is_listed, is_name, is_of_kind, is_variable, list_at, listed_at, listed_past, next, numbered, object_at, opened_at, request_at, template_at, variable_at};

use crate::causes::Source;
use qs_script::tokens::Token;

// A word or a sign by which places are found.
#[derive(Clone, Copy)]
enum TokenKind {
    Object,
    Client,
    Template,
    Separate,
    Brace,
    Assign,
    Dot,
}

impl TokenKind {
    fn is(self, token: Option<&Token>) -> bool
        ensures exact { result ≡ is_of_kind self (option_map (λ token. token.now) token.entry) }
    {
        match self {
            TokenKind::Object => matches!(token, Some(Token::Object)),
            TokenKind::Client => matches!(token, Some(Token::Client)),
            TokenKind::Template => matches!(token, Some(Token::Template)),
            TokenKind::Separate => matches!(token, Some(Token::Separate)),
            TokenKind::Brace => matches!(token, Some(Token::OpenBrace)),
            TokenKind::Assign => matches!(token, Some(Token::Assign)),
            TokenKind::Dot => matches!(token, Some(Token::Dot)),
        }
    }
}

fn is_name(token: Option<&Token>) -> bool
    ensures exact { result ≡ is_name (option_map (λ token. token.now) token.entry) }
{
    matches!(token, Some(Token::Name(_)))
}

// The place after a place.
fn next(place: usize) -> usize
    ensures exact { result ≡ next place }
{
    place.saturating_add(1)
}

// The place after a place; past the last token, where there is none.
fn after(place: Option<usize>, count: usize) -> usize
    ensures exact { result ≡ after place count }
{
    match place {
        Some(place) => next(place),
        None => count,
    }
}

// The place before a place; past the last token, where there is none.
fn before(place: Option<usize>, count: usize) -> usize
    ensures exact { result ≡ before place count }
{
    match place {
        Some(place) => place.saturating_sub(1),
        None => count,
    }
}

// The place of the token of a kind that has that number among them, from a place on.
fn numbered_place(source: Source<'_>, kind: TokenKind, from: usize, number: usize) -> Option<usize>
    ensures exact { result ≡ numbered (is_kind_at source.entry.tokens.now kind) from (length source.entry.tokens.now) number }
{
    (from..source.len())
        .filter(|place| kind.is(source.token(*place)))
        .nth(number)
}

// The place after the opening word of that number; past the last token, where there are not so many.
fn after_opening(source: Source<'_>, opening: TokenKind, number: u8) -> usize
    ensures exact { result ≡ opened_at source.entry.text.now source.entry.tokens.now opening number }
{
    after(
        numbered_place(source, opening, 0, usize::from(number)),
        source.len(),
    )
}

/// The place of an object's name, where it is declared.
pub(crate) fn object_place(source: Source<'_>, object: u8) -> usize
    ensures exact { result ≡ object_at source.entry.text.now source.entry.tokens.now object }
{
    after_opening(source, TokenKind::Object, object)
}

/// The place of a client's name.
pub(crate) fn client_place(source: Source<'_>, client: u8) -> usize
    ensures exact { result ≡ client_at source.entry.text.now source.entry.tokens.now client }
{
    after_opening(source, TokenKind::Client, client)
}

// The place of the name of the template that a word names.
fn template_place(source: Source<'_>, word: &[u8]) -> usize
    ensures exact { result ≡ template_at source.entry.text.now source.entry.tokens.now word.now }
{
    let found = (0..source.len()).find(|place| TokenKind::Template.is(source.token(*place))
        && source.word(next(*place)) == word);
    after(found, source.len())
}

// The first brace from a place on.
fn brace_from(source: Source<'_>, from: usize) -> usize
    ensures exact { result ≡ brace_at source.entry.text.now source.entry.tokens.now from }
{
    (from..source.len())
        .find(|place| TokenKind::Brace.is(source.token(*place)))
        .unwrap_or(source.len())
}

// The name before the blocks of a client, whose own name stands at a place: that one, or that of its template.
fn blocks_name(source: Source<'_>, name: usize) -> usize
    ensures exact { result ≡ blocks_name source.entry.text.now source.entry.tokens.now name }
{
    let after = next(name);
    if TokenKind::Assign.is(source.token(after)) {
        template_place(source, source.word(next(after)))
    } else {
        name
    }
}

// The brace with which the blocks of a client begin: its own, or those of its template.
fn blocks_of(source: Source<'_>, client: u8) -> usize
    ensures exact { result ≡ blocks_at source.entry.text.now source.entry.tokens.now client }
{
    brace_from(source, blocks_name(source, client_place(source, client)))
}

// Whether the token at a place stands beside a dot, as the object and the operation of a request do.
fn is_beside_dot(source: Source<'_>, place: usize) -> bool
    ensures exact { result ≡ is_beside_dot source.entry.text.now source.entry.tokens.now place }
{
    (place > 0 && TokenKind::Dot.is(source.token(place - 1)))
        || TokenKind::Dot.is(source.token(next(place)))
}

// Whether the list of a block is open after a token, by whether it was before.
fn listed_past(token: Option<&Token>, listed: bool) -> bool
    ensures exact { result ≡ listed_past (option_map (λ token. token.now) token.entry) listed }
{
    TokenKind::Separate.is(token) || (!TokenKind::Brace.is(token) && listed)
}

// Whether a place stands in the list of a block, of blocks that begin at a place.
fn is_listed(source: Source<'_>, from: usize, place: usize) -> bool
    ensures exact { result ≡ is_listed source.entry.text.now source.entry.tokens.now from place }
{
    let mut listed = false;
    for it in from..place.max(from) {
        listed = listed_past(source.token(it), listed);
    }
    listed
}

// Whether a variable of a name stands at a place, in blocks that begin at a place.
fn is_variable(source: Source<'_>, from: usize, word: &[u8], place: usize) -> bool
    ensures exact { result ≡ is_variable source.entry.text.now source.entry.tokens.now from word.now place }
{
    is_name(source.token(place))
        && source.word(place) == word
        && !is_beside_dot(source, place)
        && !is_listed(source, from, place)
}

/// The first place at which a client's text has a variable of that name.
pub(crate) fn variable_place(source: Source<'_>, client: u8, word: &[u8]) -> usize
    ensures exact { result ≡ variable_at source.entry.text.now source.entry.tokens.now client word.now }
{
    let from = blocks_of(source, client);
    (from..source.len())
        .find(|place| is_variable(source, from, word, *place))
        .unwrap_or(source.len())
}

// The place after the word `separate` of a client's block.
fn list_of(source: Source<'_>, client: u8, block: u8) -> usize
    ensures exact { result ≡ list_at source.entry.text.now source.entry.tokens.now client block }
{
    let from = blocks_of(source, client);
    after(
        numbered_place(source, TokenKind::Separate, from, usize::from(block)),
        source.len(),
    )
}

/// The place of a name in the list of a client's block.
pub(crate) fn listed_place(source: Source<'_>, client: u8, block: u8, word: &[u8]) -> usize
    ensures exact { result ≡ listed_at source.entry.text.now source.entry.tokens.now client block word.now }
{
    (list_of(source, client, block)..source.len())
        .find(|place| source.word(*place) == word)
        .unwrap_or(source.len())
}

/// The place of the object of a client's request, by the number of its block and its own number there.
pub(crate) fn request_place(source: Source<'_>, client: u8, block: u8, request: usize) -> usize
    ensures exact { result ≡ request_at source.entry.text.now source.entry.tokens.now client block request }
{
    let from = list_of(source, client, block);
    before(
        numbered_place(source, TokenKind::Dot, from, request),
        source.len(),
    )
}
