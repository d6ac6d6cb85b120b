// What new users write, and what to write instead.

use crate::causes::foreign::{is_around_block, leave_if};
use crate::causes::source::Source;
use crate::causes::stage::{Around, Stage};
use qs_script::tokens::Token;

/// A usual mistake: what is wrong, what to write, and whether it is the word before the place.
#[derive(Clone, Copy)]
pub(crate) struct Usual {
    pub(crate) cause: &'static [u8],
    pub(crate) help: &'static [u8],
    pub(crate) is_before: bool,
}

/// A mistake at a place.
pub(crate) fn mistake(cause: &'static [u8], help: &'static [u8]) -> Option<Usual> {
    Some(Usual {
        cause,
        help,
        is_before: false,
    })
}

/// The usual mistake at a place, where it is one.
pub(crate) fn usual_at(source: Source<'_>, around: Around, place: usize) -> Option<Usual> {
    let stage = around.stage;
    let token = source.token(place)?;
    if let Some(usual) = at_arrow(source, stage, token, place) {
        return Some(usual);
    }
    if matches!(token, Token::Minus) && is_between(stage) {
        return mistake(
            b"a comment begins with `#`, and nothing else begins with a `-` here",
            b"write `# ..`",
        );
    }
    if let Some(usual) = at_name(source, stage, token, place) {
        return Some(usual);
    }
    match stage {
        Stage::Item => at_item(token),
        Stage::Block => at_block(source, token, place),
        Stage::Statement | Stage::AfterIf if around.is_deep => mistake(
            b"a statement stands inside at most eight `if`s and `repeat`s",
            b"one `if` on a variable that was computed before often does for several",
        ),
        Stage::Statement | Stage::AfterIf => at_statement(token),
        Stage::AfterName => at_subject(source, token, place),
        Stage::ArgumentsOpen | Stage::ArgumentFirst | Stage::ArgumentNext | Stage::ArgumentMore =>
            at_arguments(source, stage, token, place),
        Stage::Left | Stage::Relation | Stage::Right | Stage::BodyBrace => at_test(
            source, stage, token, place,
        ),
        Stage::ElseBrace | Stage::Count | Stage::TurnsBrace => at_body(stage, token),
        Stage::ListFirst | Stage::ListNext => at_list(token),
        Stage::LeaveEnd if matches!(token, Token::If) => leave_if(),
        Stage::CommandEnd | Stage::QueryEnd if matches!(token, Token::CloseParen) => mistake(
            b"no `(` is open that this `)` closes",
            b"leave it out",
        ),
        stage => at_value(stage, token).or(at_declaration(stage, token)),
    }
}

// Signs of other languages that are made of two of this one: `->` and `<-`.
fn at_arrow(source: Source<'_>, stage: Stage, token: &Token, place: usize) -> Option<Usual> {
    let next = source.token(place.saturating_add(1));
    match (token, next) {
        (Token::Minus, Some(Token::Greater)) if stage == Stage::ObjectKind => mistake(
            b"an object's kind stands right after its name",
            b"leave the `->` out",
        ),
        (Token::Minus, Some(Token::Greater)) => mistake(
            b"there is no `->`: an operation stands after a `.`, and a variable is set by `=`",
            if stage == Stage::AfterName {
                b"write `.` in its place"
            } else {
                b"write `|LAST| = ..`"
            },
        ),
        (Token::Less, Some(Token::Minus)) if stage == Stage::AfterName => mistake(
            b"an assignment is written `=`",
            b"write `=` in its place",
        ),
        _ => None,
    }
}

// Whether the name before a `.` is a client's, and no object has it.
fn is_of_client(source: Source<'_>, dot: usize) -> bool {
    let word = source.word(dot.saturating_sub(1));
    let mut found = false;
    for place in 1..source.len() {
        if source.word(place) == word {
            match source.token(place - 1) {
                Some(Token::Client) => found = true,
                Some(Token::Object | Token::Account | Token::Buffer | Token::Grid) => return false,
                _ => {}
            }
        }
    }
    found
}

// At a `.` in a number, or behind a client's name.
fn at_point(source: Source<'_>, dot: usize) -> Option<Usual> {
    match source.token(dot.saturating_sub(1)) {
        Some(Token::Number(_)) => {
            mistake(b"numbers are whole", b"write the number without a point")
        }
        _ if is_of_client(source, dot) => after_variable(),
        _ => None,
    }
}

// After a client's name, or after a variable that is written with it: it is the word before the place.
fn after_variable() -> Option<Usual> {
    Some(Usual {
        cause: b"a variable is written without its client's name",
        help: b"a variable of this client is written by its name alone; those of other clients can't be read",
        is_before: true,
    })
}

// Where a name stands or is due: it is no word of the language, begins with a letter and has no `-`; and a number is
// digits alone.
fn at_name(source: Source<'_>, stage: Stage, token: &Token, place: usize) -> Option<Usual> {
    let before = place.saturating_sub(1);
    let touches = place > 0 && source.end_of(before).start == source.span(place).start;
    match token {
        Token::Name(_) if touches && matches!(source.token(before), Some(Token::Number(_))) =>
            mistake(
                b"a number is decimal digits alone",
                b"write 1000 for `1_000`, and 16 for `0x10`; a name begins with a letter",
            ),
        Token::Number(_) if is_due(stage) => mistake(
            b"a name begins with a letter",
            b"write the digits behind the letters, as in `a1`",
        ),
        Token::Minus if ends_name(stage) && touches => mistake(
            b"a `-` is a minus, and stands in no name",
            b"names have small letters, digits and `_`",
        ),
        _ if is_word(token) && (is_used(stage) || is_subject(source, stage, place)) => {
            mistake(b"a word of the language is no name", b"take another name")
        }
        _ => None,
    }
}

// Whether a new name is due at a place.
fn is_due(stage: Stage) -> bool {
    stage == Stage::NewName
}

// Whether a name of an object or a variable is due there, and none of the words that begin something may stand there.
fn is_used(stage: Stage) -> bool {
    matches!(
        stage,
        Stage::ListFirst
            | Stage::Used
            | Stage::Value
            | Stage::Second
            | Stage::Left
            | Stage::Right
            | Stage::ArgumentFirst
            | Stage::ArgumentMore
    ) || is_due(stage)
}

// Whether a statement begins there that gives to or asks what is named.
fn is_subject(source: Source<'_>, stage: Stage, place: usize) -> bool {
    let next = source.token(place.saturating_add(1));
    matches!(stage, Stage::Statement | Stage::AfterIf)
        && matches!(next, Some(Token::Assign | Token::Dot))
}

// Whether a name has just ended.
fn ends_name(stage: Stage) -> bool {
    matches!(
        stage,
        Stage::ClientNext
            | Stage::FormalsOpen
            | Stage::FormalNext
            | Stage::GivenOpen
            | Stage::GivenNext
            | Stage::ListNext
    )
}

// Whether nothing has begun at a place.
fn is_between(stage: Stage) -> bool {
    matches!(
        stage,
        Stage::Item | Stage::Block | Stage::Statement | Stage::AfterIf
    )
}

fn at_item(token: &Token) -> Option<Usual> {
    match token {
        Token::Semicolon => mistake(
            b"no `;` stands after a declaration or a `}`",
            b"leave it out",
        ),
        Token::CloseBrace => mistake(b"no `{` is open that this `}` closes", b"leave it out"),
        Token::Comma => mistake(
            b"no comma stands in a declaration or after it; a number is digits alone",
            b"leave it out",
        ),
        Token::Dot => mistake(b"numbers are whole", b"write the number without a point"),
        Token::Separate => mistake(
            b"a block stands in a client or a template",
            b"write `client NAME { separate |RIGHT| { .. } }`",
        ),
        Token::If | Token::Repeat | Token::Leave | Token::Else => mistake(
            b"a statement stands in a block of a client",
            b"write `client NAME { separate OBJECT { .. } }` around it",
        ),
        _ => None,
    }
}

fn at_block(source: Source<'_>, token: &Token, place: usize) -> Option<Usual> {
    match token {
        Token::Name(_) | Token::If | Token::Repeat if is_around_block(source, place) => mistake(
            b"no loop and no test stands around a block",
            b"write the blocks out, one after another; what is repeated inside a block stands in it",
        ),
        Token::Name(_) | Token::If | Token::Repeat | Token::Leave | Token::Else => mistake(
            b"every statement stands inside a block",
            b"write `separate |OBJECT| { .. }` around it, with the objects that it uses",
        ),
        Token::Semicolon => mistake(b"no `;` stands after a `}`", b"leave it out"),
        Token::Object | Token::Client | Token::Template => mistake(
            b"the client or template before this is not closed",
            b"",
        ),
        Token::OpenBrace => mistake(
            b"a block begins with `separate` and its objects",
            b"write `separate OBJECT { .. }`",
        ),
        _ => None,
    }
}

fn at_statement(token: &Token) -> Option<Usual> {
    match token {
        Token::Separate => mistake(
            b"a block stands in no other block",
            b"reserve all at once, as in `separate |LIST| |RIGHT| { .. }`, or close the block before with a `}`",
        ),
        Token::Semicolon => mistake(
            b"no `;` stands after a `}`, and there is no empty statement",
            b"leave it out",
        ),
        Token::Else => mistake(
            b"an `else` stands right after the `}` of an `if`",
            b"write `if .. { .. } else { .. }`",
        ),
        Token::OpenBrace => mistake(
            b"braces stand only after `if`, `else`, `repeat`, a block's list and a client's name",
            b"leave them out",
        ),
        Token::Object | Token::Client | Token::Template => mistake(
            b"the block before this is not closed",
            b"",
        ),
        _ => None,
    }
}

// After a name that begins a statement.
fn at_subject(source: Source<'_>, token: &Token, place: usize) -> Option<Usual> {
    let next = source.token(place.saturating_add(1));
    match token {
        Token::Equal => mistake(b"an assignment is written `=`", b"write `=` in its place"),
        Token::Plus | Token::Minus | Token::Times => match next {
            Some(Token::Assign) => mistake(
                b"an assignment is written `=` alone",
                b"write `|LEFT| = |LEFT| |SIGN| |LAST|;`",
            ),
            Some(Token::Plus | Token::Minus) => mistake(
                b"there is no `++` and no `--`",
                b"write `|LEFT| = |LEFT| |SIGN| 1;`",
            ),
            _ => mistake(
                b"a name that begins a statement is a variable that is set, or an object",
                b"write `|LEFT| = |LEFT| |SIGN| |RIGHT|;`",
            ),
        },
        Token::OpenParen => mistake(b"a request names its object", b"write `OBJECT.|LEFT|(..)`"),
        _ => None,
    }
}

fn at_arguments(source: Source<'_>, stage: Stage, token: &Token, place: usize) -> Option<Usual> {
    match token {
        _ if stage == Stage::ArgumentsOpen && is_of_client(source, place.saturating_sub(2)) => {
            after_variable()
        }
        Token::Plus | Token::Minus | Token::Times => mistake(
            b"an argument is a number or a variable, and no sum",
            b"give the sum to a variable before, as in `NAME = |LEFT| |SIGN| |RIGHT|;`",
        ),
        Token::Dot if stage == Stage::ArgumentNext => at_point(source, place).or(mistake(
            b"an argument is a number or a variable, and no query",
            b"ask before, as in `NAME = |CALL|;`, and give NAME",
        )),
        Token::CloseParen if stage == Stage::ArgumentMore => {
            mistake(
                b"no comma stands after the last argument",
                b"leave the comma out",
            )
        }
        Token::Name(_) | Token::Number(_) if stage == Stage::ArgumentNext => {
            mistake(
                b"a comma stands between two arguments",
                b"write `|LEFT|, |VALUE|`",
            )
        }
        _ if stage == Stage::ArgumentsOpen => mistake(
            b"the arguments of a request stand in parentheses, which stand there without arguments, too",
            b"write `|LEFT|(..)`, and `|LEFT|()` without arguments",
        ),
        _ => None,
    }
}

fn at_test(source: Source<'_>, stage: Stage, token: &Token, place: usize) -> Option<Usual> {
    match token {
        Token::OpenParen => mistake(b"a condition has no parentheses", b"leave them out"),
        Token::Assign if stage == Stage::Relation => {
            mistake(b"equality is written `==`", b"write `==` in its place")
        }
        Token::Dot => at_point(source, place).or(mistake(
            b"a condition compares numbers and variables, and no queries",
            b"ask before, as in `NAME = |CALL|;`, and compare NAME",
        )),
        Token::Plus | Token::Minus | Token::Times => mistake(
            b"a condition compares numbers and variables, and no sums",
            b"give the sum to a variable before, as in `NAME = |LEFT| |SIGN| |RIGHT|;`",
        ),
        Token::OpenBrace if stage == Stage::Relation => mistake(
            b"a condition compares two numbers or variables",
            b"write `if |LEFT| != 0 { .. }`",
        ),
        _ if stage == Stage::BodyBrace => mistake(
            b"a body stands in braces",
            b"write `if .. { .. }`",
        ),
        _ => None,
    }
}

fn at_body(stage: Stage, token: &Token) -> Option<Usual> {
    match token {
        Token::If if stage == Stage::ElseBrace => mistake(
            b"there is no `else if`",
            b"write `else { if .. { .. } }`",
        ),
        Token::Name(_) if stage == Stage::Count => mistake(
            b"the number of a `repeat` is no variable",
            b"write a number from 0 to 1000; an `if` with a `leave;` in the body ends it earlier",
        ),
        Token::Minus if stage == Stage::Count => {
            mistake(
                b"the number of a `repeat` has no sign",
                b"write the number alone",
            )
        }
        Token::OpenBrace if stage == Stage::Count => mistake(
            b"a `repeat` says how often it turns at most",
            b"write `repeat 1000 { .. }`, and end the loop by `leave;`",
        ),
        _ if stage == Stage::Count => None,
        _ => mistake(b"a body stands in braces", b"write `{ .. }`"),
    }
}

fn at_list(token: &Token) -> Option<Usual> {
    match token {
        Token::Comma => mistake(
            b"the list of a block has no commas",
            b"write `|LEFT| |RIGHT|`",
        ),
        Token::OpenParen | Token::CloseParen => mistake(
            b"the list of a block has no parentheses",
            b"leave them out",
        ),
        Token::OpenBrace => mistake(
            b"the list of a block names at least one object",
            b"write `separate OBJECT { .. }`",
        ),
        _ => None,
    }
}

fn at_value(stage: Stage, token: &Token) -> Option<Usual> {
    match stage {
        Stage::Value | Stage::Second => match token {
            Token::OpenParen => mistake(
                b"an expression has no parentheses",
                b"leave them out; it has one operator at most",
            ),
            Token::Plus => mistake(b"a number has no sign `+`", b"write the number alone"),
            _ => None,
        },
        Stage::Signed => match token {
            Token::Name(_) => mistake(
                b"a minus before a variable is not there",
                b"write `NAME = 0 - |VALUE|;`, and use NAME",
            ),
            Token::Minus => mistake(b"a number has at most one sign", b"leave one of them out"),
            _ => None,
        },
        Stage::AfterVariable | Stage::AfterNumber | Stage::ExpressionEnd | Stage::QueryEnd => {
            after_value(stage, token)
        }
        _ => None,
    }
}

fn after_value(stage: Stage, token: &Token) -> Option<Usual> {
    match token {
        Token::Plus | Token::Minus | Token::Times if stage == Stage::QueryEnd => mistake(
            b"a query stands alone at the right of `=`",
            b"write `NAME = |FRONT|; |VARIABLE| = NAME |SIGN| |RIGHT|;`",
        ),
        Token::Times => mistake(
            b"an expression has at most one operator",
            b"give the product to a variable before, as in `NAME = |LEFT| * |RIGHT|;`, and use NAME",
        ),
        Token::Plus | Token::Minus => mistake(
            b"an expression has at most one operator",
            b"write `NAME = |FRONT|; |VARIABLE| = NAME |SIGN| |RIGHT|;`",
        ),
        Token::Dot if stage == Stage::ExpressionEnd => mistake(
            b"a query stands alone at the right of `=`",
            b"ask before, as in `NAME = |CALL|;`, and use NAME",
        ),
        Token::Dot if stage == Stage::AfterNumber => {
            mistake(b"numbers are whole", b"write the number without a point")
        }
        Token::OpenParen => mistake(b"a query names its object", b"write `OBJECT.|LEFT|(..)`"),
        _ => None,
    }
}

// Whether a token is a word of the language.
fn is_word(token: &Token) -> bool {
    matches!(
        token,
        Token::Object
            | Token::Client
            | Token::Template
            | Token::Separate
            | Token::If
            | Token::Else
            | Token::Repeat
            | Token::Leave
            | Token::Account
            | Token::Buffer
            | Token::Grid
    )
}

fn at_declaration(stage: Stage, token: &Token) -> Option<Usual> {
    match stage {
        Stage::ObjectKind => at_kind(token),
        Stage::Size => at_number(token),
        Stage::ClientNext => match token {
            Token::OpenParen => mistake(
                b"a client has no parameters",
                b"write `client |LEFT| { .. }`, or a template with formals",
            ),
            Token::Name(_) => mistake(
                b"a client has its blocks in braces, or is started with a template",
                b"write `client |LEFT| { .. }` or `client |LEFT| = |VALUE|(..)`",
            ),
            _ => None,
        },
        stage => at_parameters(stage, token),
    }
}

// Among the formals of a template, and the objects that are given for them.
fn at_parameters(stage: Stage, token: &Token) -> Option<Usual> {
    match stage {
        Stage::GivenOpen => mistake(
            b"the objects for the formals stand in parentheses",
            b"write `|LEFT|(..)`, with an object for each formal",
        ),
        Stage::FormalKind => match token {
            Token::CloseParen => mistake(
                b"a template has at least one formal",
                b"write one, as in `account NAME`",
            ),
            Token::Name(_) | Token::Number(_) => mistake(
                b"a formal is an object, and begins with its kind",
                b"write `account NAME`; a number can come from an object, as by `balance()`",
            ),
            _ => mistake(b"a formal has a kind", b"write one, as in `account NAME`"),
        },
        Stage::GivenNext => match token {
            Token::Name(_) => mistake(
                b"a comma stands between two objects",
                b"write `|LEFT|, |VALUE|`",
            ),
            _ => None,
        },
        Stage::FormalNext => match token {
            Token::Number(_) => mistake(
                b"a formal has a kind and a name, and no number",
                b"leave the number out",
            ),
            Token::Account | Token::Buffer | Token::Grid => mistake(
                b"a comma stands between two formals",
                b"write `|LEFT|, |SIGN|`",
            ),
            _ => None,
        },
        _ => None,
    }
}

fn at_kind(token: &Token) -> Option<Usual> {
    match token {
        Token::Assign => mistake(b"no `=` stands in a declaration", b"leave it out"),
        Token::Minus => mistake(
            b"a `-` is a minus, and stands in no name",
            b"names have small letters, digits and `_`",
        ),
        Token::Number(_) => mistake(
            b"an object has a kind before its number",
            b"write `object |LEFT| account |VALUE|`",
        ),
        Token::Name(_) => mistake(
            b"there are accounts, buffers and grids, and no other kinds",
            b"write one of these, as in `object |LEFT| account 100`",
        ),
        _ => None,
    }
}

fn at_number(token: &Token) -> Option<Usual> {
    match token {
        Token::Minus => mistake(
            b"the numbers of a declaration have no sign",
            b"write the number alone",
        ),
        Token::Assign => mistake(b"no `=` stands in a declaration", b"leave it out"),
        Token::OpenParen => mistake(b"a declaration has no parentheses", b"leave them out"),
        Token::Comma => mistake(
            b"no comma stands between the numbers of a grid",
            b"leave it out",
        ),
        _ => None,
    }
}
