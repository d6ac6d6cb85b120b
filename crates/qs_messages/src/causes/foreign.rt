// Words of other languages, and what to write here.

use crate::causes::source::Source;
use crate::causes::stage::{Around, Stage};
use crate::causes::usual::{Usual, mistake};
use qs_script::tokens::Token;

// What there is for a word that begins, ends or goes round a body; of some, by whether a `repeat` is around it.
fn for_flow(word: &[u8], is_inside: bool) -> Option<Usual> {
    match word {
        b"while" | b"for" | b"foreach" | b"loop" => mistake(
            b"the only loop is a `repeat` with a number",
            b"write `repeat 1000 { .. }`, and `if NAME == 3 { leave; }` in it to end it earlier",
        ),
        b"break" => mistake(
            b"a `repeat` is ended by `leave;`",
            if is_inside {
                b"write `leave;`"
            } else {
                b"leave it out: no `repeat` is around it"
            },
        ),
        b"return" | b"exit" | b"stop" => mistake(
            b"a block ends with its last statement, and not earlier",
            if is_inside {
                b"`leave;` ends the innermost `repeat` around it"
            } else {
                b"leave it out, and put what is not always to run into an `if`"
            },
        ),
        b"continue" => mistake(
            b"a turn of a `repeat` ends with the last statement of its body",
            b"put the rest of the body into an `if`",
        ),
        b"elseif" | b"elif" | b"elsif" => mistake(
            b"there is no `else if`",
            b"write `else { if .. { .. } }`",
        ),
        b"end" | b"done" | b"fi" | b"od" | b"endif" => mistake(
            b"a body ends with a `}`",
            b"write `}`",
        ),
        _ => None,
    }
}

// What there is for a word that begins another statement.
fn for_statement(word: &[u8]) -> Option<Usual> {
    match word {
        b"let" | b"var" | b"const" | b"int" | b"integer" | b"bool" | b"float" | b"auto" => mistake(
            b"a variable needs no declaration: it is 0 until it is set",
            b"leave the word out, and set it, as in `|VALUE| = 1;`",
        ),
        b"print" | b"println" | b"printf" | b"echo" => mistake(
            b"a script prints nothing: the report shows each reply and each object's state",
            b"ask for what is to be shown, as in `NAME = OBJECT.balance();`",
        ),
        b"sleep" | b"delay" | b"pause" => mistake(
            b"no statement waits for a time: the schedule says who goes on",
            b"leave it out; `--pick` and `--order` choose a schedule",
        ),
        b"assert" | b"check" => mistake(
            b"a script has no assertions: a claim stands on a comment line of its own",
            b"write `#? always CLIENT.NAME == 1` there, and `qs ask` says whether it holds at each end",
        ),
        b"switch" | b"case" | b"match" => mistake(
            b"the only choice is an `if`",
            b"write `if NAME == 0 { .. } else { .. }`",
        ),
        b"call" | b"send" => mistake(
            b"a request begins with its object",
            b"write `OBJECT.OPERATION(..);`",
        ),
        _ => None,
    }
}

// What there is for a word that joins or turns comparisons.
fn for_test(word: &[u8]) -> Option<Usual> {
    match word {
        b"and" => mistake(
            b"a condition is one comparison, without `and` and `or`",
            b"write one `if` inside another",
        ),
        b"or" => mistake(
            b"a condition is one comparison, without `and` and `or`",
            b"set a variable in one `if` after another, and ask for it in a last one",
        ),
        b"not" => mistake(
            b"a condition is one comparison, without `not`",
            b"write the opposite, as `x != y` for `x == y` and `x >= y` for `x < y`",
        ),
        _ => None,
    }
}

// What there is for a word that waits, or that opens a body.
fn for_waiting(word: &[u8]) -> Option<Usual> {
    match word {
        b"when" | b"require" | b"requires" | b"wait" | b"await" | b"until" | b"guard" | b"ensure" =>
            {
                mistake(
                    b"there are no wait conditions: a block goes on as soon as its turn has come",
                    b"ask in the block, as in `NAME = OBJECT.size(); if NAME > 0 { .. }`",
                )
            }
        b"do" | b"begin" | b"then" | b"is" => mistake(
            b"a body stands in braces",
            b"write `{` for `do` and `begin`, and `}` for `end`",
        ),
        _ => None,
    }
}

// What there is for a word that ends a `repeat` where something holds.
fn for_ending(word: &[u8], is_count: bool) -> Option<Usual> {
    match word {
        b"when" | b"unless" | b"while" | b"until" if is_count => mistake(
            b"a `repeat` has a number, and no condition",
            b"write `repeat 1000 { .. }`, and `if NAME == 3 { leave; }` in it to end it earlier",
        ),
        b"when" | b"unless" | b"while" | b"until" => leave_if(),
        _ => None,
    }
}

/// A `leave` with a condition behind it.
pub(crate) fn leave_if() -> Option<Usual> {
    mistake(
        b"a `leave` has no condition: an `if` is around it",
        b"write `if NAME == 3 { leave; }`",
    )
}

// What there is for a name that stands at a place or before it.
fn for_word(around: Around, word: &[u8], is_before: bool) -> Option<Usual> {
    match around.stage {
        Stage::AfterName if is_before => for_waiting(word)
            .or(for_flow(word, around.is_inside))
            .or(for_statement(word))
            .or(for_test(word)),
        Stage::Relation => for_test(word),
        Stage::BodyBrace => for_waiting(word).or(for_test(word)),
        Stage::AfterName | Stage::ListNext | Stage::TurnsBrace | Stage::Block => {
            for_waiting(word)
        }
        Stage::Count | Stage::LeaveEnd => for_ending(word, around.stage == Stage::Count),
        _ => None,
    }
}

/// The mistake of the first word of another language among the names at a place and right before it, backwards. A word
/// before an operator is a variable.
pub(crate) fn foreign_at(source: Source<'_>, around: Around, place: usize) -> Option<Usual> {
    if let Some(Token::Plus | Token::Minus | Token::Times | Token::Equal) = source.token(place) {
        return None;
    }
    for back in 0..=place {
        let at = place - back;
        match source.token(at) {
            Some(Token::Name(_)) => {
                if let Some(usual) = for_word(around, source.word(at), back > 0) {
                    return Some(Usual {
                        cause: usual.cause,
                        help: usual.help,
                        is_before: back == 1,
                    });
                }
            }
            _ if back > 0 => return None,
            _ => {}
        }
    }
    None
}

/// The place of the last `{` before a place that no `}` closes.
pub(crate) fn open_before(source: Source<'_>, place: usize) -> Option<usize> {
    let mut closed: usize = 0;
    for back in 1..=place {
        let at = place - back;
        match source.token(at) {
            Some(Token::CloseBrace) => closed = closed.saturating_add(1),
            Some(Token::OpenBrace) if closed == 0 => return Some(at),
            Some(Token::OpenBrace) => closed = closed.saturating_sub(1),
            _ => {}
        }
    }
    None
}

/// Whether a block begins in the first body after a place: a loop or a test stands around it.
pub(crate) fn is_around_block(source: Source<'_>, place: usize) -> bool {
    for at in place..source.len() {
        match source.token(at) {
            Some(Token::OpenBrace) => {
                return matches!(source.token(at.saturating_add(1)), Some(Token::Separate));
            }
            Some(Token::CloseBrace | Token::Separate | Token::Semicolon) => return false,
            _ => {}
        }
    }
    false
}
