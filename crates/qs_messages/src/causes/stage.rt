// Which part of a script is read at a place, by the tokens before it and by those that may stand there.

use crate::causes::follow::{Follow, Group};
use crate::causes::source::Source;
use qs_script::tokens::Token;

/// What is read at a place.
#[derive(Clone, Copy, Debug, PartialEq, Eq)]
pub(crate) enum Stage {
    /// An item, or the text's end.
    Item,
    /// A new name, or that of a template.
    NewName,
    ObjectKind,
    /// A number of an object's declaration.
    Size,
    /// After a client's name: its blocks, or its template.
    ClientNext,
    GivenOpen,
    GivenNext,
    FormalsOpen,
    FormalKind,
    FormalNext,
    TemplateBrace,
    /// A block, or the brace that ends a client or a template.
    Block,
    ListFirst,
    ListNext,
    Statement,
    /// A statement, or the second body of the `if` before it.
    AfterIf,
    AfterName,
    /// The name of an operation, or of an object that is given to a template.
    Used,
    ArgumentsOpen,
    ArgumentFirst,
    ArgumentNext,
    ArgumentMore,
    /// What a variable gets.
    Value,
    /// After the sign of a number.
    Signed,
    /// After a variable that stands at the right of `=`.
    AfterVariable,
    /// After a number that stands at the right of `=`.
    AfterNumber,
    Second,
    Left,
    Relation,
    Right,
    BodyBrace,
    ElseBrace,
    Count,
    TurnsBrace,
    CommandEnd,
    QueryEnd,
    ExpressionEnd,
    LeaveEnd,
}

/// What is read at a place, and what is around it.
#[derive(Clone, Copy)]
pub(crate) struct Around {
    pub(crate) stage: Stage,
    /// No statement may stand there, since too many are around it.
    pub(crate) is_deep: bool,
    /// A `repeat` is around it.
    pub(crate) is_inside: bool,
}

/// The token that stands so many tokens before a place, where there is one.
pub(crate) fn token_back<'a>(source: Source<'a>, place: usize, back: usize) -> Option<&'a Token> {
    match place.checked_sub(back) {
        Some(at) => source.token(at),
        None => None,
    }
}

// The place of the last `(` before a place.
fn paren_before(source: Source<'_>, place: usize) -> usize {
    for back in 1..=place {
        if let Some(Token::OpenParen) = source.token(place - back) {
            return place - back;
        }
    }
    0
}

// Whether a `repeat` is around a place.
fn is_inside(source: Source<'_>, place: usize) -> bool {
    let mut closed: usize = 0;
    for back in 1..=place {
        let at = place - back;
        match source.token(at) {
            Some(Token::CloseBrace) => closed = closed.saturating_add(1),
            Some(Token::OpenBrace) if closed > 0 => closed = closed.saturating_sub(1),
            Some(Token::OpenBrace) => {
                if let Some(Token::Repeat) = token_back(source, at, 2) {
                    return true;
                }
            }
            _ => {}
        }
    }
    false
}

// Between two parts of a script.
fn between(follow: &Follow) -> Stage {
    if follow.has(Group::Item) {
        Stage::Item
    } else if follow.has(Group::Separate) {
        Stage::Block
    } else if follow.has(Group::Else) {
        Stage::AfterIf
    } else {
        Stage::Statement
    }
}

// After a `(` or a `,`.
fn in_parentheses(follow: &Follow, argument: Stage) -> Stage {
    if follow.has(Group::Kind) {
        Stage::FormalKind
    } else if follow.has(Group::Number) {
        argument
    } else {
        Stage::Used
    }
}

// After one of several in parentheses.
fn parted(source: Source<'_>, place: usize) -> Stage {
    match token_back(source, paren_before(source, place), 2) {
        Some(Token::Dot) => Stage::ArgumentNext,
        Some(Token::Template) => Stage::FormalNext,
        _ => Stage::GivenNext,
    }
}

// After a `)`.
fn after_parentheses(source: Source<'_>, place: usize, follow: &Follow) -> Stage {
    if follow.has(Group::Item) {
        return Stage::Item;
    }
    if follow.has(Group::OpenBrace) {
        return Stage::TemplateBrace;
    }
    match token_back(source, paren_before(source, place), 4) {
        Some(Token::Assign) => Stage::QueryEnd,
        _ => Stage::CommandEnd,
    }
}

// After a name behind which a `(` may stand.
fn before_parentheses(source: Source<'_>, place: usize) -> Stage {
    match token_back(source, place, 2) {
        Some(Token::Dot) => Stage::ArgumentsOpen,
        Some(Token::Assign) => Stage::GivenOpen,
        _ => Stage::FormalsOpen,
    }
}

fn after_name(source: Source<'_>, place: usize, follow: &Follow) -> Stage {
    if follow.has(Group::Kind) {
        Stage::ObjectKind
    } else if follow.has(Group::Relation) {
        Stage::Relation
    } else if follow.has(Group::Assign) && follow.has(Group::Dot) {
        Stage::AfterName
    } else if follow.has(Group::Assign) {
        Stage::ClientNext
    } else if follow.has(Group::Name) {
        Stage::ListNext
    } else if follow.has(Group::OpenBrace) {
        Stage::BodyBrace
    } else if follow.has(Group::OpenParen) {
        before_parentheses(source, place)
    } else if follow.has(Group::Comma) {
        parted(source, place)
    } else if follow.has(Group::Operator) {
        Stage::AfterVariable
    } else {
        Stage::ExpressionEnd
    }
}

fn after_number(source: Source<'_>, place: usize, follow: &Follow) -> Stage {
    if follow.has(Group::Item) {
        Stage::Item
    } else if follow.has(Group::Number) {
        Stage::Size
    } else if follow.has(Group::Relation) {
        Stage::Relation
    } else if follow.has(Group::OpenBrace) {
        match token_back(source, place, 2) {
            Some(Token::Repeat) => Stage::TurnsBrace,
            _ => Stage::BodyBrace,
        }
    } else if follow.has(Group::Comma) {
        Stage::ArgumentNext
    } else if follow.has(Group::Operator) {
        Stage::AfterNumber
    } else {
        Stage::ExpressionEnd
    }
}

// After a word of the language.
fn after_word(word: &Token, follow: &Follow) -> Stage {
    match word {
        Token::Object | Token::Client | Token::Template => Stage::NewName,
        Token::Separate => Stage::ListFirst,
        Token::If => Stage::Left,
        Token::Else => Stage::ElseBrace,
        Token::Repeat => Stage::Count,
        Token::Leave => Stage::LeaveEnd,
        _ if follow.has(Group::Name) => Stage::NewName,
        _ => Stage::Size,
    }
}

// After a sign.
fn after_sign(sign: &Token, follow: &Follow) -> Stage {
    match sign {
        Token::Dot => Stage::Used,
        Token::OpenParen => in_parentheses(follow, Stage::ArgumentFirst),
        Token::Comma => in_parentheses(follow, Stage::ArgumentMore),
        Token::Assign if follow.has(Group::Number) => Stage::Value,
        Token::Assign => Stage::NewName,
        Token::Plus | Token::Times => Stage::Second,
        Token::Minus if follow.has(Group::Name) => Stage::Second,
        Token::Minus => Stage::Signed,
        _ => Stage::Right,
    }
}

fn stage_at(source: Source<'_>, place: usize, follow: &Follow) -> Stage {
    let Some(before) = token_back(source, place, 1) else {
        return Stage::Item;
    };
    match before {
        Token::Name(_) => after_name(source, place, follow),
        Token::Number(_) => after_number(source, place, follow),
        Token::OpenBrace | Token::CloseBrace | Token::Semicolon => between(follow),
        Token::CloseParen => after_parentheses(source, place, follow),
        Token::Object
        | Token::Client
        | Token::Template
        | Token::Separate
        | Token::If
        | Token::Else
        | Token::Repeat
        | Token::Leave
        | Token::Account
        | Token::Buffer
        | Token::Grid => after_word(before, follow),
        _ => after_sign(before, follow),
    }
}

/// What is read at a place at which these tokens may stand, and what is around it.
pub(crate) fn around_at(source: Source<'_>, place: usize, follow: &Follow) -> Around {
    let may_end = follow.has(Group::CloseBrace);
    let may_begin = follow.has(Group::Statement) || follow.has(Group::Separate);
    Around {
        stage: stage_at(source, place, follow),
        is_deep: may_end && !may_begin,
        is_inside: is_inside(source, place),
    }
}
