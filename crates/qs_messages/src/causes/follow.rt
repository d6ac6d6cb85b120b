// Which tokens may stand at a place of a script, as its reader answers.

ghost use Rattle.std.specs.Prelude.{◌↔◌, IfOk, IsTrue};
ghost use Rattle.qs_messages.specs.ReadTold.{MayStand};

use qs_script::begins_script;
use qs_script::tokens::{Name, Number, Token, TokensFault, list_tokens};
use std::alloc::{AllocError, Global};

/// Tokens that may stand at the same places.
#[derive(Clone, Copy, Debug, PartialEq, Eq)]
pub(crate) enum Group {
    /// `object`, `client` and `template`; where they may stand, the text may end.
    Item,
    /// `account`, `buffer` and `grid`.
    Kind,
    Separate,
    Else,
    Number,
    Name,
    /// `if`, `repeat` and `leave`; where they may stand, a name may.
    Statement,
    /// `==`, `!=`, `<`, `<=`, `>` and `>=`.
    Relation,
    /// `+`, `-` and `*`.
    Operator,
    Dot,
    Assign,
    Comma,
    CloseParen,
    OpenParen,
    OpenBrace,
    Semicolon,
    CloseBrace,
}

const GROUPS: [Group; 17] = [
    Group::Item,
    Group::Kind,
    Group::Separate,
    Group::Else,
    Group::Number,
    Group::Name,
    Group::Statement,
    Group::Relation,
    Group::Operator,
    Group::Dot,
    Group::Assign,
    Group::Comma,
    Group::CloseParen,
    Group::OpenParen,
    Group::OpenBrace,
    Group::Semicolon,
    Group::CloseBrace,
];

impl Group {
    // One of its tokens.
    fn token(self) -> Token {
        match self {
            Group::Item => Token::Object,
            Group::Kind => Token::Account,
            Group::Separate => Token::Separate,
            Group::Else => Token::Else,
            Group::Number => Token::Number(Number::new(0)),
            Group::Name => Token::Name(Name::new(b"a")),
            Group::Statement => Token::If,
            Group::Relation => Token::Equal,
            Group::Operator => Token::Plus,
            Group::Dot => Token::Dot,
            Group::Assign => Token::Assign,
            Group::Comma => Token::Comma,
            Group::CloseParen => Token::CloseParen,
            Group::OpenParen => Token::OpenParen,
            Group::OpenBrace => Token::OpenBrace,
            Group::Semicolon => Token::Semicolon,
            Group::CloseBrace => Token::CloseBrace,
        }
    }
}

/// The groups of which a token may stand at a place.
#[derive(Drop)]
pub(crate) struct Follow {
    groups: Vec<Group>,
}

impl Follow {
    /// Whether a token of a group may stand there.
    pub(crate) fn has(&self, group: Group) -> bool {
        self.groups.as_slice().contains(&group)
    }

    /// The groups, in the order in which they are told.
    pub(crate) fn groups(&self) -> &[Group] {
        self.groups.as_slice()
    }
}

/// Whether a token may stand at a place of some tokens, of which those before the place stay.
pub(crate) fn may_stand(
    alloc: Global,
    tokens: &mut Vec<Token>,
    place: usize,
    token: Token,
) -> Result<bool, AllocError>
    ensures exact { IfOk result (λ may. IsTrue may ↔ MayStand tokens.old.items place token) }
{
    tokens.truncate(place);
    tokens.push(token)?;
    begins_script(alloc, tokens.as_slice())
}

/// Which tokens may stand at a place of the tokens of a text: the reader is asked of each group.
pub(crate) fn follow_at(alloc: Global, text: &[u8], place: usize) -> Result<Follow, AllocError> {
    let mut groups = Vec::new(alloc);
    let mut tokens = match list_tokens(alloc, text) {
        Ok(tokens) => tokens,
        Err(TokensFault::Memory) => return Err(AllocError),
        Err(TokensFault::Token(_)) => return Ok(Follow { groups }),
    };
    for group in GROUPS {
        if may_stand(alloc, &mut tokens, place, group.token())? {
            groups.push(group)?;
        }
    }
    Ok(Follow { groups })
}
