// Templates, and clients of templates.

ghost use Rattle.std.specs.Prelude.{◌<◌, length, IfOk};
ghost use Rattle.qs_script.specs.grammar.Reading.{kind_word_at, formal_at, template_at, template_called_at, started_at};
ghost use Rattle.qs_script.specs.Results.{Gives};

use crate::expect::{name as expect_name, past_close_paren, past_open_brace};
use crate::fault::{Read, TreeFault};
use crate::items::blocks;
use crate::lists::{Listing, from_first};
use crate::tokens::{Name, Token};
use crate::tree::{Formal, Formals, Item, KindWord, NameList, StartedItem, TemplateItem};
use std::alloc::Global;

// The kind of a formal.
fn kind_word(tokens: &[Token]) -> Read<KindWord>
    ensures exact { Gives (λ x. (x.0, x.1.now)) result (kind_word_at tokens.now) }
    ensures shorter { IfOk result (λ x. length x.1.now < length tokens.now) }
{
    match tokens {
        [Token::Account, rest @ ..] => Ok((KindWord::Account, rest)),
        [Token::Buffer, rest @ ..] => Ok((KindWord::Buffer, rest)),
        [Token::Grid, rest @ ..] => Ok((KindWord::Grid, rest)),
        _ => Err(TreeFault::Form(tokens.len())),
    }
}

// A formal: its kind and its name.
fn formal(tokens: &[Token]) -> Read<Formal>
    ensures exact { Gives (λ x. (x.0, x.1.now)) result (formal_at tokens.now) }
    ensures shorter { IfOk result (λ x. length x.1.now < length tokens.now) }
{
    let (kind, rest) = kind_word(tokens)?;
    let (name, rest) = expect_name(rest)?;
    Ok((Formal { kind, name }, rest))
}

// Further formals up to the bracket that closes them.
struct FurtherFormals;

impl Listing for FurtherFormals {
    type Element = Formal;

    ghost use Rattle.qs_script.specs.grammar.Reading.{close_paren_at, further_formal_at};

    ghost stop_at = { close_paren_at };

    ghost element_at = { further_formal_at };

    fn past_end(tokens: &[Token]) -> Option<&[Token]> {
        past_close_paren(tokens)
    }

    fn element(alloc: Global, tokens: &[Token]) -> Read<Formal> {
        match tokens {
            [Token::Comma, rest @ ..] => formal(rest),
            _ => Err(TreeFault::Form(tokens.len())),
        }
    }
}

// Further names up to the bracket that closes them.
struct FurtherNames;

impl Listing for FurtherNames {
    type Element = Name;

    ghost use Rattle.qs_script.specs.grammar.Reading.{close_paren_at, further_name_at};

    ghost stop_at = { close_paren_at };

    ghost element_at = { further_name_at };

    fn past_end(tokens: &[Token]) -> Option<&[Token]> {
        past_close_paren(tokens)
    }

    fn element(alloc: Global, tokens: &[Token]) -> Read<Name> {
        match tokens {
            [Token::Comma, rest @ ..] => expect_name(rest),
            _ => Err(TreeFault::Form(tokens.len())),
        }
    }
}

// A template, after that word.
pub(crate) fn template(alloc: Global, tokens: &[Token]) -> Read<Item>
    ensures exact { Gives (λ x. (x.0, x.1.now)) result (template_at tokens.now) }
    ensures shorter { IfOk result (λ x. length x.1.now < length tokens.now) }
{
    match tokens {
        [Token::Name(name), Token::OpenParen, rest @ ..] => {
            template_called(alloc, name.copied(), rest)
        }
        [Token::Name(_), rest @ ..] => Err(TreeFault::Form(rest.len())),
        _ => Err(TreeFault::Form(tokens.len())),
    }
}

// The template of that name, from its first formal on.
fn template_called(alloc: Global, name: Name, tokens: &[Token]) -> Read<Item>
    ensures exact { Gives (λ x. (x.0, x.1.now)) result (template_called_at name tokens.now) }
    ensures shorter { IfOk result (λ x. length x.1.now < length tokens.now) }
{
    let (first, rest) = formal(tokens)?;
    let (formals, rest) = from_first::<FurtherFormals>(alloc, 0, first, rest)?;
    let Some(rest) = past_open_brace(rest) else {
        return Err(TreeFault::Form(rest.len()));
    };
    let (blocks, rest) = blocks(alloc, rest)?;
    let item = TemplateItem {
        name,
        formals: Formals::of(formals),
        blocks,
    };
    Ok((Item::Template(item), rest))
}

// The client of that name, from its template on.
pub(crate) fn started(alloc: Global, name: Name, tokens: &[Token]) -> Read<Item>
    ensures exact { Gives (λ x. (x.0, x.1.now)) result (started_at name tokens.now) }
    ensures shorter { IfOk result (λ x. length x.1.now < length tokens.now) }
{
    let (template, rest) = expect_name(tokens)?;
    let [Token::OpenParen, rest @ ..] = rest else {
        return Err(TreeFault::Form(rest.len()));
    };
    let (first, rest) = expect_name(rest)?;
    let (objects, rest) = from_first::<FurtherNames>(alloc, 0, first, rest)?;
    let item = StartedItem {
        name,
        template,
        objects: NameList::of(objects),
    };
    Ok((Item::Started(item), rest))
}
