// Items: objects, and clients with their blocks.

ghost use Rattle.std.specs.Prelude.{◌<◌, [], length, IfOk};
ghost use Rattle.qs_script.specs.grammar.Reading.{run, block_at, blocks_loop, object_at, object_called_at, client_at, client_called_at, item_at, items_loop};
ghost use Rattle.qs_script.specs.Results.{Gives};

use crate::expect::{name, past_close_brace, past_open_brace};
use crate::fault::{Read, TreeFault};
use crate::lists::{Listing, from_first, list};
use crate::statements::body;
use crate::templates::{started, template};
use crate::tokens::{Name, Token};
use crate::tree::{
    Block, Blocks, ClientItem, Item, KindText, MOST_LEVELS, NameList, ObjectItem, Script, add,
};
use std::alloc::Global;

// How many objects a block may well reserve.
const USUAL_NAMES: usize = 8;

// Names up to the brace that opens after them.
struct Reserved;

impl Listing for Reserved {
    type Element = Name;

    ghost use Rattle.qs_script.specs.grammar.Reading.{name_at, open_brace_at};

    ghost stop_at = { open_brace_at };

    ghost element_at = { name_at };

    fn past_end(tokens: &[Token]) -> Option<&[Token]> {
        past_open_brace(tokens)
    }

    fn element(alloc: Global, tokens: &[Token]) -> Read<Name> {
        name(tokens)
    }
}

// A block, after the word separate.
fn block(alloc: Global, tokens: &[Token]) -> Read<Block>
    ensures exact { Gives (λ x. (x.0, x.1.now)) result (block_at tokens.now) }
    ensures shorter { IfOk result (λ x. length x.1.now < length tokens.now) }
{
    let (first, rest) = name(tokens)?;
    let (reserved, rest) = from_first::<Reserved>(alloc, USUAL_NAMES, first, rest)?;
    let reserved = NameList::of(reserved);
    let (body, rest) = body(alloc, MOST_LEVELS, rest)?;
    Ok((Block { reserved, body }, rest))
}

// Blocks up to the brace that closes them.
struct Separates;

impl Listing for Separates {
    type Element = Block;

    ghost use Rattle.qs_script.specs.grammar.Reading.{close_brace_at, separate_at};

    ghost stop_at = { close_brace_at };

    ghost element_at = { separate_at };

    fn past_end(tokens: &[Token]) -> Option<&[Token]> {
        past_close_brace(tokens)
    }

    fn element(alloc: Global, tokens: &[Token]) -> Read<Block> {
        match tokens {
            [Token::Separate, rest @ ..] => block(alloc, rest),
            _ => Err(TreeFault::Form(tokens.len())),
        }
    }
}

// Blocks and the brace that closes them.
pub(crate) fn blocks(alloc: Global, tokens: &[Token]) -> Read<Blocks>
    ensures exact { Gives (λ x. (x.0, x.1.now)) result (run blocks_loop tokens.now) }
    ensures shorter { IfOk result (λ x. length x.1.now < length tokens.now) }
{
    let (blocks, rest) = list::<Separates>(alloc, Vec::new(alloc), tokens)?;
    Ok((Blocks::of(blocks), rest))
}

// An object, after that word.
fn object(tokens: &[Token]) -> Read<Item>
    ensures exact { Gives (λ x. (x.0, x.1.now)) result (object_at tokens.now) }
    ensures shorter { IfOk result (λ x. length x.1.now < length tokens.now) }
{
    let (name, rest) = name(tokens)?;
    object_called(name, rest)
}

// The object of that name, from its kind on.
fn object_called(name: Name, tokens: &[Token]) -> Read<Item>
    ensures exact { Gives (λ x. (x.0, x.1.now)) result (object_called_at name tokens.now) }
    ensures shorter { IfOk result (λ x. length x.1.now < length tokens.now) }
{
    match tokens {
        [Token::Account, Token::Number(balance), rest @ ..] => {
            let kind = KindText::Account(*balance);
            Ok((Item::Object(ObjectItem { name, kind }), rest))
        }
        [Token::Buffer, Token::Number(capacity), rest @ ..] => {
            let kind = KindText::Buffer(*capacity);
            Ok((Item::Object(ObjectItem { name, kind }), rest))
        }
        [
            Token::Grid,
            Token::Number(rows),
            Token::Number(columns),
            rest @ ..,
        ] => {
            let kind = KindText::Grid(*rows, *columns);
            Ok((Item::Object(ObjectItem { name, kind }), rest))
        }
        [Token::Grid, Token::Number(_), rest @ ..] => Err(TreeFault::Form(rest.len())),
        [Token::Account | Token::Buffer | Token::Grid, rest @ ..] => Err(TreeFault::Form(
            rest.len(),
        )),
        _ => Err(TreeFault::Form(tokens.len())),
    }
}

// A client, after that word.
fn client(alloc: Global, tokens: &[Token]) -> Read<Item>
    ensures exact { Gives (λ x. (x.0, x.1.now)) result (client_at tokens.now) }
    ensures shorter { IfOk result (λ x. length x.1.now < length tokens.now) }
{
    let (name, rest) = name(tokens)?;
    client_called(alloc, name, rest)
}

// The client of that name: with blocks of its own, or of a template.
fn client_called(alloc: Global, name: Name, tokens: &[Token]) -> Read<Item>
    ensures exact { Gives (λ x. (x.0, x.1.now)) result (client_called_at name tokens.now) }
    ensures shorter { IfOk result (λ x. length x.1.now < length tokens.now) }
{
    match tokens {
        [Token::OpenBrace, rest @ ..] => {
            let (blocks, rest) = blocks(alloc, rest)?;
            Ok((Item::Client(ClientItem { name, blocks }), rest))
        }
        [Token::Assign, rest @ ..] => started(alloc, name, rest),
        _ => Err(TreeFault::Form(tokens.len())),
    }
}

fn item(alloc: Global, tokens: &[Token]) -> Read<Item>
    ensures exact { Gives (λ x. (x.0, x.1.now)) result (item_at tokens.now) }
    ensures shorter { IfOk result (λ x. length x.1.now < length tokens.now) }
{
    match tokens {
        [Token::Object, rest @ ..] => object(rest),
        [Token::Client, rest @ ..] => client(alloc, rest),
        [Token::Template, rest @ ..] => template(alloc, rest),
        _ => Err(TreeFault::Form(tokens.len())),
    }
}

// The script that all the tokens make.
pub(crate) fn script(alloc: Global, tokens: &[Token]) -> Result<Script, TreeFault>
    ensures exact { Gives (λ x. (x, [])) result (run items_loop tokens.now) }
{
    let mut items = Vec::new(alloc);
    let mut rest = tokens;
    'each: while !rest.is_empty() {
        let (item, after) = item(alloc, rest)?;
        add(&mut items, item)?;
        rest = after;
    }
    Ok(Script::of(items))
}
