// Statements. Each is added to its body as soon as it is read.

ghost use Rattle.std.specs.Prelude.{◌≡◌, ◌<◌, ◌≤◌, [], ◌∷◌, length, Ok, IfOk};
ghost use Rattle.qs_script.specs.tree.Views.{single};
ghost use Rattle.qs_script.specs.grammar.Reading.{run, body_loop, stmt_in, stmt_at, choice_at, other_at, repeat_at, braced_at, named_at, command_at, with_args, args_at, after, more_loop, assigned_at, query_at, assign_at, computed_at, semicolon_at, ended_at};
ghost use Rattle.qs_script.specs.tree.Tree.{call_of};
ghost use Rattle.qs_script.specs.Results.{Gives, Puts};
ghost use Rattle.qs_script.specs.audit.tree.Tree.{end, command};

use crate::expect::{past_close_brace, past_close_paren};
use crate::fault::{Read, Rest, TreeFault};
use crate::tokens::{Name, Token};
use crate::tree::{ArgumentList, Atom, Body, Expr, MOST_LEVELS, Operator, Stmt};
use crate::values::{args, atom, operator, request, several, test};
use std::alloc::Global;

// How many statements a body may well have: that of a block more than one inside it.
fn usual_length(levels: u8) -> usize {
    if levels == MOST_LEVELS { 12 } else { 1 }
}

// Statements, at most `levels` one inside another, and the brace that closes them.
#[cycle(body)]
pub(crate) fn body(alloc: Global, levels: u8, tokens: &[Token]) -> Read<Body>
    ensures exact { Gives (λ x. (x.0, x.1.now)) result (run (body_loop levels) tokens.now) }
    ensures shorter { IfOk result (λ x. length x.1.now < length tokens.now) }
{
    let mut stmts = Body::with_capacity(alloc, usual_length(levels))?;
    let mut rest = tokens;
    'each: loop {
        if let Some(after) = past_close_brace(rest) {
            return Ok((stmts, after));
        }
        rest = statement(alloc, levels, &mut stmts, rest)?;
    }
}

// Adds a statement, where at most `levels` may stand one inside another, and gives the tokens after it.
#[cycle(body)]
#[inline(always)]
fn statement<'t>(alloc: Global, levels: u8, stmts: &mut Body, tokens: &'t [Token]) -> Rest<'t>
    ensures exact { Puts stmts.old stmts.new result (stmt_in levels tokens.now) }
    ensures shorter { IfOk result (λ rest. length rest.now < length tokens.now) }
{
    if levels == 0 {
        return Err(TreeFault::Form(tokens.len()));
    }
    statement_over(alloc, levels - 1, stmts, tokens)
}

// Adds a statement, where at most `levels` may stand one inside another in its bodies.
#[cycle(body)]
#[inline(always)]
fn statement_over<'t>(alloc: Global, levels: u8, stmts: &mut Body, tokens: &'t [Token]) -> Rest<'t>
    ensures exact { Puts stmts.old stmts.new result (stmt_at (run (body_loop levels)) tokens.now) }
    ensures shorter { IfOk result (λ rest. length rest.now < length tokens.now) }
{
    match tokens {
        [Token::Leave, rest @ ..] => {
            let rest = past_semicolon(rest)?;
            put(stmts, Stmt::Leave, rest)
        }
        [Token::If, rest @ ..] => choice(alloc, levels, stmts, rest),
        [Token::Repeat, rest @ ..] => repeat(alloc, levels, stmts, rest),
        [Token::Name(name), rest @ ..] => named(alloc, name, stmts, rest),
        _ => Err(TreeFault::Form(tokens.len())),
    }
}

// Adds an if, after that word.
#[cycle(body)]
fn choice<'t>(alloc: Global, levels: u8, stmts: &mut Body, tokens: &'t [Token]) -> Rest<'t>
    ensures exact { Puts stmts.old stmts.new result (choice_at (run (body_loop levels)) tokens.now) }
    ensures shorter { IfOk result (λ rest. length rest.now < length tokens.now) }
{
    let (test, rest) = test(tokens)?;
    let (first, rest) = braced(alloc, levels, rest)?;
    let (other, rest) = other(alloc, levels, rest)?;
    match other {
        Some(other) => put(stmts, Stmt::IfElse(test, first, other), rest),
        None => put(stmts, Stmt::If(test, first), rest),
    }
}

// The second body of an if, where there is one.
#[cycle(body)]
fn other(alloc: Global, levels: u8, tokens: &[Token]) -> Read<Option<Body>>
    ensures exact { Gives (λ x. (x.0, x.1.now)) result (other_at (run (body_loop levels)) tokens.now) }
    ensures within { IfOk result (λ x. length x.1.now ≤ length tokens.now) }
{
    match tokens {
        [Token::Else, rest @ ..] => {
            let (other, rest) = braced(alloc, levels, rest)?;
            Ok((Some(other), rest))
        }
        _ => Ok((None, tokens)),
    }
}

// Adds a repeat, after that word.
#[cycle(body)]
fn repeat<'t>(alloc: Global, levels: u8, stmts: &mut Body, tokens: &'t [Token]) -> Rest<'t>
    ensures exact { Puts stmts.old stmts.new result (repeat_at (run (body_loop levels)) tokens.now) }
    ensures shorter { IfOk result (λ rest. length rest.now < length tokens.now) }
{
    match tokens {
        [Token::Number(count), rest @ ..] => {
            let (body, rest) = braced(alloc, levels, rest)?;
            put(stmts, Stmt::Repeat(*count, body), rest)
        }
        _ => Err(TreeFault::Form(tokens.len())),
    }
}

// A body in braces.
#[cycle(body)]
fn braced(alloc: Global, levels: u8, tokens: &[Token]) -> Read<Body>
    ensures exact { Gives (λ x. (x.0, x.1.now)) result (braced_at (run (body_loop levels)) tokens.now) }
    ensures shorter { IfOk result (λ x. length x.1.now < length tokens.now) }
{
    match tokens {
        [Token::OpenBrace, rest @ ..] => body(alloc, levels, rest),
        _ => Err(TreeFault::Form(tokens.len())),
    }
}

// Adds a statement that begins with a name, after that name.
#[inline(always)]
fn named<'t>(alloc: Global, name: &Name, stmts: &mut Body, tokens: &'t [Token]) -> Rest<'t>
    ensures exact { Puts stmts.old stmts.new result (named_at name.now tokens.now) }
    ensures shorter { IfOk result (λ rest. length rest.now < length tokens.now) }
{
    match tokens {
        [Token::Dot, rest @ ..] => command(alloc, name, stmts, rest),
        [Token::Assign, rest @ ..] => assigned(alloc, name, stmts, rest),
        _ => Err(TreeFault::Form(tokens.len())),
    }
}

// Adds a command on an object, after its dot.
#[inline(never)]
fn command<'t>(alloc: Global, object: &Name, stmts: &mut Body, tokens: &'t [Token]) -> Rest<'t>
    ensures exact { Puts stmts.old stmts.new result (command_at object.now tokens.now) }
    ensures shorter { IfOk result (λ rest. length rest.now < length tokens.now) }
{
    match tokens {
        [Token::Name(op), Token::OpenParen, rest @ ..] => called(alloc, object, op, stmts, rest),
        [Token::Name(_), rest @ ..] => Err(TreeFault::Form(rest.len())),
        _ => Err(TreeFault::Form(tokens.len())),
    }
}

// Adds a command, after the bracket that opens its arguments. A first argument is not read by `atom`, so that a number
// and a name are each written where they are seen.
#[inline(always)]
fn called<'t>(
    alloc: Global,
    object: &Name,
    op: &Name,
    stmts: &mut Body,
    tokens: &'t [Token],
) -> Rest<'t>
    ensures exact { Puts stmts.old stmts.new result (with_args object.now op.now (args_at tokens.now)) }
    ensures shorter { IfOk result (λ rest. length rest.now < length tokens.now) }
{
    match tokens {
        [Token::Number(number), rest @ ..] => {
            called_with(alloc, object, op, Atom::Number(number.value()), stmts, rest)
        }
        [Token::Name(name), rest @ ..] => {
            called_with(
                alloc,
                object,
                op,
                Atom::Variable(name.copied()),
                stmts,
                rest,
            )
        }
        _ => {
            let (args, rest) = args(alloc, tokens)?;
            put_command(object, op, args, stmts, rest)
        }
    }
}

// Adds a command, after its first argument.
#[inline(always)]
fn called_with<'t>(
    alloc: Global,
    object: &Name,
    op: &Name,
    first: Atom,
    stmts: &mut Body,
    tokens: &'t [Token],
) -> Rest<'t>
    ensures exact { Puts stmts.old stmts.new result (with_args object.now op.now (after more_loop (first ∷ []) (run more_loop tokens.now))) }
    ensures shorter { IfOk result (λ rest. length rest.now < length tokens.now) }
{
    if let Some(rest) = past_close_paren(tokens) {
        return put_command(object, op, ArgumentList::one(alloc, first), stmts, rest);
    }
    let (args, rest) = several(alloc, first, tokens)?;
    put_command(object, op, args, stmts, rest)
}

// Adds the command, after its arguments.
#[inline(always)]
fn put_command<'t>(
    object: &Name,
    op: &Name,
    args: ArgumentList,
    stmts: &mut Body,
    tokens: &'t [Token],
) -> Rest<'t>
    ensures exact { Puts stmts.old stmts.new result (ended_at (command (call_of object.now op.now args) end) tokens.now) }
    ensures shorter { IfOk result (λ rest. length rest.now < length tokens.now) }
{
    let rest = past_semicolon(tokens)?;
    stmts.push_command(object, op, args)?;
    Ok(rest)
}

// Adds what gives a variable its value, after the =: a request's reply, or an expression's value.
#[inline(always)]
fn assigned<'t>(alloc: Global, variable: &Name, stmts: &mut Body, tokens: &'t [Token]) -> Rest<'t>
    ensures exact { Puts stmts.old stmts.new result (assigned_at variable.now tokens.now) }
    ensures shorter { IfOk result (λ rest. length rest.now < length tokens.now) }
{
    match tokens {
        [Token::Name(object), Token::Dot, rest @ ..] => {
            query(alloc, variable, object, stmts, rest)
        }
        _ => assignment(variable, stmts, tokens),
    }
}

// Adds a query whose reply the variable gets, after the object's dot.
#[inline(never)]
fn query<'t>(
    alloc: Global,
    variable: &Name,
    object: &Name,
    stmts: &mut Body,
    tokens: &'t [Token],
) -> Rest<'t>
    ensures exact { Puts stmts.old stmts.new result (query_at variable.now object.now tokens.now) }
    ensures shorter { IfOk result (λ rest. length rest.now < length tokens.now) }
{
    let (op, args, rest) = request(alloc, tokens)?;
    let rest = past_semicolon(rest)?;
    stmts.push_query(variable, object, op, args)?;
    Ok(rest)
}

// Adds an assignment of an expression's value, after the =.
#[inline(never)]
fn assignment<'t>(variable: &Name, stmts: &mut Body, tokens: &'t [Token]) -> Rest<'t>
    ensures exact { Puts stmts.old stmts.new result (assign_at variable.now tokens.now) }
    ensures shorter { IfOk result (λ rest. length rest.now < length tokens.now) }
{
    let (first, rest) = atom(tokens)?;
    match operator(rest) {
        Some((operator, after)) => computation(variable, first, operator, stmts, after),
        None => {
            let rest = past_semicolon(rest)?;
            stmts.push_assign(variable, Expr::Plain(first))?;
            Ok(rest)
        }
    }
}

// Adds an assignment of what two values make, from the second on.
#[inline(always)]
fn computation<'t>(
    variable: &Name,
    first: Atom,
    operator: Operator,
    stmts: &mut Body,
    tokens: &'t [Token],
) -> Rest<'t>
    ensures exact { Puts stmts.old stmts.new result (computed_at variable.now first operator tokens.now) }
    ensures shorter { IfOk result (λ rest. length rest.now < length tokens.now) }
{
    let (second, rest) = atom(tokens)?;
    let rest = past_semicolon(rest)?;
    stmts.push_assign(variable, Expr::Binary(first, operator, second))?;
    Ok(rest)
}

// What comes after a semicolon.
#[inline(always)]
fn past_semicolon(tokens: &[Token]) -> Rest
    ensures exact { Gives (λ rest. rest.now) result (semicolon_at tokens.now) }
    ensures shorter { IfOk result (λ rest. length rest.now < length tokens.now) }
{
    match tokens {
        [Token::Semicolon, rest @ ..] => Ok(rest),
        _ => Err(TreeFault::Form(tokens.len())),
    }
}

// Adds the statement, and gives the tokens after it back.
#[inline(always)]
fn put<'t>(stmts: &mut Body, stmt: Stmt, rest: &'t [Token]) -> Rest<'t>
    ensures exact { Puts stmts.old stmts.new result (Ok (single stmt, rest.now)) }
    ensures same { IfOk result (λ left. left.now ≡ rest.now) }
{
    stmts.push(stmt)?;
    Ok(rest)
}
