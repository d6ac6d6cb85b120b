// A client's variables in a run: its last block's text runs once more, with the replies of its trace.

ghost use Rattle.std.specs.Prelude.{◌≡◌, ◌<◌, MatchOption, drop, length};
ghost use Rattle.qs_program.specs.audit.Program.{text_of};
ghost use Rattle.qs_program.specs.audit.Statements.{end};
ghost use Rattle.qs_program.specs.Views.{single};
ghost use Rattle.qs_meaning.specs.audit.Interaction.{turns_in};
ghost use Rattle.qs_json.specs.audit.Replay.{Replay, replay, replayed as replayed_at, variables_in as variables};
ghost use Rattle.qs_json.specs.Reached.{goes_on, next_reply as reply_in};

use qs_objects::{Event, Ticket};
use qs_played::Played;
use qs_program::{Body, Locals, MOST_VARIABLES, Program, Stmt, set_variable};

// How far statements came in a trace: past their end, to a `leave` that looks for its repeat, or to a request for which
// no event is left.
#[derive(Clone, Copy)]
enum Reached {
    End,
    Leave,
    Request,
}

// The reply to the next request of a trace, 0 for a command; None where none is left.
fn next_reply(trace: &[Event], done: &mut usize) -> Option<i64>
    ensures reply { result ≡ reply_in (drop done.old trace.now) }
    ensures rest { drop done.new trace.now ≡ drop 1 (drop done.old trace.now) }
{
    let event = trace.get(*done)?;
    *done += 1;
    Some(event.reply.unwrap_or(0))
}

// Runs statements over what is left of a trace.
#[cycle(replay)]
#[tactic(auto, using(crate::proofs::Replays::replay_drop))]
fn replay_body(body: &Body, trace: &[Event], done: &mut usize, locals: &mut Locals) -> Reached
    ensures reached { (next leaves : Replay) → replay body.now next leaves locals.old (drop done.old trace.now)
        ≡ goes_on result next leaves locals.new (drop done.new trace.now) }
{
    for stmt in body.as_slice() {
        match replay_stmt(stmt, trace, done, locals) {
            Reached::End => {}
            Reached::Leave => return Reached::Leave,
            Reached::Request => return Reached::Request,
        }
    }
    Reached::End
}

// The turns of a repeat, which a `leave` ends.
#[cycle(replay)]
fn replay_turns(
    count: u64,
    body: &Body,
    trace: &[Event],
    done: &mut usize,
    locals: &mut Locals,
) -> Reached
    ensures reached { (next leaves : Replay) → turns_in count (λ turn. replay body.now turn next) next locals.old (drop done.old trace.now)
        ≡ goes_on result next leaves locals.new (drop done.new trace.now) }
{
    for turn in 0..count {
        match replay_body(body, trace, done, locals) {
            Reached::End => {}
            Reached::Leave => return Reached::End,
            Reached::Request => return Reached::Request,
        }
    }
    Reached::End
}

#[cycle(replay)]
fn replay_stmt(stmt: &Stmt, trace: &[Event], done: &mut usize, locals: &mut Locals) -> Reached
    ensures reached { (next leaves : Replay) → replay (single stmt.now) next leaves locals.old (drop done.old trace.now)
        ≡ goes_on result next leaves locals.new (drop done.new trace.now) }
{
    match stmt {
        Stmt::Command(_) => match next_reply(trace, done) {
            None => Reached::Request,
            Some(_) => Reached::End,
        },
        Stmt::Query(variable, _) => match next_reply(trace, done) {
            None => Reached::Request,
            Some(reply) => {
                set_variable(locals, *variable, reply);
                Reached::End
            }
        },
        Stmt::Assign(variable, expr) => {
            let value = expr.value(locals);
            set_variable(locals, *variable, value);
            Reached::End
        }
        Stmt::If {
            test,
            first,
            other,
            ..
        } => {
            if test.is_met(locals) {
                replay_body(first, trace, done, locals)
            } else {
                replay_body(other, trace, done, locals)
            }
        }
        Stmt::Repeat(count, body) => replay_turns(*count, body, trace, done, locals),
        Stmt::Leave => Reached::Leave,
    }
}

// The statements of a ticket's block; None where it names no block of the program.
fn body_of(program: &Program, ticket: Ticket) -> Option<&Body>
    ensures body { MatchOption result ((text_of program.now ticket).body ≡ end) (λ body. body.now ≡ (text_of program.now ticket).body) }
{
    let is_client = usize::from(ticket.client) < program.clients();
    if is_client && usize::from(ticket.index) < program.blocks_of(ticket.client) {
        Some(program.block(ticket.client, ticket.index).body())
    } else {
        None
    }
}

// The block at a place of the order, from the variables at its entry.
fn replayed(program: &Program, played: &Played, place: usize) -> Locals
    requires place { place < length played.now.order }
    ensures variables { result ≡ replayed_at program.now played.now place }
{
    let mut locals = *played.entry(place);
    let Some(body) = body_of(program, played.order()[place]) else {
        return locals;
    };
    let mut done = 0;
    replay_body(body, played.trace(place), &mut done, &mut locals);
    locals
}

// A client's variables in a run.
pub(crate) fn variables_in(program: &Program, played: &Played, client: u8) -> Locals
    ensures variables { result ≡ variables program.now played.now client }
{
    for place in (0..played.order().len()).rev() {
        if played.order()[place].client == client {
            return replayed(program, played, place);
        }
    }
    [0; MOST_VARIABLES]
}
