//! Blocks alone: each request is done at once.

ghost use Rattle.std.specs.Prelude.{◌≡◌, length, false};
ghost use Rattle.qs_meaning.specs.audit.Solo.{exec, states_after, turns_run};
ghost use Rattle.qs_objects.specs.audit.Journals.{answer};
ghost use Rattle.qs_serial.specs.Alone.{AreCallsWithin, EndsWith, IsCallWithin, states_in};
ghost use Rattle.qs_program.specs.audit.Values.{request_of};
ghost use Rattle.qs_program.specs.Views.{single};

use qs_objects::Object;
use qs_program::{Body, Call, Locals, Stmt, set_variable};
use std::alloc::Global;

// Serves a request at once.
fn serve(alloc: Global, call: &Call, locals: &Locals, objects: &mut [Object]) -> Option<i64>
    requires within { IsCallWithin (length objects.old) call.now }
    ensures states { states_in objects.new ≡ states_after (states_in objects.old) (request_of locals.now call.now) }
    ensures reply { result ≡ answer (states_in objects.old call.now.object) (request_of locals.now call.now) }
{
    let request = call.request(alloc, locals);
    let object = &mut objects[usize::from(call.object)];
    object.apply(&request)
}

/// Runs statements alone, each request at once, to their end or to a `leave`: whether a `leave` ended them. It takes no
/// memory. The calls of the statements are on these objects, with at most three numbers each, as those of a sound
/// program are.
#[cycle(alone)]
pub fn run_body(alloc: Global, body: &Body, locals: &mut Locals, objects: &mut [Object]) -> bool
    requires within { AreCallsWithin (length objects.old) body.now }
    ensures ends { EndsWith (exec body.now locals.old (states_in objects.old)) result locals.new objects.new }
{
    for stmt in body.as_slice() {
        if run_stmt(alloc, stmt, locals, objects) {
            return true;
        }
    }
    false
}

// The turns of a repeat, which a `leave` ends.
#[cycle(alone)]
fn run_turns(alloc: Global, count: u64, body: &Body, locals: &mut Locals, objects: &mut [Object])
    requires within { AreCallsWithin (length objects.old) body.now }
    ensures ends { EndsWith (turns_run count (exec body.now) locals.old (states_in objects.old)) false locals.new objects.new }
{
    for turn in 0..count {
        if run_body(alloc, body, locals, objects) {
            return;
        }
    }
}

#[cycle(alone)]
fn run_stmt(alloc: Global, stmt: &Stmt, locals: &mut Locals, objects: &mut [Object]) -> bool
    requires within { AreCallsWithin (length objects.old) (single stmt.now) }
    ensures ends { EndsWith (exec (single stmt.now) locals.old (states_in objects.old)) result locals.new objects.new }
{
    match stmt {
        Stmt::Command(call) => {
            let _none = serve(alloc, call, locals, objects);
            false
        }
        Stmt::Query(variable, call) => {
            let reply = serve(alloc, call, locals, objects);
            set_variable(locals, *variable, reply.unwrap_or(0));
            false
        }
        Stmt::Assign(variable, expr) => {
            let value = expr.value(locals);
            set_variable(locals, *variable, value);
            false
        }
        Stmt::If {
            test,
            first,
            other,
            ..
        } => {
            if test.is_met(locals) {
                run_body(alloc, first, locals, objects)
            } else {
                run_body(alloc, other, locals, objects)
            }
        }
        Stmt::Repeat(count, body) => {
            run_turns(alloc, *count, body, locals, objects);
            false
        }
        Stmt::Leave => true,
    }
}
