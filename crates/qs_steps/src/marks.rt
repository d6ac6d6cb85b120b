//! Requests that a handler runs, marked by what becomes of them.

ghost use Rattle.std.specs.Prelude.{◌≡◌, ◌++◌, None, OnOk};
ghost use Rattle.qs_report.specs.audit.Report.{fate_text};
ghost use Rattle.qs_steps.specs.Marks.{fate_or_none, marked, marked_others, marked_requests, next};

use crate::forms::{between, put_run};
use crate::wanted::Form;
use qs_objects::{Object, Request};
use qs_program::Program;
use qs_text::fates::{Fate, run_and_tell};
use qs_text::{put, put_reply, put_whole_request};
use std::alloc::AllocError;

fn fate_word(fate: Option<Fate>) -> &'static [u8]
    ensures word { result.now ≡ fate_text fate }
{
    match fate {
        Some(Fate::Refused) => b" refused",
        Some(Fate::NoValue) => b" none",
        Some(Fate::Done) | None => b"",
    }
}

// What becomes of a request, which the object runs, if it is there.
fn run_if_there(object: &mut Option<Object>, request: &Request) -> Option<Fate>
    ensures fate { result ≡ fate_or_none object.old request.now }
    ensures after { object.new ≡ next object.old request.now }
{
    match object {
        Some(object) => {
            let (fate, _reply) = run_and_tell(object, request);
            Some(fate)
        }
        None => None,
    }
}

/// Puts a request with its reply and its mark, and has the object run it. An error says that an allocation failed.
pub(crate) fn put_marked(
    out: &mut Vec<u8>,
    program: &Program,
    form: Form,
    object: &mut Option<Object>,
    request: &Request,
    reply: Option<i64>,
) -> Result<(), AllocError>
    ensures ok { OnOk result (out.new.items ≡ out.old.items ++ marked form program.now object.old request.now reply) }
    ensures object { object.new ≡ next object.old request.now }
{
    let fate = run_if_there(object, request);
    match form {
        Form::Text => {
            put_whole_request(out, program, request)?;
            put_reply(out, reply)?;
            put(out, fate_word(fate))
        }
        Form::Json => put_run(out, program, request, reply, fate),
    }
}

fn put_others(
    out: &mut Vec<u8>,
    program: &Program,
    form: Form,
    object: &mut Option<Object>,
    requests: &[Request],
) -> Result<(), AllocError>
    ensures ok { OnOk result (out.new.items ≡ out.old.items ++ marked_others form program.now object.old requests.now) }
{
    match requests {
        [] => Ok(()),
        [first, others @ ..] => {
            put(out, between(form))?;
            put_marked(out, program, form, object, first, None)?;
            put_others(out, program, form, object, others)
        }
    }
}

/// Puts commands, which the object runs one after another, each with its mark. An error says that an allocation failed.
pub(crate) fn put_all_marked(
    out: &mut Vec<u8>,
    program: &Program,
    form: Form,
    object: &mut Option<Object>,
    requests: &[Request],
) -> Result<(), AllocError>
    ensures ok { OnOk result (out.new.items ≡ out.old.items ++ marked_requests form program.now object.old requests.now) }
{
    match requests {
        [] => Ok(()),
        [first, others @ ..] => {
            put_marked(out, program, form, object, first, None)?;
            put_others(out, program, form, object, others)
        }
    }
}
