// Requests and their replies, and whether a block has ended.

ghost use Rattle.std.specs.Prelude.{◌≡◌, ◌++◌, flat_map, OnOk, codes};
ghost use Rattle.std.specs.Fmt.{signed_decimal};
ghost use Rattle.qs_text.specs.Texts.{Puts};
ghost use Rattle.qs_text.specs.audit.Words.{args_text, request_text, reply_text, ended_text};

use crate::bytes::{put_number, put_short, put_word};
use qs_diagnosis::put;
use qs_objects::Request;
use qs_program::{Program, object_name};
use std::alloc::AllocError;

// Further arguments, each after a comma.
fn put_others(out: &mut Vec<u8>, args: &[i64]) -> Result<(), AllocError>
    ensures ok { OnOk result (out.new.items
        ≡ out.old.items ++ flat_map (λ arg. codes "," ++ signed_decimal arg) args.now) }
{
    for arg in args {
        put(out, b",")?;
        put_number(out, *arg)?;
    }
    Ok(())
}

/// Puts arguments at the end, joined by commas. An error says that an allocation failed.
#[inline(always)]
pub fn put_args(out: &mut Vec<u8>, args: &[i64]) -> Result<(), AllocError>
    ensures ok { OnOk result (out.new.items ≡ out.old.items ++ args_text args.now) }
{
    match args {
        [] => Ok(()),
        [only] => put_number(out, *only),
        [first, others @ ..] => {
            put_number(out, *first)?;
            put_others(out, others)
        }
    }
}

/// Puts a request at the end, without its closing parenthesis. An error says that an allocation failed.
#[inline(always)]
pub fn put_request(
    out: &mut Vec<u8>,
    program: &Program,
    request: &Request,
) -> Result<(), AllocError>
    ensures ok { OnOk result (out.new.items ++ codes ")" ≡ out.old.items ++ request_text program.now request.now) }
{
    put_short(out, object_name(program, usize::from(request.object)))?;
    put(out, request.op.opening())?;
    put_args(out, request.args.as_slice())
}

/// Puts a request at the end, as reports have it. An error says that an allocation failed.
pub fn put_whole_request(
    out: &mut Vec<u8>,
    program: &Program,
    request: &Request,
) -> Result<(), AllocError>
    ensures ok { OnOk result (out.new.items ≡ out.old.items ++ request_text program.now request.now) }
{
    put_request(out, program, request)?;
    put(out, b")")
}

/// Puts a query's reply at the end; a command has none. An error says that an allocation failed.
pub fn put_reply(out: &mut Vec<u8>, reply: Option<i64>) -> Result<(), AllocError>
    ensures ok { OnOk result (Puts (reply_text reply) out.old.items out.new.items) }
{
    match reply {
        None => Ok(()),
        Some(value) => {
            put_word(out, b" = ")?;
            put_number(out, value)
        }
    }
}

/// The word for whether a block has ended.
pub fn ended_word(ended: bool) -> &'static [u8]
    ensures word { result.now ≡ ended_text ended }
{
    if ended { b"done" } else { b"open" }
}
