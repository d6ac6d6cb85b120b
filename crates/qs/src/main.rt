//! The program: a script on standard input, a text on standard output.
#![tactic(auto)]

ghost use Rattle.std.specs.Prelude.{◌≡◌, ◌⊎◌, map, string_bytes, IfErr, IfOk};
ghost use Rattle.qs_report.specs.declared.faults.Fault.TheVariants as fault;

use qs_serve::{Counted, Fault, Terminals, Watch, refuse, serve};
use std::alloc::{AllocError, Global};
use std::io::IsTerminal;
use std::process::ExitCode;
use std::rt::Env;
use std::{env, io};

// The process's arguments, the program's name first. An argument that is not UTF-8 is a fault of the command line.
fn arguments<R: Env + Alloc<A = Global>>(rt: &R) -> Result<Vec<String>, Fault>
    ensures fault { IfErr result (λ f. (f ≡ fault.Memory) ⊎ (f ≡ fault.CommandLine)) }
{
    match env::args(rt) {
        Ok(words) => words.collect(rt.alloc()).map_err(|_| Fault::Memory),
        Err(error) if error.kind() == io::ErrorKind::InvalidData => Err(Fault::CommandLine),
        Err(_) => Err(Fault::Memory),
    }
}

// The texts of the words.
fn texts(alloc: Global, words: &Vec<String>) -> Result<Vec<&str>, AllocError>
    ensures texts { IfOk result (λ texts. map (λ text. text.now) texts.items ≡ map string_bytes words.now.items) }
{
    let mut texts = Vec::new(alloc);
    for word in words {
        texts.push(word.as_str())?;
    }
    Ok(texts)
}

fn main(rt: HostRuntime) -> ExitCode {
    let from_terminal = rt.stdin().is_terminal();
    let mut input = Counted::new(rt.reader());
    let mut out = io::writer(&rt);
    let mut err = rt.stderr();
    let words = match arguments(&rt) {
        Ok(words) => words,
        Err(fault) => return ExitCode::from(refuse(fault, &mut out, &mut Watch::new(), &mut err)),
    };
    let terminals = Terminals {
        input: from_terminal,
        err: err.is_terminal(),
    };
    let Ok(texts) = texts(rt.alloc(), &words) else {
        return ExitCode::from(refuse(Fault::Memory, &mut out, &mut Watch::new(), &mut err));
    };
    ExitCode::from(serve(
        &rt,
        texts.as_slice(),
        &mut input,
        &mut out,
        &mut Watch::new(),
        terminals,
        &mut err,
    ))
}
