//! Jobs that are done side by side, each by a thread of its own.

ghost use Rattle.std.specs.Prelude.{◌≡◌, IfOk, vec_len};
ghost use Rattle.std.specs.Fork.{AcceptsJobs, GivesJobs};
ghost use Rattle.std.specs.Fork.Halves.{GivesFor};
ghost use denote.Param.Send.{IsSync, IsSend};

use std::alloc::{AllocError, Global};
use std::thread;
use std::thread::Threads;

// Does the first job by a new thread, and all others by this one in the same way.
#[cycle(jobs)]
fn in_turn<R: Threads + Sync, J: Send + Drop, X: Send + Drop, F: Fn(J) -> X + Sync>(
    rt: &R,
    f: &F,
    mut jobs: Vec<J>,
) -> Result<Vec<X>, AllocError>
    requires accepts { AcceptsJobs F.Fn f.now jobs.items }
    ensures given { IfOk result (λ all. GivesFor F.Fn f.now jobs.items all.items) }
{
    if jobs.len() < 2 {
        return thread::map_vec(rt, jobs, f);
    }
    let others = jobs.split_off(1)?;
    let front = move || -> Result<Vec<X>, AllocError>
        requires { IsSync R.row × IsSync F.row × IsSend J.row × IsSend X.row × AcceptsJobs F.Fn f.now jobs.items }
        ensures { IfOk result (λ all. GivesFor F.Fn f.entry.now jobs.items all.items) }
    { in_turn(rt, f, jobs) };
    let back = move || -> Result<Vec<X>, AllocError>
        requires { IsSync R.row × IsSync F.row × IsSend J.row × IsSend X.row × AcceptsJobs F.Fn f.now others.items }
        ensures { IfOk result (λ all. GivesFor F.Fn f.entry.now others.items all.items) }
    { in_turn(rt, f, others) };
    let (done, rest) = thread::join(rt, front, back);
    let mut all = done?;
    let mut rest = rest?;
    all.append(&mut rest)?;
    Ok(all)
}

/// Does each job by a thread of its own, the last by this one, and gives what they came to. This one begins all others:
/// where a thread that has just begun begins another one, Linux often leaves both on one processor, and a second one
/// idle.
pub(crate) fn side_by_side<R: Threads + Sync, J: Send + Drop, X: Send + Drop, F: Fn(J) -> X + Sync>(
    rt: &R,
    jobs: Vec<J>,
    f: &F,
) -> Result<Vec<X>, AllocError>
    requires accepts { AcceptsJobs F.Fn f.now jobs.items }
    ensures len { IfOk result (λ all. vec_len all ≡ vec_len jobs) }
    ensures each { IfOk result (λ all. GivesJobs F.Fn f.now jobs.items all.items) }
{
    in_turn(rt, f, jobs)
}
