//! A level is led on by threads, each to the configurations of its share.

ghost use Rattle.std.specs.Prelude.{◌≡◌, ◌<◌, ◌≤◌, ◌∷◌, ◌++◌, [], ℕ, IfOk, OnOk, IsErrOf, length, slice_index_or, vec_len};
ghost use Rattle.qs_levels.specs.meaning.Onward.{HasMoreOnward};
ghost use Rattle.qs_levels.specs.meaning.Levels.{IsNextOf, IsSomeLevel};
ghost use Rattle.qs_levels.specs.Merging.{AreParts, IsPartLed};
ghost use Rattle.qs_levels.specs.Shares.{AreGoing};

use crate::leading::led_on;
use crate::level::{Level, Spares};
use crate::merging::next_of;
use crate::part::LevelPart;
use crate::share::LevelShare;
use crate::step::Step;
use crate::table::Spare;
use crate::threads::side_by_side;
use qs_outcomes::OutcomesFault;
use std::alloc::{AllocError, Global};
use std::mem;
use std::thread::Threads;

// A share by its number, and memory for what is found.
#[derive(Drop)]
struct Job {
    number: usize,
    spare: Spare,
}

// Leads a level on to the configurations of a share, of so many.
fn led_part(
    alloc: Global,
    step: &Step<'_>,
    count: usize,
    job: Job,
) -> Result<LevelPart, OutcomesFault>
    requires level { IsSomeLevel step.now.search.program.now step.now.search.front.now step.now.level.now.standings }
    requires going { AreGoing step.now.search.program.now count step.now.level.now.standings step.now.level.now.going }
    requires some { 0 < count }
    requires few { count ≤ 256 }
    ensures led { IsPartLed step.now.search.program.now step.now.search.front.now step.now.level.now.standings
        step.now.room job.number count result }
{
    let share = LevelShare {
        number: job.number,
        count,
    };
    led_on(alloc, step, share, job.spare)
}

// A job for each share, and to each the memory of a part that is done with, where there is one.
fn jobs_of(alloc: Global, count: usize, mut spare: Vec<Spare>) -> Result<Vec<Job>, AllocError>
    ensures len { IfOk result (λ jobs. length jobs.items ≡ count) }
    ensures numbers { IfOk result (λ jobs. (i : ℕ) (job : _) → i < count → job ≡ slice_index_or jobs.items i job → job.number ≡ i) }
{
    let mut jobs = Vec::with_capacity(alloc, count)?;
    for number in 0..count {
        let own = match spare.pop() {
            Some(own) => own,
            None => Spare::new(alloc),
        };
        add_job(&mut jobs, number, own)?;
    }
    Ok(jobs)
}

fn add_job(jobs: &mut Vec<Job>, number: usize, spare: Spare) -> Result<(), AllocError>
    ensures added { OnOk result (jobs.new.items ≡ jobs.old.items ++ record { number = number; spare = spare } ∷ []) }
{
    jobs.push(Job { number, spare })?;
    Ok(())
}

// Leads a level on to the configurations of so many shares, of each by a thread.
fn led_parts<R: Threads + Sync>(
    rt: &R,
    alloc: Global,
    step: &Step<'_>,
    count: usize,
    spare: Vec<Spare>,
) -> Result<Vec<Result<LevelPart, OutcomesFault>>, AllocError>
    requires level { IsSomeLevel step.now.search.program.now step.now.search.front.now step.now.level.now.standings }
    requires going { AreGoing step.now.search.program.now count step.now.level.now.standings step.now.level.now.going }
    requires some { 0 < count }
    requires few { count ≤ 256 }
    ensures len { IfOk result (λ all. vec_len all ≡ count) }
    ensures each { IfOk result (λ all. (i : ℕ) (d : _) → i < count
        → IsPartLed step.now.search.program.now step.now.search.front.now step.now.level.now.standings step.now.room i
        count (slice_index_or all.items i d)) }
{
    let jobs = jobs_of(alloc, count, spare)?;
    let lead = move |job: Job| -> Result<LevelPart, OutcomesFault>
        requires { IsSomeLevel step.now.search.program.now step.now.search.front.now step.now.level.now.standings
            × AreGoing step.now.search.program.now count step.now.level.now.standings step.now.level.now.going
            × (0 < count) × (count ≤ 256) }
        ensures { IsPartLed step.entry.now.search.program.now step.entry.now.search.front.now
            step.entry.now.level.now.standings step.entry.now.room job.number count result }
    { led_part(alloc, step, count, job) };
    side_by_side(rt, jobs, &lead)
}

// Takes the result that a thread came to out of a list. What is behind it stays.
fn taken<T: Drop>(
    results: &mut Vec<Result<T, OutcomesFault>>,
    number: usize,
) -> Result<T, OutcomesFault>
    requires within { number < vec_len results.old }
    ensures taken { result ≡ slice_index_or results.old.items number result }
    ensures behind { (k : ℕ) (d : _) → number < k → slice_index_or results.new.items k d ≡ slice_index_or results.old.items k d }
    ensures len { vec_len results.new ≡ vec_len results.old }
{
    mem::replace(&mut results[number], Err(OutcomesFault::Memory))
}

// All parts, or a fault.
fn gathered(
    alloc: Global,
    step: &Step<'_>,
    count: usize,
    mut results: Vec<Result<LevelPart, OutcomesFault>>,
) -> Result<Vec<LevelPart>, OutcomesFault>
    requires len { vec_len results ≡ count }
    requires each { (i : ℕ) (d : _) → i < count
        → IsPartLed step.now.search.program.now step.now.search.front.now step.now.level.now.standings step.now.room i
        count (slice_index_or results.items i d) }
    ensures parts { IfOk result
        (λ parts. AreParts step.now.search.program.now step.now.search.front.now step.now.level.now.standings
        parts.items) }
    ensures len { IfOk result (λ parts. length parts.items ≡ count) }
    ensures limit { IsErrOf result OutcomesFault.Limit
        → HasMoreOnward step.now.search.program.now step.now.search.front.now step.now.level.now.standings
        step.now.room }
    ensures order { ¬ IsErrOf result OutcomesFault.Order }
{
    let mut parts = Vec::with_capacity(alloc, count)?;
    for number in 0..count {
        let part = taken(&mut results, number)?;
        add_part(&mut parts, part)?;
    }
    Ok(parts)
}

/// Adds a part behind others.
pub(crate) fn add_part(parts: &mut Vec<LevelPart>, part: LevelPart) -> Result<(), AllocError>
    ensures added { OnOk result (parts.new.items ≡ parts.old.items ++ part ∷ []) }
{
    parts.push(part)?;
    Ok(())
}

/// The level after a level, by so many threads. There is room for so many configurations. The memory of a level that is
/// done with is used for it.
pub(crate) fn next_level<R: Threads + Sync>(
    rt: &R,
    alloc: Global,
    step: &Step<'_>,
    threads: usize,
    spares: Spares,
) -> Result<Level, OutcomesFault>
    requires level { IsSomeLevel step.now.search.program.now step.now.search.front.now step.now.level.now.standings }
    requires going { AreGoing step.now.search.program.now threads step.now.level.now.standings
        step.now.level.now.going }
    requires threads { 0 < threads }
    requires few { threads ≤ 256 }
    ensures next { IfOk result
        (λ next. IsNextOf step.now.search.program.now step.now.search.front.now step.now.level.now.standings
        next.standings) }
    ensures going { IfOk result (λ next. AreGoing step.now.search.program.now threads next.standings next.going) }
    ensures small { IfOk result (λ next. length next.standings ≤ step.now.room) }
    ensures limit { IsErrOf result OutcomesFault.Limit
        → HasMoreOnward step.now.search.program.now step.now.search.front.now step.now.level.now.standings
        step.now.room }
    ensures order { ¬ IsErrOf result OutcomesFault.Order }
{
    let Spares {
        parts: spare,
        spots,
    } = spares;
    let led = led_parts(rt, alloc, step, threads, spare)?;
    let parts = gathered(alloc, step, threads, led)?;
    next_of(alloc, step, parts, spots)
}
