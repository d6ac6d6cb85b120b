//! Groups of workers that are started together, each in a scope around the start of the rest.

ghost use Rattle.std.specs.Prelude.{ℕ, Option, ◌≡◌, ◌++◌, ◌+◌, ◌^◌, ◌<◌, ◌≤◌, [], ◌∷◌, IfErr, IfOk, IfSome, IsErr, None, vec_len, vec_capacity};
ghost use Rattle.std.specs.List.{AllZip};
ghost use Rattle.std.specs.Thread.{IsSend, IsSync};
ghost use Rattle.qs_run.specs.Groups.{IsDecided, IsWith, WasAsked, inside_of};
ghost use Rattle.qs_run.specs.Workers.{HasFollowed};

use crate::start::latch::{Decided, Latch};
use crate::starter::Starter;
use crate::worker::Becomes;
use std::alloc::{AllocError, Global};
use std::snapshot::Snapshot;
use std::sync::Wait;
use std::thread;
use std::thread::{Promise, SpawnError, Threads};

/// Workers of one kind before a run, and room for all of them after it.
#[derive(Drop)]
pub(crate) struct NewGroup<V, W> {
    pub(crate) ready: Vec<V>,
    pub(crate) room: Vec<W>,
    ghost empty: { room.items ≡ [] },
    ghost enough: { vec_len ready ≤ vec_capacity room },
}

impl<V: Drop, W: Drop> NewGroup<V, W> {
    /// Takes the room for these workers. An error says that an allocation failed.
    pub(crate) fn new(alloc: Global, ready: Vec<V>) -> Result<NewGroup<V, W>, AllocError>
        ensures same { IfOk result (λ group. group.ready ≡ ready) }
    {
        let room = Vec::with_capacity(alloc, ready.len())?;
        Ok(NewGroup { ready, room })
    }
}

/// What came of a start: the starter once it was asked, what was given back, and what was decided at the latch.
#[derive(Drop)]
pub(crate) struct Ended<S, X, T> {
    pub(crate) starter: S,
    pub(crate) back: X,
    pub(crate) decision: T,
}

impl<S, X: Drop, T> Ended<S, X, T> {
    /// What came of a start, with this given back in place of what was.
    pub(crate) fn giving<Y>(self, back: Y) -> Ended<S, Y, T>
        ensures same { result ≡ record { starter = self.starter; back = back; decision = self.decision } }
    {
        let Ended {
            starter,
            decision,
            ..
        } = self;
        Ended {
            starter,
            back,
            decision,
        }
    }
}

/// Workers of one kind after a run, or as they were; and what came of the start inside of theirs.
#[derive(Drop)]
pub(crate) struct Group<S, W, X, T> {
    pub(crate) workers: Vec<W>,
    pub(crate) inside: Ended<S, X, T>,
}

/// A group that has run, or one that was held back.
pub(crate) type GroupEnd<S, V, W, A, B, T> = Result<Group<S, W, A, T>, Group<S, V, B, T>>;

/// What a worker's thread gives back: the worker once it has worked, or as it was; and what was decided at the latch.
pub(crate) type WorkerEnd<V, W, T> = (Result<W, V>, T);

// If the latch let the worker go it has worked, from what it was; else it is as it was.
#[derive(Drop)]
struct WorkerPromise<V> {
    was: Snapshot<V>,
    latch: Snapshot<Latch>,
}

impl<V: Becomes<W>, W, T: Decided> Promise<WorkerEnd<V, W, T>> for WorkerPromise<V> {
    ghost kept_by = { λ p o. (T.at o.1 ≡ p.latch.value) × HasFollowed V.becomes (T.go o.1) p.was.value o.0 };
}

// The promise of the thread of a worker that is as this one.
fn promise_of<V>(worker: &V, latch: &Latch) -> WorkerPromise<V>
    ensures worker { (result.was.value ≡ worker.now) × (result.latch.value ≡ latch.now) }
{
    WorkerPromise {
        was: Snapshot::of(worker),
        latch: Snapshot::of(latch),
    }
}

// The group around a start that has ended so: its workers after a run, or as they were.
fn group_of<S, V: Drop, W: Drop, A, B, T>(
    inside: Result<Ended<S, A, T>, Ended<S, B, T>>,
    ran: Vec<W>,
    held: Vec<V>,
) -> GroupEnd<S, V, W, A, B, T>
    ensures ran { IfOk result (λ r. r.workers ≡ ran) }
    ensures held { IfErr result (λ r. r.workers ≡ held) }
    ensures inside { inside_of result ≡ inside }
{
    match inside {
        Ok(inside) => Ok(Group {
            workers: ran,
            inside,
        }),
        Err(inside) => Err(Group {
            workers: held,
            inside,
        }),
    }
}

// The rest of a group with one more worker, which ended as the others did.
fn with_worker<S, V: Becomes<W>, W: Drop, A, B, T: Decided>(
    rest: GroupEnd<S, V, W, A, B, T>,
    end: WorkerEnd<V, W, T>,
) -> GroupEnd<S, V, W, A, B, T>
    requires room { IfOk rest (λ r. vec_len r.workers < vec_capacity r.workers) × IfErr rest (λ r. vec_len r.workers < vec_capacity r.workers) }
    requires decided { IsDecided T.at T.go (T.at end.1) (inside_of rest) }
    requires followed { (was : V) × HasFollowed V.becomes (T.go end.1) was end.0 }
    ensures with { IsWith rest end.0 result }
{
    let (mine, decision) = end;
    match rest {
        Ok(mut ran) => {
            ran.inside.decision.agrees_with(&decision);
            let Ok(mine) = mine else { unreachable!() };
            ran.workers.push_reserved(mine);
            Ok(ran)
        }
        Err(mut held) => {
            held.inside.decision.agrees_with(&decision);
            let Err(mine) = mine else { unreachable!() };
            held.workers.push_reserved(mine);
            Err(held)
        }
    }
}

/// Runs each worker of a group on a thread of its own, the last of the list first, and starts inside of that what comes
/// inside: from the next number on, or from none if the start of a worker was refused. Then that tells all workers to
/// end.
pub(crate) fn start_group<
    V: Becomes<W> + Send,
    W: Drop + Send,
    T: Decided + Send,
    F: Fn(V) -> WorkerEnd<V, W, T> + Sync,
    A: Drop,
    B: Drop,
    I: FnOnce(S, Option<u32>) -> Result<Ended<S, A, T>, Ended<S, B, T>> + Drop,
    S: Starter + Drop,
    R: Threads + Wait + Sync,
>(
    rt: &R,
    work: &F,
    latch: &Latch,
    starter: S,
    number: u32,
    group: NewGroup<V, W>,
    inside: I,
) -> GroupEnd<S, V, W, A, B, T>
    requires callable { F.IsAlwaysCallable work.now }
    requires works { (before : V) (end : _) → F.post work.now before end → (T.at end.1 ≡ latch.now) × HasFollowed V.becomes (T.go end.1) before end.0 }
    requires starts { (asked : S) (from : Option ℕ) → IfSome from (λ n. n ≡ number + vec_len group.ready)
        → I.pre inside asked from }
    requires decides { (asked : S) (from : Option ℕ) (r : _) → I.post inside asked from r → IsDecided T.at T.go latch.now r }
    requires ends { (asked : S) (r : _) → I.post inside asked None r → IsErr r }
    requires few { number + vec_len group.ready < 2 ^ 32 }
    ensures worked { IfOk result (λ r. AllZip V.becomes group.ready.items r.workers.items
        × (vec_len r.workers ≡ vec_len group.ready) × (vec_capacity r.workers ≡ vec_capacity group.room)) }
    ensures kept { IfErr result (λ r. (r.workers.items ≡ group.ready.items)
        × (vec_capacity r.workers ≡ vec_capacity group.ready)) }
    ensures inside { (asked : S) × (from : Option ℕ)
        × WasAsked S.answers number (vec_len group.ready) starter from asked
        × I.post inside asked from (inside_of result) }
{
    let NewGroup { mut ready, room } = group;
    let Some(worker) = ready.pop() else {
        return group_of(inside(starter, Some(number)), room, ready);
    };
    thread::scope(
        thread::scope_env(),
        rt,
        move |scope| -> GroupEnd<S, V, W, A, B, T>
            requires sync { IsSync R.row × IsSync F.row × IsSend V.row × IsSend W.row × IsSend T.row }
            requires callable { F.IsAlwaysCallable work.now }
            requires works { (before : V) (end : _) → F.post work.now before end → (T.at end.1 ≡ latch.now) × HasFollowed V.becomes (T.go end.1) before end.0 }
            requires starts { (asked : S) (from : Option ℕ) → IfSome from (λ n. n ≡ number + (vec_len ready + 1)) → I.pre inside asked from }
            requires decides { (asked : S) (from : Option ℕ) (r : _) → I.post inside asked from r → IsDecided T.at T.go latch.now r }
            requires ends { (asked : S) (r : _) → I.post inside asked None r → IsErr r }
            requires room { (vec_len ready < vec_capacity room) × (room.items ≡ []) × (vec_len ready < vec_capacity ready) }
            requires few { number + (vec_len ready + 1) < 2 ^ 32 }
            ensures worked { IfOk result (λ r. AllZip V.becomes (ready.items ++ worker ∷ []) r.workers.items × (vec_len r.workers ≡ vec_len ready + 1) × (vec_capacity r.workers ≡ vec_capacity room)) }
            ensures kept { IfErr result (λ r. (r.workers.items ≡ ready.items ++ worker ∷ []) × (vec_capacity r.workers ≡ vec_capacity ready)) }
            ensures inside { (asked : S) × (from : Option ℕ) × WasAsked S.answers number (vec_len ready + 1) starter from asked × I.post inside asked from (inside_of result) }
        {
            let mut starter = starter;
            if !starter.may_start(number) {
                let Err(mut held) = group_of(inside(starter, None), room, ready) else {
                    unreachable!()
                };
                held.workers.push_reserved(worker);
                return Err(held);
            }
            match scope.spawn_with(promise_of(&worker, latch), move || work(worker)) {
                Ok(handle) => {
                    let next = number + 1;
                    let others = NewGroup { ready, room };
                    let rest = start_group(rt, work, latch, starter, next, others, inside);
                    with_worker(rest, handle.join(rt))
                }
                Err(SpawnError { value: work }) => {
                    with_worker(group_of(inside(starter, None), room, ready), work())
                }
            }
        },
    )
}
