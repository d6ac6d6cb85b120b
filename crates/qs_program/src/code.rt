//! Statements with each name replaced by its number.

ghost use Rattle.std.specs.Prelude.{◌≡◌, ◌≤◌, ◌<◌, ◌+◌, ◌*◌, ℕ, [], ◌∷◌, ◌++◌, OnOk, OnErr, IfOk, max, min, slice_index_or, take, if◌then◌else◌, ◌==◌};
ghost use Rattle.qs_script.specs.audit.tree.Limits.{most_levels};
ghost use Rattle.qs_program.specs.audit.Limits.{most_objects, most_requests, most_steps};
ghost use Rattle.qs_program.specs.audit.Loads.{load_of, weight_of};
ghost use Rattle.qs_program.specs.Loads.{AreLoads};
ghost use Rattle.qs_program.specs.Sound.{levels_of};
ghost use Rattle.qs_program.specs.audit.Statements.{end};
ghost use Rattle.qs_program.specs.Statements.{join_statements};
ghost use Rattle.qs_program.specs.Views.{single, statements_of};

use crate::limits::{MOST_OBJECTS, PAST_REQUESTS, PAST_STEPS};
use qs_objects::Op;
use qs_script::tree::{Operator, Relation};
use smallvec::SmallVec;
use std::alloc::{AllocError, Global};
use std::marker::Model;

/// A value as it is written: a variable of the client by its number, or a number.
#[derive(Clone, Copy, Debug)]
pub enum Atom {
    Variable(u8),
    Number(i64),
}

/// An expression of one value, or of two and an operator.
#[derive(Clone, Copy, Debug)]
pub enum Expr {
    Plain(Atom),
    Binary(Atom, Operator, Atom),
}

/// The test of an `if`.
#[derive(Clone, Copy, Debug)]
pub struct Test {
    pub left: Atom,
    pub relation: Relation,
    pub right: Atom,
}

/// The number 0, as what stands where nothing was written.
impl Default for Atom {
    ghost use Rattle.std.specs.Prelude.{◌≡◌, pos};
    ghost use Rattle.qs_program.specs.declared.code.Atom.TheVariants.{Number};

    ghost is_default = { λ a. a ≡ Number (pos 0) };

    fn default() -> Atom {
        Atom::Number(0)
    }
}

/// The arguments of a request as they are written: up to three lie in place, and more in memory of their own.
#[derive(Drop)]
pub struct Atoms {
    atoms: SmallVec<Atom, 3>,
}

impl Model for Atoms {
    ghost use Rattle.std.specs.Prelude.{List};
    ghost use Rattle.qs_program.specs.declared.code.Atom.{Atom};

    ghost Value = { List Atom };

    ghost view = { λ a. a.atoms.items };
}

impl Atoms {
    /// No arguments; takes no memory.
    pub fn new(alloc: Global) -> Atoms
        ensures empty { result ≡ [] }
    {
        Atoms {
            atoms: SmallVec::new(alloc),
        }
    }

    /// At most three arguments: the first ones of an array. Takes no memory.
    #[inline(always)]
    pub fn few(alloc: Global, atoms: [Atom; 3], count: usize) -> Atoms
        requires few { count ≤ 3 }
        ensures value { result ≡ take count atoms }
    {
        Atoms {
            atoms: SmallVec::from_buf_and_len(alloc, atoms, count),
        }
    }

    /// Adds an argument at the end. An error means out of memory, and leaves the arguments as they were.
    pub fn push(&mut self, atom: Atom) -> Result<(), AllocError>
        ensures ok { OnOk result (self.new ≡ self.old ++ atom ∷ []) }
        ensures kept { OnErr result (self.new ≡ self.old) }
    {
        self.atoms.push(atom)?;
        Ok(())
    }

    /// The same arguments once more; takes memory only for more than three.
    pub fn copied(&self, alloc: Global) -> Result<Atoms, AllocError>
        ensures same { IfOk result (λ atoms. atoms ≡ self.now) }
    {
        Ok(Atoms {
            atoms: SmallVec::from_slice(alloc, self.atoms.as_slice())?,
        })
    }

    /// The arguments in order.
    #[inline(always)]
    pub fn as_slice(&self) -> &[Atom]
        ensures value { result.now ≡ self.now }
    {
        self.atoms.as_slice()
    }
}

/// A request as it is written: the object by its number in the program.
#[derive(Drop)]
pub struct Call {
    pub object: u8,
    pub op: Op,
    pub args: Atoms,
}

/// A statement. An `If` without `else` has an empty second body and `has_else` false.
#[cycle(code)]
pub enum Stmt {
    Command(Call),
    Query(u8, Call),
    Assign(u8, Expr),
    If {
        test: Test,
        has_else: bool,
        first: Body,
        other: Body,
    },
    Repeat(u64, Body),
    Leave,
}

impl Drop for Stmt {
    // In place, so that a statement is not copied to be dropped.
    #[cycle(drops)]
    #[inline(always)]
    fn drop(self) {
        match self {
            Stmt::Command(call) | Stmt::Query(_, call) => drop(call),
            Stmt::If {
                test: _,
                has_else: _,
                first,
                other,
            } => {
                drop(first);
                drop(other);
            }
            Stmt::Repeat(_, body) => drop(body),
            Stmt::Assign(_, _) | Stmt::Leave => {}
        }
    }
}

/// A list of statements, in which a statement stands inside at most eight others: `push` adds no other, so that no call
/// on it, nor its drop, goes deep.
#[cycle(code)]
pub struct Body {
    stmts: Vec<Stmt>,
}

impl Drop for Body {
    // By itself, so that the drop of a statement that has no body is short.
    #[cycle(drops)]
    #[inline(never)]
    fn drop(self) {
        let Body { stmts: _ } = self;
    }
}

impl Model for Body {
    ghost use Rattle.qs_program.specs.audit.Statements.{Statements};
    ghost use Rattle.qs_program.specs.StatementsCode.{statements_code};

    ghost Value = { Statements };

    ghost coded = { statements_code };

    ghost use Rattle.qs_program.specs.Views.{statements_of, size_of};

    ghost view = { λ b. statements_of b.stmts.items };

    ghost size = { size_of };

    ghost use Rattle.qs_program.specs.SizeDecreases.{inner_smaller};

    ghost size_decreases = { λ b h. inner_smaller b.stmts.items };
}

impl Body {
    /// No statements; takes no memory.
    pub fn new(alloc: Global) -> Body
        ensures empty { result ≡ end }
    {
        Body {
            stmts: Vec::new(alloc),
        }
    }

    /// No statements; takes memory for so many at once.
    pub fn with_capacity(alloc: Global, count: usize) -> Result<Body, AllocError>
        ensures empty { IfOk result (λ body. body ≡ end) }
    {
        Ok(Body {
            stmts: Vec::with_capacity(alloc, count)?,
        })
    }

    /// The statements in order.
    pub fn as_slice(&self) -> &[Stmt]
        ensures value { self.now ≡ statements_of result.now }
    {
        self.stmts.as_slice()
    }

    /// Adds a statement at the end, which stands inside at most eight others. An error means out of memory, and leaves
    /// the list as it was.
    #[inline(always)]
    pub fn push(&mut self, stmt: Stmt) -> Result<(), AllocError>
        requires shallow { levels_of (single stmt) ≤ most_levels }
        ensures ok { OnOk result (self.new ≡ join_statements self.old (single stmt)) }
        ensures kept { OnErr result (self.new ≡ self.old) }
    {
        if self.stmts.len() < self.stmts.capacity() {
            self.stmts.push_reserved(stmt);
            return Ok(());
        }
        self.push_more(stmt)
    }

    // Pushes a statement for which more memory is taken.
    #[inline(never)]
    fn push_more(&mut self, stmt: Stmt) -> Result<(), AllocError>
        requires shallow { levels_of (single stmt) ≤ most_levels }
        ensures ok { OnOk result (self.new ≡ join_statements self.old (single stmt)) }
        ensures kept { OnErr result (self.new ≡ self.old) }
    {
        self.stmts.push(stmt)?;
        Ok(())
    }

    /// The most requests that it can make on an object, counted to one past their limit.
    #[cycle(load)]
    pub fn load(&self, object: u8) -> u64
        ensures capped { result ≡ min (load_of self.now object) (most_requests + 1) }
    {
        let mut load = 0;
        for stmt in &self.stmts {
            load = (load + stmt.load(object)).min(PAST_REQUESTS);
        }
        load
    }

    // The most requests that it can make on each of 8 objects, and the most steps that it can take, both counted to one
    // past their limit.
    pub(crate) fn loads(&self) -> (Loads, u64)
        ensures capped { AreLoads self.now result.0 }
        ensures weight { result.1 ≡ min (weight_of self.now) (most_steps + 1) }
    {
        let mut loads = [0; MOST_OBJECTS];
        let weight = self.add_loads(1, &mut loads);
        (loads, weight)
    }

    // Adds the requests of so many turns, and tells the steps of one turn.
    #[cycle(loads)]
    fn add_loads(&self, turns: u64, loads: &mut Loads) -> u64
        requires turns { turns ≤ most_requests + 1 }
        requires small { (h : ℕ) → h < most_objects → slice_index_or loads.old h 0 ≤ most_requests + 1 }
        ensures added { (h : ℕ) → h < most_objects → slice_index_or loads.new h 0 ≡ min (slice_index_or loads.old h 0 + turns * load_of self.now h) (most_requests + 1) }
        ensures small { (h : ℕ) → h < most_objects → slice_index_or loads.new h 0 ≤ most_requests + 1 }
        ensures weight { result ≡ min (weight_of self.now) (most_steps + 1) }
    {
        let mut weight = 0;
        for stmt in &self.stmts {
            weight = (weight + stmt.add_loads(turns, loads)).min(PAST_STEPS);
        }
        weight
    }

    /// The most steps that it can take, counted to one past their limit.
    pub fn weight(&self) -> u64
        ensures capped { result ≡ min (weight_of self.now) (most_steps + 1) }
    {
        self.loads().1
    }
}

impl Stmt {
    #[cycle(load)]
    fn load(&self, object: u8) -> u64
        ensures capped { result ≡ min (load_of (single self.now) object) (most_requests + 1) }
    {
        match self {
            Stmt::Command(call) | Stmt::Query(_, call) => (call.object == object) as u64,
            Stmt::If { first, other, .. } => first.load(object).max(other.load(object)),
            Stmt::Repeat(count, body) => {
                let requests = body.load(object).saturating_mul(*count);
                requests.min(PAST_REQUESTS)
            }
            Stmt::Assign(_, _) | Stmt::Leave => 0,
        }
    }

    // Adds the requests of so many turns, and tells the steps of one turn.
    #[cycle(loads)]
    #[inline(always)]
    fn add_loads(&self, turns: u64, loads: &mut Loads) -> u64
        requires turns { turns ≤ most_requests + 1 }
        requires small { (h : ℕ) → h < most_objects → slice_index_or loads.old h 0 ≤ most_requests + 1 }
        ensures added { (h : ℕ) → h < most_objects → slice_index_or loads.new h 0 ≡ min (slice_index_or loads.old h 0 + turns * load_of (single self.now) h) (most_requests + 1) }
        ensures small { (h : ℕ) → h < most_objects → slice_index_or loads.new h 0 ≤ most_requests + 1 }
        ensures weight { result ≡ min (weight_of (single self.now)) (most_steps + 1) }
    {
        match self {
            Stmt::Command(call) | Stmt::Query(_, call) => {
                add_load(loads, call.object, turns);
                1
            }
            Stmt::If { first, other, .. } => {
                let weight = add_greater_loads(first, other, turns, loads);
                (weight + 1).min(PAST_STEPS)
            }
            Stmt::Repeat(count, body) => {
                let all = turns.saturating_mul(*count).min(PAST_REQUESTS);
                let weight = body.add_loads(all, loads);
                (weight.max(1).saturating_mul(*count).min(PAST_STEPS) + 1).min(PAST_STEPS)
            }
            Stmt::Assign(_, _) | Stmt::Leave => 1,
        }
    }
}

// Adds for each object the greater of two bodies' requests, and tells the greater of their steps. It stands by itself,
// so that no memory is cleared for other statements.
#[cycle(loads)]
#[inline(never)]
fn add_greater_loads(first: &Body, other: &Body, turns: u64, loads: &mut Loads) -> u64
    requires turns { turns ≤ most_requests + 1 }
    requires small { (h : ℕ) → h < most_objects → slice_index_or loads.old h 0 ≤ most_requests + 1 }
    ensures added { (h : ℕ) → h < most_objects → slice_index_or loads.new h 0 ≡ min (slice_index_or loads.old h 0 + turns * max (load_of first.now h) (load_of other.now h)) (most_requests + 1) }
    ensures small { (h : ℕ) → h < most_objects → slice_index_or loads.new h 0 ≤ most_requests + 1 }
    ensures weight { result ≡ min (max (weight_of first.now) (weight_of other.now)) (most_steps + 1) }
{
    let mut others = *loads;
    let one = first.add_loads(turns, loads);
    let two = other.add_loads(turns, &mut others);
    raise(loads, &others);
    one.max(two)
}

// Counts of requests, one for each of 8 objects.
pub(crate) type Loads = [u64; MOST_OBJECTS];

// Counts so many requests on an object.
#[inline(always)]
fn add_load(loads: &mut Loads, object: u8, turns: u64)
    requires turns { turns ≤ most_requests + 1 }
    requires small { (h : ℕ) → h < most_objects → slice_index_or loads.old h 0 ≤ most_requests + 1 }
    ensures added { (h : ℕ) → h < most_objects → slice_index_or loads.new h 0 ≡ min (slice_index_or loads.old h 0 + turns * (if object == h then 1 else 0)) (most_requests + 1) }
    ensures small { (h : ℕ) → h < most_objects → slice_index_or loads.new h 0 ≤ most_requests + 1 }
{
    let place = usize::from(object);
    if place < MOST_OBJECTS {
        loads[place] = (loads[place] + turns).min(PAST_REQUESTS);
    }
}

// The greater of two counts, for each object.
#[inline(always)]
fn raise(loads: &mut Loads, others: &Loads)
    ensures each { (h : ℕ) → h < most_objects → slice_index_or loads.new h 0 ≡ max (slice_index_or loads.old h 0) (slice_index_or others.now h 0) }
{
    for object in 0..MOST_OBJECTS {
        loads[object] = loads[object].max(others[object]);
    }
}
