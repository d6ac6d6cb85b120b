//! What is known at a place of a script, and the faults of each place.

ghost use Rattle.std.specs.Prelude.{◌≡◌, [], ◌∷◌, ◌++◌, OnOk, IfOk, IfSome, is_some, slice_index_or, pos};
ghost use Rattle.qs_program.specs.audit.Numbering.{is_among, found_at};
ghost use Rattle.qs_check.specs.audit.fault_places.Places.{Scope as Known, scope_or_fault, pass_place, start, op_at, object, number, client, separate, listed, target, operation_places, request_places, variable, template, starts, given, formals_at, formal_kind, formal_kinds};
ghost use Rattle.qs_check.specs.fault_places.Places.{Meets, without_variables};

use crate::fault_places::fault::CheckFault;
use crate::fault_places::listed::Listed;
use crate::fault_places::operators::find_op;
use qs_objects::{Kind, Op};
use qs_program::{MOST_BLOCKS, MOST_CLIENTS, MOST_OBJECTS, MOST_VARIABLES, Names, same_kind};
use qs_script::tree::{Formal, KindWord, Name, Number};
use std::alloc::{AllocError, Global};
use std::marker::Model;
use std::mem;

// Templates of a program.
const MOST_TEMPLATES: usize = 8;

// The kinds of a template's formals.
#[derive(Drop)]
pub(crate) struct Kinds {
    kinds: Vec<Kind>,
}

impl Model for Kinds {
    ghost use Rattle.std.specs.Prelude.{List};
    ghost use Rattle.qs_objects.specs.declared.object.Kind.{Kind};

    ghost Value = { List Kind };

    ghost view = { λ k. k.kinds.items };
}

impl Kinds {
    fn as_slice(&self) -> &[Kind]
        ensures value { result.now ≡ self.now }
    {
        self.kinds.as_slice()
    }
}

/// What is known at a place of a script.
#[derive(Drop)]
pub struct Scope {
    objects: Names,
    kinds: Vec<Kind>,
    clients: Names,
    templates: Names,
    formals: Vec<Kinds>,
    blocks: usize,
    variables: Names,
    listed: Listed,
}

impl Model for Scope {
    ghost use Rattle.qs_check.specs.audit.fault_places.Places.{Scope as Known};
    ghost use Rattle.qs_check.specs.fault_places.Listed.{names_at, AreFirst};

    ghost Value = { Known };

    ghost view = { λ s. record { objects = s.objects; kinds = s.kinds.items; clients = s.clients; templates = s.templates; formals = s.formals.items; blocks = s.blocks; variables = s.variables; reserved = names_at s.objects s.listed } };

    ghost invariant = { λ s. AreFirst s.objects s.listed };
}

impl Scope {
    /// Nothing is known; takes no memory.
    pub fn new(alloc: Global) -> Scope
        ensures start { result ≡ start }
    {
        Scope {
            objects: Names::new(alloc),
            kinds: Vec::new(alloc),
            clients: Names::new(alloc),
            templates: Names::new(alloc),
            formals: Vec::new(alloc),
            blocks: 0,
            variables: Names::new(alloc),
            listed: Listed::new(alloc),
        }
    }

    /// An object's name.
    #[tactic(auto, using(crate::proofs::fault_places::ListedNames::are_first_append, crate::proofs::fault_places::ListedNames::names_append))]
    pub fn object(&mut self, name: &Name, kind: Kind) -> Result<(), CheckFault>
        ensures meets { Meets result (pass_place self.old (object name.now kind)) self.new }
    {
        if self.objects.contains(name) {
            return Err(CheckFault::Twice);
        }
        if self.objects.len() >= MOST_OBJECTS {
            return Err(CheckFault::Limit);
        }
        self.objects.number(name.copied())?;
        add_kind(&mut self.kinds, kind)?;
        Ok(())
    }

    /// A client's name.
    pub fn client(&mut self, alloc: Global, name: &Name) -> Result<(), CheckFault>
        ensures meets { Meets result (pass_place self.old (client name.now)) self.new }
    {
        if self.clients.contains(name) {
            return Err(CheckFault::Twice);
        }
        if self.clients.len() >= MOST_CLIENTS {
            return Err(CheckFault::Limit);
        }
        self.clients.number(name.copied())?;
        self.blocks = 0;
        forget(alloc, &mut self.variables);
        self.listed.clear();
        Ok(())
    }

    /// A template's name.
    pub fn template(
        &mut self,
        alloc: Global,
        name: &Name,
        formals: &[Formal],
    ) -> Result<(), CheckFault>
        ensures meets { Meets result (pass_place self.old (template name.now (formal_kinds formals.now))) self.new }
    {
        if self.templates.contains(name) {
            return Err(CheckFault::Twice);
        }
        if self.templates.len() >= MOST_TEMPLATES {
            return Err(CheckFault::Limit);
        }
        self.templates.number(name.copied())?;
        add_formals(&mut self.formals, kinds_of_formals(alloc, formals)?)?;
        Ok(())
    }

    // The kinds of a template's formals.
    fn formals_of(&self, name: &Name) -> &[Kind]
        ensures value { result.now ≡ formals_at self.now.templates self.now.formals name.now }
    {
        match self.formals.get(self.templates.number_of(name)) {
            Some(kinds) => kinds.as_slice(),
            None => &[],
        }
    }

    /// The template of a client, for which so many objects are given.
    pub fn starts(&self, name: &Name, count: usize) -> Result<(), CheckFault>
        ensures meets { Meets result (pass_place self.now (starts name.now count)) self.now }
    {
        if !self.templates.contains(name) {
            return Err(CheckFault::UnknownTemplate);
        }
        if self.formals_of(name).len() != count {
            return Err(CheckFault::Count);
        }
        Ok(())
    }

    /// An object that is given for the formal at a place.
    pub fn given(&self, template: &Name, place: usize, object: &Name) -> Result<(), CheckFault>
        ensures meets { Meets result (pass_place self.now (given template.now place object.now)) self.now }
    {
        if !self.objects.contains(object) {
            return Err(CheckFault::UnknownObject);
        }
        let kind = kind_at(self.kinds.as_slice(), self.objects.number_of(object));
        if !same_kind(kind_at(self.formals_of(template), place), kind) {
            return Err(CheckFault::OtherKind);
        }
        Ok(())
    }

    /// A block's beginning.
    pub fn separate(&mut self) -> Result<(), CheckFault>
        ensures meets { Meets result (pass_place self.old separate) self.new }
    {
        if self.blocks >= MOST_BLOCKS {
            return Err(CheckFault::Limit);
        }
        self.blocks += 1;
        self.listed.clear();
        Ok(())
    }

    // The number of a declared object, and whether the block's list has it.
    #[inline(always)]
    #[tactic(auto, using(crate::proofs::fault_places::ListedNames::among_names))]
    fn place(&self, name: &Name) -> Option<(usize, bool)>
        ensures declared { is_some result ≡ is_among self.now.objects name.now }
        ensures number { IfSome result (λ found. found.0 ≡ found_at self.now.objects name.now) }
        ensures listed { IfSome result (λ found. found.1 ≡ is_among self.now.reserved name.now) }
    {
        let number = self.objects.find(name)?;
        Some((number, self.listed.contains(number)))
    }

    /// A name of a block's list.
    #[tactic(auto, using(crate::proofs::fault_places::ListedNames::are_first_more, crate::proofs::fault_places::ListedNames::names_more))]
    pub fn listed(&mut self, name: &Name) -> Result<(), CheckFault>
        ensures meets { Meets result (pass_place self.old (listed name.now)) self.new }
    {
        let Some((number, is_listed)) = self.place(name) else {
            return Err(CheckFault::UnknownObject);
        };
        if is_listed {
            return Err(CheckFault::ReservedTwice);
        }
        self.listed.push(number)?;
        Ok(())
    }

    /// A request's object.
    pub fn target(&self, name: &Name) -> Result<(), CheckFault>
        ensures meets { Meets result (pass_place self.now (target name.now)) self.now }
    {
        let Some((_, is_listed)) = self.place(name) else {
            return Err(CheckFault::UnknownObject);
        };
        if !is_listed {
            return Err(CheckFault::NotReserved);
        }
        Ok(())
    }

    /// A request's operation, and the number of its arguments.
    pub fn operation(
        &self,
        asks: bool,
        name: &Name,
        word: &Name,
        count: usize,
    ) -> Result<(), CheckFault>
        ensures meets { Meets result (scope_or_fault self.now (operation_places asks name.now word.now count)) self.now }
    {
        let Some(op) = self.op(asks, name, word) else {
            return Err(CheckFault::UnknownOp);
        };
        if op.arity() != count {
            return Err(CheckFault::Arity);
        }
        Ok(())
    }

    // A request's object, its operation, and the number of its arguments.
    #[inline(always)]
    pub(crate) fn request(
        &self,
        asks: bool,
        name: &Name,
        word: &Name,
        count: usize,
    ) -> Result<(), CheckFault>
        ensures meets { Meets result (scope_or_fault self.now (request_places asks name.now word.now count)) self.now }
    {
        let Some((number, is_listed)) = self.place(name) else {
            return Err(CheckFault::UnknownObject);
        };
        if !is_listed {
            return Err(CheckFault::NotReserved);
        }
        let Some(op) = find_op(asks, kind_at(self.kinds.as_slice(), number), word) else {
            return Err(CheckFault::UnknownOp);
        };
        if op.arity() != count {
            return Err(CheckFault::Arity);
        }
        Ok(())
    }

    fn op(&self, asks: bool, name: &Name, word: &Name) -> Option<Op>
        ensures op { result ≡ op_at self.now.objects self.now.kinds asks name.now word.now }
    {
        let kind = kind_at(self.kinds.as_slice(), self.objects.number_of(name));
        find_op(asks, kind, word)
    }

    /// A variable that is assigned or read.
    pub fn variable(&mut self, name: &Name) -> Result<(), CheckFault>
        ensures meets { Meets result (pass_place self.old (variable name.now)) self.new }
    {
        if self.variables.contains(name) {
            return Ok(());
        }
        if self.variables.len() >= MOST_VARIABLES {
            return Err(CheckFault::Limit);
        }
        self.variables.number(name.copied())?;
        Ok(())
    }

    /// The variables of the client, which is over.
    pub fn end_client(&mut self, alloc: Global) -> Names
        ensures variables { result ≡ self.old.variables }
        ensures rest { self.new ≡ without_variables self.old }
    {
        mem::replace(&mut self.variables, Names::new(alloc))
    }

    /// The variables of the client.
    pub fn variables(&self) -> &Names
        ensures value { result.now ≡ self.now.variables }
    {
        &self.variables
    }

    /// The objects' names.
    pub fn objects(&self) -> &Names
        ensures value { result.now ≡ self.now.objects }
    {
        &self.objects
    }

    /// The objects' kinds.
    pub fn kinds(&self) -> &[Kind]
        ensures value { result.now ≡ self.now.kinds }
    {
        self.kinds.as_slice()
    }
}

// Leaves no names.
fn forget(alloc: Global, names: &mut Names)
    ensures none { names.new ≡ [] }
{
    drop(mem::replace(names, Names::new(alloc)));
}

fn add_formals(formals: &mut Vec<Kinds>, kinds: Kinds) -> Result<(), AllocError>
    ensures added { OnOk result (formals.new.items ≡ formals.old.items ++ kinds ∷ []) }
{
    formals.push(kinds)?;
    Ok(())
}

/// A formal's kind; its numbers say nothing.
pub fn formal_value(kind: KindWord) -> Kind
    ensures value { result ≡ formal_kind kind }
{
    match kind {
        KindWord::Account => Kind::Account { balance: 0 },
        KindWord::Buffer => Kind::Buffer { capacity: 1 },
        KindWord::Grid => Kind::Grid {
            rows: 1,
            columns: 1,
        },
    }
}

fn kinds_of_formals(alloc: Global, formals: &[Formal]) -> Result<Kinds, AllocError>
    ensures kinds { IfOk result (λ k. k ≡ formal_kinds formals.now) }
{
    let mut kinds = Vec::new(alloc);
    for formal in formals {
        kinds.push(formal_value(formal.kind))?;
    }
    Ok(Kinds { kinds })
}

fn add_kind(kinds: &mut Vec<Kind>, kind: Kind) -> Result<(), AllocError>
    ensures added { OnOk result (kinds.new.items ≡ kinds.old.items ++ kind ∷ []) }
{
    kinds.push(kind)?;
    Ok(())
}

/// The kind of a number, or an account past the last.
pub fn kind_at(kinds: &[Kind], number: usize) -> Kind
    ensures value { result ≡ slice_index_or kinds.now number (Kind.Account (pos 0)) }
{
    match kinds.get(number) {
        Some(kind) => *kind,
        None => Kind::Account { balance: 0 },
    }
}

/// A number with a range.
pub fn check_number(low: u64, high: u64, n: Number) -> Result<(), CheckFault>
    ensures meets { (s : Known) → Meets result (pass_place s (number low high n)) s }
{
    if n.count() < low || n.count() > high {
        return Err(CheckFault::Range);
    }
    Ok(())
}
