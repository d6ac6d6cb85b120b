// Syntax trees.

ghost use Rattle.std.specs.Prelude.{◌≡◌, [], ◌∷◌, ◌++◌, OnOk, OnErr, IfOk};
ghost use Rattle.qs_script.specs.audit.tree.Tree.{end, command, query, assign};
ghost use Rattle.qs_script.specs.tree.Tree.{call_of, join_statements};
ghost use Rattle.qs_script.specs.tree.Views.{single, stmts_of};
ghost use Rattle.qs_script.specs.tree.Form.{HasForm};

use crate::tokens::{Name, Number};
use crate::tree::lists::make_room;
use smallvec::SmallVec;
use std::alloc::{AllocError, Global};
use std::marker::Model;

/// What stands where a value is wanted: a variable's name, or a number with its sign.
#[derive(Drop)]
pub enum Atom {
    Variable(Name),
    Number(i64),
}

/// What stands in a place of a list of arguments that is not used.
impl Default for Atom {
    fn default() -> Atom {
        Atom::Number(0)
    }
}

/// How two values make one.
#[derive(Clone, Copy, Debug)]
pub enum Operator {
    Plus,
    Minus,
    Times,
}

/// How two values are compared.
#[derive(Clone, Copy, Debug)]
pub enum Relation {
    Equal,
    Unequal,
    Less,
    AtMost,
    Greater,
    AtLeast,
}

/// What an assignment computes.
#[derive(Drop)]
pub enum Expr {
    Plain(Atom),
    Binary(Atom, Operator, Atom),
}

/// What an `if` asks.
#[derive(Drop)]
pub struct Test {
    pub left: Atom,
    pub relation: Relation,
    pub right: Atom,
}

/// The arguments of a request in the order in which they are written; up to one takes no memory. Contracts see them as
/// a list.
#[derive(Drop)]
pub struct ArgumentList {
    atoms: SmallVec<Atom, 1>,
}

impl Model for ArgumentList {
    ghost use Rattle.std.specs.Prelude.{List};
    ghost use Rattle.qs_script.specs.declared.tree.tree.Atom.{Atom};

    ghost Value = { List Atom };

    ghost view = { λ a. a.atoms.items };
}

impl ArgumentList {
    /// No arguments.
    #[inline(always)]
    pub fn none(alloc: Global) -> ArgumentList
        ensures { result ≡ [] }
    {
        ArgumentList {
            atoms: SmallVec::new(alloc),
        }
    }

    /// One argument.
    #[inline(always)]
    pub fn one(alloc: Global, atom: Atom) -> ArgumentList
        ensures { result ≡ atom ∷ [] }
    {
        ArgumentList {
            atoms: SmallVec::from_buf(alloc, [atom]),
        }
    }

    /// Adds an argument at the end.
    #[inline(always)]
    pub fn push(&mut self, atom: Atom) -> Result<(), AllocError>
        ensures added { OnOk result (self.new ≡ self.old ++ atom ∷ []) }
    {
        self.atoms.push(atom)?;
        Ok(())
    }

    /// The arguments in order.
    pub fn as_slice(&self) -> &[Atom]
        ensures same { result.now ≡ self.now }
    {
        self.atoms.as_slice()
    }
}

/// A request as it is written: an object, one of its operations, and the arguments.
#[derive(Drop)]
pub struct Call {
    pub object: Name,
    pub op: Name,
    pub args: ArgumentList,
}

/// A statement. An `if` without `else` and one with an empty `else` are different statements.
#[cycle(tree)]
pub enum Stmt {
    Command(Call),
    Query(Name, Call),
    Assign(Name, Expr),
    If(Test, Body),
    IfElse(Test, Body, Body),
    Repeat(Number, Body),
    Leave,
}

// It stands within the loop over the statements of a body, which so moves none of them.
impl Drop for Stmt {
    #[cycle(drop)]
    #[inline(always)]
    fn drop(self) {
        match self {
            Stmt::Command(_) | Stmt::Query(_, _) | Stmt::Assign(_, _) => {}
            Stmt::If(_, _) | Stmt::IfElse(_, _, _) | Stmt::Repeat(_, _) | Stmt::Leave => {}
        }
    }
}

/// A list of statements. Contracts see it as a tree without places in memory.
#[cycle(tree)]
pub struct Body {
    stmts: Vec<Stmt>,
}

impl Drop for Body {
    #[cycle(drop)]
    #[inline(never)]
    fn drop(self) {
        let Body { stmts: _ } = self;
    }
}

impl Model for Body {
    ghost use Rattle.qs_script.specs.audit.tree.Tree.{Stmts};
    ghost use Rattle.qs_script.specs.tree.TreeCode.{stmts_code};

    ghost Value = { Stmts };

    ghost coded = { stmts_code };

    ghost use Rattle.qs_script.specs.tree.Views.{stmts_of, size_of};

    ghost view = { λ b. stmts_of b.stmts.items };

    ghost size = { size_of };

    ghost use Rattle.qs_script.specs.tree.SizeDecreases.{inner_smaller};

    ghost size_decreases = { λ b h. inner_smaller b.stmts.items };
}

#[tactic(auto, using(crate::proofs::tree::Trees::stmts_appended))]
impl Body {
    /// No statements. It takes memory for so many at once.
    #[inline(always)]
    pub fn with_capacity(alloc: Global, count: usize) -> Result<Body, AllocError>
        ensures empty { IfOk result (λ body. body ≡ end) }
    {
        Ok(Body {
            stmts: Vec::with_capacity(alloc, count)?,
        })
    }

    /// Adds a statement at the end. An error means out of memory, and leaves the list as it was.
    #[inline(always)]
    pub fn push(&mut self, stmt: Stmt) -> Result<(), AllocError>
        ensures added { OnOk result (self.new ≡ join_statements self.old (single stmt)) }
        ensures kept { OnErr result (self.new ≡ self.old) }
    {
        make_room(&mut self.stmts)?;
        self.stmts.push_reserved(stmt);
        Ok(())
    }

    /// Adds a command at the end. Room is made before the statement is written, here and below.
    #[inline(always)]
    pub fn push_command(
        &mut self,
        object: &Name,
        op: &Name,
        args: ArgumentList,
    ) -> Result<(), AllocError>
        ensures added { OnOk result (self.new ≡ join_statements self.old (command (call_of object.now op.now args) end)) }
        ensures kept { OnErr result (self.new ≡ self.old) }
    {
        make_room(&mut self.stmts)?;
        let object = object.copied();
        let op = op.copied();
        let call = Call { object, op, args };
        self.stmts.push_reserved(Stmt::Command(call));
        Ok(())
    }

    /// Adds a query at the end.
    #[inline(always)]
    pub fn push_query(
        &mut self,
        variable: &Name,
        object: &Name,
        op: &Name,
        args: ArgumentList,
    ) -> Result<(), AllocError>
        ensures added { OnOk result (self.new ≡ join_statements self.old (query variable.now (call_of object.now op.now args) end)) }
        ensures kept { OnErr result (self.new ≡ self.old) }
    {
        make_room(&mut self.stmts)?;
        let variable = variable.copied();
        let object = object.copied();
        let op = op.copied();
        let call = Call { object, op, args };
        self.stmts.push_reserved(Stmt::Query(variable, call));
        Ok(())
    }

    /// Adds an assignment at the end.
    #[inline(always)]
    pub fn push_assign(&mut self, variable: &Name, expr: Expr) -> Result<(), AllocError>
        ensures added { OnOk result (self.new ≡ join_statements self.old (assign variable.now expr end)) }
        ensures kept { OnErr result (self.new ≡ self.old) }
    {
        make_room(&mut self.stmts)?;
        let variable = variable.copied();
        self.stmts.push_reserved(Stmt::Assign(variable, expr));
        Ok(())
    }

    /// The statements in order.
    pub fn as_slice(&self) -> &[Stmt]
        ensures same { self.now ≡ stmts_of result.now }
    {
        self.stmts.as_slice()
    }
}

/// Names in the order in which they are written.
#[derive(Drop)]
pub struct NameList {
    names: Vec<Name>,
}

impl Model for NameList {
    ghost use Rattle.std.specs.Prelude.{List, ℕ};

    ghost Value = { List (List ℕ) };

    ghost view = { λ n. n.names.items };
}

impl NameList {
    /// The list of these names.
    #[inline(always)]
    pub fn of(names: Vec<Name>) -> NameList
        ensures same { result ≡ names.items }
    {
        NameList { names }
    }

    /// The names in order.
    pub fn as_slice(&self) -> &[Name]
        ensures same { result.now ≡ self.now }
    {
        self.names.as_slice()
    }
}

/// A separate block: the objects that it reserves together, and its statements.
#[derive(Drop)]
pub struct Block {
    pub reserved: NameList,
    pub body: Body,
}

/// A client's blocks in the order in which they are written.
#[derive(Drop)]
pub struct Blocks {
    blocks: Vec<Block>,
}

impl Model for Blocks {
    ghost use Rattle.std.specs.Prelude.{List};
    ghost use Rattle.qs_script.specs.declared.tree.tree.Block.{Block};

    ghost Value = { List Block };

    ghost use Rattle.qs_script.specs.tree.BlockCode.{blocks_code};

    ghost coded = { blocks_code };

    ghost view = { λ b. b.blocks.items };
}

impl Blocks {
    /// The list of these blocks.
    #[inline(always)]
    pub fn of(blocks: Vec<Block>) -> Blocks
        ensures same { result ≡ blocks.items }
    {
        Blocks { blocks }
    }

    /// The blocks in order.
    pub fn as_slice(&self) -> &[Block]
        ensures same { result.now ≡ self.now }
    {
        self.blocks.as_slice()
    }
}

/// An object's kind with its numbers: a balance; a capacity; rows and columns.
#[derive(Drop)]
pub enum KindText {
    Account(Number),
    Buffer(Number),
    Grid(Number, Number),
}

/// The declaration of an object.
#[derive(Drop)]
pub struct ObjectItem {
    pub name: Name,
    pub kind: KindText,
}

/// A client with its blocks.
#[derive(Drop)]
pub struct ClientItem {
    pub name: Name,
    pub blocks: Blocks,
}

/// An object's kind without its numbers.
#[derive(Clone, Copy, Debug)]
pub enum KindWord {
    Account,
    Buffer,
    Grid,
}

/// A formal of a template: a name for an object of the kind.
#[derive(Drop)]
pub struct Formal {
    pub kind: KindWord,
    pub name: Name,
}

/// A template's formals in the order in which they are written.
#[derive(Drop)]
pub struct Formals {
    formals: Vec<Formal>,
}

impl Model for Formals {
    ghost use Rattle.std.specs.Prelude.{List};
    ghost use Rattle.qs_script.specs.declared.tree.tree.Formal.{Formal};

    ghost Value = { List Formal };

    ghost view = { λ f. f.formals.items };
}

impl Formals {
    /// The list of these formals.
    #[inline(always)]
    pub fn of(formals: Vec<Formal>) -> Formals
        ensures same { result ≡ formals.items }
    {
        Formals { formals }
    }

    /// The formals in order.
    pub fn as_slice(&self) -> &[Formal]
        ensures same { result.now ≡ self.now }
    {
        self.formals.as_slice()
    }
}

/// A template: the blocks of a client over formals.
#[derive(Drop)]
pub struct TemplateItem {
    pub name: Name,
    pub formals: Formals,
    pub blocks: Blocks,
}

/// A client of a template, with the objects that the formals stand for.
#[derive(Drop)]
pub struct StartedItem {
    pub name: Name,
    pub template: Name,
    pub objects: NameList,
}

/// What a script consists of.
#[derive(Drop)]
pub enum Item {
    Object(ObjectItem),
    Client(ClientItem),
    Template(TemplateItem),
    Started(StartedItem),
}

/// A script. Contracts see it as the list of its items. Its type keeps that each block names an object and that a
/// statement stands inside at most eight others, so that no call on it goes deep.
pub struct Script {
    items: Vec<Item>,
}

impl Drop for Script {
    fn drop(self) {
        let Script { items: _ } = self;
    }
}

impl Model for Script {
    ghost use Rattle.std.specs.Prelude.{List};
    ghost use Rattle.qs_script.specs.declared.tree.tree.Item.{Item};

    ghost Value = { List Item };

    ghost use Rattle.qs_script.specs.tree.ScriptCode.{script_code};

    ghost coded = { script_code };

    ghost view = { λ s. s.items.items };

    ghost use Rattle.qs_script.specs.tree.Form.{HasForm};

    ghost invariant = { λ s. HasForm s.items.items };
}

impl Script {
    /// The script of these items, which have the form of one.
    #[inline(always)]
    pub fn of(items: Vec<Item>) -> Script
        requires form { HasForm items.items }
        ensures same { result ≡ items.items }
    {
        Script { items }
    }

    /// What holds of every script; it does nothing.
    pub fn keeps_form(&self)
        ensures form { HasForm self.now }
    {
        let _ = &self.items;
    }

    /// The items in order.
    pub fn as_slice(&self) -> &[Item]
        ensures same { result.now ≡ self.now }
    {
        self.items.as_slice()
    }
}
