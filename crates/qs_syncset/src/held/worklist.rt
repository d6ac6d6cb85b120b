//! The nodes that are left to visit. One leaves the list only together with a turn that is counted.

ghost use Rattle.std.specs.Prelude.{◌≡◌, ◌+◌, ◌<◌, [], ◌∷◌, ◌++◌, IfSome, IfNone, IfOk, OnOk};

use smallvec::SmallVec;
use std::alloc::{AllocError, Global};
use std::marker::{Brand, Model};
use std::mem::size_of;
use std::sync::ledger::{Blank, Book, Ledger, Share};

/// How many nodes were taken from worklists. It takes no bytes, and nothing but the taking of a node changes it.
#[derive(Drop)]
pub struct Turns<L: Ledger> {
    book: Book<L>,
    share: Share<L>,
}

// Counting costs nothing as a program runs.
const _: () = prove!(size_of::<Turns<Brand>>() == 0);

impl<L: Ledger> Model for Turns<L> {
    ghost use Rattle.std.specs.Prelude.{ℕ, ◌<◌};

    ghost Value = { ℕ };

    ghost view = { λ t. t.book.total };

    ghost invariant = { λ t. 0 < t.share.parts };
}

impl<L: Ledger> Turns<L> {
    /// No turn yet.
    pub fn new(blank: Blank) -> Turns<L>
        requires name { blank.name ≡ L.name }
        requires parts { blank.parts ≡ L.parts }
        requires some { 0 < blank.parts }
        ensures none { result ≡ 0 }
    {
        let (book, share) = blank.open();
        Turns { book, share }
    }

    // One turn more.
    fn take(&mut self)
        ensures one_more { self.new ≡ self.old + 1 }
    {
        self.book.add(&mut self.share, 1);
    }
}

/// Nodes by number, the next one last.
#[derive(Drop)]
pub(crate) struct Worklist {
    nodes: SmallVec<usize, 8>,
}

impl Model for Worklist {
    ghost use Rattle.std.specs.Prelude.{ℕ, List};

    ghost Value = { List ℕ };

    ghost view = { λ w. w.nodes.items };
}

impl Worklist {
    /// A list of one node.
    pub(crate) fn of(alloc: Global, node: usize) -> Result<Worklist, AllocError>
        ensures one { IfOk result (λ list. list ≡ node ∷ []) }
    {
        let mut nodes = SmallVec::new(alloc);
        nodes.push(node)?;
        Ok(Worklist { nodes })
    }

    /// Puts a node on the list, whether it stands there or not.
    pub(crate) fn put(&mut self, node: usize) -> Result<(), AllocError>
        ensures last { OnOk result (self.new ≡ self.old ++ node ∷ []) }
    {
        self.nodes.push(node)?;
        Ok(())
    }

    /// Takes the next node, which is a turn.
    pub(crate) fn pop<L: Ledger>(&mut self, turns: &mut Turns<L>) -> Option<usize>
        ensures last { IfSome result (λ node. self.old ≡ self.new ++ node ∷ []) }
        ensures counted { IfSome result (λ _. turns.new ≡ turns.old + 1) }
        ensures empty { IfNone result (self.old ≡ []) }
        ensures uncounted { IfNone result (turns.new ≡ turns.old) }
    {
        let node = self.nodes.pop()?;
        turns.take();
        Some(node)
    }
}
