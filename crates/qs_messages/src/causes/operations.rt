// The kinds of objects and their operations, in words for a reader.

use crate::causes::said::joined;
use qs_diagnosis::put_all;
use qs_objects::Op;
use std::alloc::{AllocError, Global};

/// A kind of object.
#[derive(Clone, Copy, Debug, PartialEq, Eq)]
pub(crate) enum Kind {
    Account,
    Buffer,
    Grid,
}

impl Kind {
    /// The kind in words, with its article.
    pub(crate) fn called(self) -> &'static [u8] {
        match self {
            Kind::Account => b"an account",
            Kind::Buffer => b"a buffer",
            Kind::Grid => b"a grid",
        }
    }

    // The operations of its objects.
    fn operations(self) -> &'static [Op] {
        let kind = match self {
            Kind::Account => qs_objects::Kind::Account { balance: 0 },
            Kind::Buffer => qs_objects::Kind::Buffer { capacity: 1 },
            Kind::Grid => qs_objects::Kind::Grid {
                rows: 1,
                columns: 1,
            },
        };
        kind.operations()
    }

    /// Its queries, or else its commands.
    pub(crate) fn listed(self, alloc: Global, asks: bool) -> Result<Vec<Op>, AllocError> {
        let mut listed = Vec::new(alloc);
        for op in self.operations() {
            if op.is_query() == asks {
                listed.push(*op)?;
            }
        }
        Ok(listed)
    }

    /// What its queries are, or else its commands, in words.
    pub(crate) fn words(self, alloc: Global, asks: bool) -> Result<Vec<u8>, AllocError> {
        let mut words = joined(
            alloc,
            &[if asks {
                b"its queries"
            } else {
                b"its commands"
            }],
        )?;
        let mut comma: &'static [u8] = b": ";
        for op in self.listed(alloc, asks)? {
            put_all(&mut words, &[comma, op.word()])?;
            comma = b", ";
        }
        Ok(words)
    }
}

/// The command, or the query, that a kind has under a word.
pub(crate) fn operation_of(kind: Kind, asks: bool, word: &[u8]) -> Option<Op> {
    for op in kind.operations() {
        if op.is_query() == asks && op.word() == word {
            return Some(*op);
        }
    }
    None
}

/// How a request for the operation is written, after its object and a point.
pub(crate) fn call_of(alloc: Global, op: Op) -> Result<Vec<u8>, AllocError> {
    joined(alloc, &[op.word(), b"(", op.parameters(), b")"])
}
