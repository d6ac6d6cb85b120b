// The table of the operations.

ghost use Rattle.std.specs.Prelude.{◌≡◌, ◌≤◌, ◌++◌, codes, length};
ghost use Rattle.qs_objects.specs.audit.Operations.{is_query as is_query_of, arity as arity_of, word as word_of, operations_of};
ghost use Rattle.qs_objects.specs.Operations.{parts};

use crate::{Kind, Op};

impl Op {
    /// Whether it is a query; else it is a command. The kind of the object plays no part.
    pub fn is_query(self) -> bool
        ensures query { result ≡ is_query_of self }
    {
        matches!(
            self,
            Op::Balance
                | Op::Refused
                | Op::TakeFirst
                | Op::First
                | Op::Size
                | Op::GetCell
                | Op::RowSum
        )
    }

    /// How many arguments it takes.
    pub fn arity(self) -> usize
        ensures arity { result ≡ arity_of self }
        ensures few { result ≤ 3 }
    {
        match self {
            Op::SetCell | Op::AddCell => 3,
            Op::GetCell => 2,
            Op::Deposit | Op::Withdraw | Op::Put | Op::Fill | Op::RowSum => 1,
            _ => 0,
        }
    }

    /// What stands between the object of a request and its arguments: a point, the operation's word, and a parenthesis.
    #[inline(always)]
    pub fn opening(self) -> &'static [u8]
        ensures opening { result.now ≡ codes "." ++ word_of self ++ codes "(" }
        ensures short { length result.now ≤ 10 }
    {
        match self {
            Op::Deposit => b".deposit(",
            Op::Withdraw => b".withdraw(",
            Op::Balance => b".balance(",
            Op::Refused => b".refused(",
            Op::Put => b".put(",
            Op::DropFirst => b".drop(",
            Op::TakeFirst => b".take(",
            Op::First => b".front(",
            Op::Size => b".size(",
            Op::SetCell => b".set(",
            Op::AddCell => b".add(",
            Op::Fill => b".fill(",
            Op::GetCell => b".get(",
            Op::RowSum => b".row(",
        }
    }

    /// Its word in scripts and reports.
    #[inline(always)]
    pub fn word(self) -> &'static [u8]
        ensures word { result.now ≡ word_of self }
    {
        let opening = self.opening();
        &opening[1..opening.len() - 1]
    }

    /// What its arguments are, in words with a comma between each two, as a reader is told how a request is written.
    pub fn parameters(self) -> &'static [u8]
        ensures count { parts result.now ≡ arity_of self }
    {
        match self {
            Op::SetCell | Op::AddCell => b"row, column, n",
            Op::GetCell => b"row, column",
            Op::RowSum => b"row",
            Op::Deposit | Op::Withdraw | Op::Put | Op::Fill => b"n",
            _ => b"",
        }
    }
}

impl Kind {
    /// The operations that objects of this kind have, whatever its numbers: the commands before the queries.
    #[inline(always)]
    pub fn operations(self) -> &'static [Op]
        ensures operations { result.now ≡ operations_of self }
    {
        match self {
            Kind::Account { .. } => &[Op::Deposit, Op::Withdraw, Op::Balance, Op::Refused],
            Kind::Buffer { .. } => &[
                Op::Put,
                Op::DropFirst,
                Op::TakeFirst,
                Op::First,
                Op::Size,
                Op::Refused,
            ],
            Kind::Grid { .. } => &[
                Op::SetCell,
                Op::AddCell,
                Op::Fill,
                Op::GetCell,
                Op::RowSum,
                Op::Refused,
            ],
        }
    }
}
