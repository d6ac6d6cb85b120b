// What the page says, but for the titles and how operations are called.

ghost use Rattle.qs_line.specs.language.Language.{IsHead, IsTail, IsWithinLine};

use qs_objects::{Kind, Op};

const HEAD: &[u8] = b"\
The language of scripts

A script declares objects, and clients that use them. A # begins a comment, up to the end of its line. A script in the
file my.script is played by `qs play < my.script`.

  object a account 100                  an object: its name, its kind, and the numbers that its kind has below
  client ann {                          a client, which runs its blocks one after another
    separate a b {                      a block: it reserves a and b, and no other client can use them until its }
      a.deposit(5);                     a command is sent, and the client goes on
      x = a.balance();                  a query is waited for, and its reply is always assigned
      y = x + 1;                        a value, or two values with one of +, - and * between them
      if x < 3 { .. } else { .. }       two values with ==, !=, <, <=, > or >=; `else { .. }` may be left out
      repeat 10 { .. }                  so many times: 0 to 1000, written as a number
      repeat 9 { if x == y { leave; } } `leave;` ends the innermost repeat
    }
  }
  template pay(account p, account q) { separate p q { .. } }    blocks over formals, which stand for objects
  client bob = pay(a, b)                a client with these blocks on a and b, and with variables of its own

The words on the right explain, and `..` stands for statements. An object is declared before it is used. It runs the
requests of a block in their order, and those of the next block after them: so a query sees all that its block sent
before, and a block all that the blocks before it left.

A value is a number or a variable, and so is each argument of a request, which is sent as it is then. Variables belong
to a client, begin at 0, and keep their values from block to block; `qs outcomes < my.script` shows them at the end, and
a report does not. Names are lower-case letters, digits and _, begin with a letter, and have at most 16 bytes; no names
are object, client, template, separate, if, else, repeat, leave, account, buffer and grid. Numbers have at most 18
digits, with a - where they are negative. A command that can't be done changes nothing, and its object counts it as
refused.

Kinds of objects, and their operations:
";

const TAIL: &[u8] = b"
Which client comes first is for the schedule to say, and blocks of others may come between two blocks of a client. A
block waits for nothing but its objects: a `put` on a full buffer is refused. The language has no wait conditions, no
separate blocks inside one another, no loops around blocks, no `while`, no `else if`, no queries inside expressions, no
numbers as formals, no texts, and no objects of your own kinds.
`qs --help` says what can be done with a script, and `qs WORD --help` its limits.
";

/// What stands before the kinds.
pub fn head() -> &'static [u8]
    ensures head { IsHead result.now }
{
    HEAD
}

/// What stands after them.
pub fn tail() -> &'static [u8]
    ensures tail { IsTail result.now }
{
    TAIL
}

/// What a declaration's numbers say of an object of a kind.
pub fn about(kind: Kind) -> &'static [u8]
    ensures within_line { IsWithinLine result.now }
{
    match kind {
        Kind::Account { .. } => b"with a balance N from 0 to 1000000000000000",
        Kind::Buffer { .. } => b"which starts empty and has room for N numbers, 1 to 1024",
        Kind::Grid { .. } => {
            b"with R rows and C columns of numbers, 1 to 16 each, all 0; rows and columns are counted from 0"
        }
    }
}

/// What an operation does, in a few words.
pub fn does(op: Op) -> &'static [u8]
    ensures within_line { IsWithinLine result.now }
{
    match op {
        Op::Deposit => b"adds n; refused where n < 0, or the balance would pass 1000000000000000",
        Op::Withdraw => b"takes n away; refused where n < 0, or where the balance is less",
        Op::Balance => b"the balance",
        Op::Put => b"puts n last; refused where the buffer is full",
        Op::DropFirst => b"takes the first number away; refused where there is none",
        Op::TakeFirst => b"takes the first number away, and answers it; 0 where there is none",
        Op::First => b"the first number; 0 where there is none",
        Op::Size => b"how many numbers there are",
        Op::SetCell => b"the cell becomes n; refused outside of the grid",
        Op::AddCell => b"adds n to the cell; refused outside of the grid",
        Op::Fill => b"each cell becomes n",
        Op::GetCell => b"the cell; 0 outside of the grid",
        Op::RowSum => b"the sum of a row; 0 outside of the grid",
        Op::Refused => b"how many commands the object has refused",
    }
}
