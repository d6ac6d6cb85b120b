//! Which desk it is.

use std::marker::Brand;

/// Which desk a value belongs to. One call of a program picks it, once the desk is made.
pub trait DeskName {
    ghost use Rattle.std.specs.Prelude.{List, ℕ};
    ghost use Rattle.atomic_table.specs.Seated.{TableId};
    ghost use Rattle.qs_program.specs.audit.Program.{ProgramShape};

    /// The program whose blocks are reserved.
    ghost program: { ProgramShape };

    /// The ticket queues, by handler.
    ghost queues: { List TableId };

    /// The ledgers of the shares, by client.
    ghost ledgers: { List ℕ };
}

impl DeskName for Brand {
    ghost use Rattle.std.specs.Prelude.{[]};

    ghost program = { record { objects = []; clients = [] } };

    ghost queues = { [] };

    ghost ledgers = { [] };
}
