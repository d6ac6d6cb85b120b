//! When two objects are of one kind.

ghost use Rattle.std.specs.Prelude.{◌≡◌};
ghost use Rattle.qs_program.specs.audit.Kinds.{same_kind as are_of_one_kind};

use qs_objects::Kind;

/// Whether two kinds are one: account, buffer or grid, whatever their numbers.
pub fn same_kind(one: Kind, other: Kind) -> bool
    ensures value { result ≡ are_of_one_kind one other }
{
    match one {
        Kind::Account { .. } => matches!(other, Kind::Account { .. }),
        Kind::Buffer { .. } => matches!(other, Kind::Buffer { .. }),
        Kind::Grid { .. } => matches!(other, Kind::Grid { .. }),
    }
}
