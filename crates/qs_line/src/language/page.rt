// The page.

ghost use Rattle.std.specs.Prelude.{IfOk};
ghost use Rattle.qs_line.specs.language.Language.{IsLanguagePage};

use crate::language::operations::put_kind;
use crate::language::words::{head, tail};
use qs_diagnosis::put;
use qs_objects::Kind;
use std::alloc::{AllocError, Global};

/// The page that says the whole language of scripts: its head, the title of each kind of object and below it a line for
/// each of its operations, and its tail. An error says that an allocation failed, and nothing is left.
pub fn language_page(alloc: Global) -> Result<Vec<u8>, AllocError>
    ensures page { IfOk result (λ page. IsLanguagePage page.items) }
{
    let mut out = Vec::new(alloc);
    put(&mut out, head())?;
    put_kind(&mut out, Kind::Account { balance: 0 })?;
    put_kind(&mut out, Kind::Buffer { capacity: 1 })?;
    put_kind(
        &mut out,
        Kind::Grid {
            rows: 1,
            columns: 1,
        },
    )?;
    put(&mut out, tail())?;
    Ok(out)
}
