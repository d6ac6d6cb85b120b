// Faults of reading.

use crate::tokens::Token;
use std::alloc::AllocError;
use thiserror::Error;

/// Why a text is no script. A line is one more than the number of LF before the fault's place. A reading that fails
/// leaves nothing.
#[derive(Clone, Copy, Debug, PartialEq, Eq, Error)]
pub enum ReadFault {
    /// The text has more than 65,536 bytes. This is found before anything else.
    #[error("1 Size")]
    Size,
    /// A byte that begins no token, a `!` without `=` after it too. Its place is that byte.
    #[error("2 Byte line {line}")]
    Byte { line: u32 },
    /// A number of more than 18 digits. Its place is the first of them.
    #[error("3 Number line {line}")]
    Number { line: u32 },
    /// A name of more than 16 bytes. Its place is the first of them.
    #[error("4 Name line {line}")]
    Name { line: u32 },
    /// The tokens have no tree. Its place is the first token at which no script can go on, or the text's end.
    #[error("5 Form line {line}")]
    Form { line: u32 },
    /// Memory ran out.
    #[error("6 Memory")]
    Memory,
}

impl From<AllocError> for ReadFault {
    ghost use Rattle.std.specs.Prelude.{◌≡◌};
    ghost use Rattle.qs_script.specs.declared.fault.ReadFault.TheVariants.{Memory};

    ghost from_gives = { λ _ e. e ≡ Memory };

    fn from(_: AllocError) -> ReadFault {
        ReadFault::Memory
    }
}

// Why the parser made no tree: no script goes on at a token, and so many tokens were left there; or memory ran out.
#[derive(Drop)]
pub(crate) enum TreeFault {
    Form(usize),
    Memory,
}

impl From<AllocError> for TreeFault {
    ghost use Rattle.std.specs.Prelude.{◌≡◌};
    ghost use Rattle.qs_script.specs.declared.fault.TreeFault.TheVariants.{Memory};

    ghost from_gives = { λ _ e. e ≡ Memory };

    fn from(_: AllocError) -> TreeFault {
        TreeFault::Memory
    }
}

// What is read, and the tokens after it.
pub(crate) type Read<'t, T> = Result<(T, &'t [Token]), TreeFault>;

// The tokens after what is read.
pub(crate) type Rest<'t> = Result<&'t [Token], TreeFault>;
