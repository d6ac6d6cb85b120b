//! Names.

ghost use Rattle.std.specs.Prelude.{◌≡◌, ◌≤◌, ◌==◌, [], ◌∷◌, length, take};
ghost use Rattle.std.proofs.Common.{rules};
ghost use Rattle.std.specs.Cmp.Lexicographic.{pointwise};
ghost use Rattle.std.specs.Cmp.Rules.{comparing, hashing};
ghost use Rattle.qs_script.specs.audit.tokens.Limits.{longest_name};

use crate::tokens::limits::LONGEST_NAME;
use std::hash::{Hash, Hasher};
use std::marker::Model;

/// A name: at most sixteen bytes, kept in place. Contracts see it as the list of its bytes.
pub struct Name {
    bytes: [u8; LONGEST_NAME],
    len: u8,
}

impl Drop for Name {
    fn drop(self) {
        let Name { bytes: _, len: _ } = self;
    }
}

impl Model for Name {
    ghost use Rattle.std.specs.Prelude.{List, ℕ};

    ghost Value = { List ℕ };

    ghost use Rattle.qs_script.specs.tokens.Padding.{text_of, IsWithinBytes};

    ghost view = { text_of };

    ghost invariant = { IsWithinBytes };
}

impl Name {
    /// The name of these bytes.
    pub fn new(text: &[u8]) -> Name
        requires short { length text.now ≤ longest_name }
        ensures same { result ≡ text.now }
    {
        let mut bytes = [0; LONGEST_NAME];
        bytes[..text.len()].copy_from_slice(text);
        Name {
            bytes,
            len: text.len() as u8,
        }
    }

    /// The name that the first bytes of a text are.
    #[inline(always)]
    pub fn front(text: &[u8], end: usize) -> Name
        requires within { end ≤ length text.now }
        requires short { end ≤ longest_name }
        ensures same { result ≡ take end text.now }
    {
        match text.first_chunk::<LONGEST_NAME>() {
            Some(bytes) => Name {
                bytes: *bytes,
                len: end as u8,
            },
            None => Name::new(&text[..end]),
        }
    }

    /// The name's bytes.
    pub fn as_slice(&self) -> &[u8]
        ensures bytes { result.now ≡ self.now }
        ensures short { length result.now ≤ longest_name }
    {
        &self.bytes[..self.len as usize]
    }

    /// The same name once more. It takes no memory.
    pub fn copied(&self) -> Name
        ensures same { result ≡ self.now }
    {
        Name {
            bytes: self.bytes,
            len: self.len,
        }
    }
}

/// Two names are equal where their bytes are.
impl PartialEq for Name {
    ghost eq = { pointwise ◌==◌ };

    ghost laws = { Prim.search (comparing, rules) };

    fn eq(&self, other: &Name) -> bool {
        self.as_slice() == other.as_slice()
    }
}

impl Eq for Name {
    ghost laws = { Prim.search (comparing, rules) };
}

/// A name is hashed as one text, so equal names have the same hash.
impl Hash for Name {
    ghost hash_input = { λ n. n ∷ [] };

    ghost respects_eq = { Prim.search (hashing, rules) };

    fn hash<H: Hasher>(&self, state: &mut H) {
        state.write(self.as_slice());
    }
}
