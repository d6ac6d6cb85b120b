//! How a name is hashed: over few of its bytes, as at most sixteen names stand in one set.

ghost use Rattle.std.specs.Prelude.{◌≡◌};
ghost use Rattle.qs_program.specs.Hashing.{hash_of, initial};

use std::hash::Hasher;

/// The hash of the name that was written last.
#[derive(Clone, Copy)]
pub struct NameHasher {
    state: u64,
}

impl Default for NameHasher {
    ghost is_default = { λ s. s ≡ initial };

    fn default() -> NameHasher {
        NameHasher { state: 0 }
    }
}

// Names that differ in their first or their last byte mostly have different hashes: by the eight highest of 32 bits a
// set tells names apart that lie in one group, and by the lowest it picks the group.
#[inline(always)]
fn hash(text: &[u8]) -> u64
    ensures value { result ≡ hash_of text.now }
{
    let count = text.len();
    if count == 0 {
        return 0;
    }
    let first = u64::from(text[0]);
    let last = u64::from(text[count - 1]);
    (4 * first + last) % 256 * 0x100_0000 + last
}

impl Hasher for NameHasher {
    ghost write = { λ _ text. record { state = hash_of text } };

    ghost finish = { λ s. s.state };

    #[inline(always)]
    fn finish(&self) -> u64 {
        self.state
    }

    #[inline(always)]
    fn write(&mut self, bytes: &[u8]) {
        self.state = hash(bytes);
    }
}
