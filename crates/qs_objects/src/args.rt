// The arguments of a request.

ghost use Rattle.std.specs.Prelude.{◌≡◌, ◌≤◌, List, [], ◌∷◌, ◌++◌, length, true, false, if◌then◌else◌, nat_lt, take, slice_index_or, pos};

use smallvec::SmallVec;
use std::alloc::Global;
use std::marker::Model;
use std::mem::forget;

/// At most three numbers, which lie in the value itself, so that no call takes memory.
pub struct Args {
    numbers: SmallVec<i64, 3>,
}

impl Drop for Args {
    // The numbers lie in the value itself, so there is no memory to give back, and nobody has to look at them. A long
    // list of requests is dropped without a look at each.
    fn drop(self) {
        let Args { numbers } = self;
        forget(numbers);
    }
}

impl Model for Args {
    ghost use Rattle.std.specs.Prelude.{◌≡◌, ◌≤◌, List, ℤ, length};

    ghost Value = { List ℤ };

    ghost view = { λ a. a.numbers.items };

    ghost invariant = { λ a. (length a.numbers.items ≤ 3) × (a.numbers.capacity ≡ 3) };
}

// The number at a place, or 0 where there is none.
#[inline(always)]
fn number_at(numbers: &[i64], place: usize) -> i64
    ensures value { result ≡ slice_index_or numbers.now place (pos 0) }
{
    if place < numbers.len() {
        numbers[place]
    } else {
        0
    }
}

impl Args {
    /// No arguments.
    pub fn new(alloc: Global) -> Args
        ensures empty { result ≡ [] }
    {
        Args {
            numbers: SmallVec::new(alloc),
        }
    }

    /// The first `len` of three numbers.
    #[inline(always)]
    pub fn of(alloc: Global, numbers: [i64; 3], len: usize) -> Args
        requires few { len ≤ 3 }
        ensures value { result ≡ take len numbers }
    {
        let mut all = SmallVec::from_buf(alloc, numbers);
        if len < 3 {
            all.pop();
        }
        if len < 2 {
            all.pop();
        }
        if len < 1 {
            all.pop();
        }
        Args { numbers: all }
    }

    /// Adds a number at the end. Answers false exactly where three are there, and changes nothing then.
    pub fn push(&mut self, number: i64) -> bool
        ensures answer { result ≡ nat_lt (length self.old) 3 }
        ensures change { self.new
            ≡ (if nat_lt (length self.old) 3 then self.old ++ number ∷ [] else self.old) }
    {
        if self.numbers.len() == 3 {
            return false;
        }
        self.numbers.push_reserved(number);
        true
    }

    /// The numbers in order, at most three.
    #[inline(always)]
    pub fn as_slice(&self) -> &[i64]
        ensures numbers { result.now ≡ self.now }
        ensures at_most_three { length self.now ≤ 3 }
    {
        self.numbers.as_slice()
    }

    /// The same numbers once more; takes no memory.
    #[inline(always)]
    pub fn copied(&self) -> Args
        ensures same { result ≡ self.now }
    {
        let numbers = self.numbers.as_slice();
        let alloc = *self.numbers.allocator();
        let all = [
            number_at(numbers, 0),
            number_at(numbers, 1),
            number_at(numbers, 2),
        ];
        Args::of(alloc, all, numbers.len())
    }
}
