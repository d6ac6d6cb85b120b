//! Values in order, as a list.

ghost use Rattle.std.specs.Prelude.{◌≡◌, length};

use std::marker::Model;

/// Values in order, which contracts see as a list.
pub struct Sequence<T> {
    items: Vec<T>,
}

impl<T: Drop> Drop for Sequence<T> {
    fn drop(self) {
        let Sequence { items: _ } = self;
    }
}

impl<T> Model for Sequence<T> {
    ghost use Rattle.std.specs.Prelude.{List};
    ghost use Rattle.std.specs.Coded.{coded_list};

    ghost Value = { List T };

    ghost coded = { coded_list T.code };

    ghost view = { λ r. r.items.items };
}

impl<T> Sequence<T> {
    /// A sequence of these values; takes no memory.
    pub fn from_vec(items: Vec<T>) -> Sequence<T>
        ensures value { result ≡ items.items }
    {
        Sequence { items }
    }

    /// How many there are.
    pub fn len(&self) -> usize
        ensures value { result ≡ length self.now }
    {
        self.items.len()
    }

    /// The values.
    pub fn as_slice(&self) -> &[T]
        ensures value { result.now ≡ self.now }
    {
        self.items.as_slice()
    }
}
