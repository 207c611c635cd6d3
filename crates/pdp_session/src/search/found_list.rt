ghost use Rattle.std.specs.Prelude.{◌≡◌, length, slice_get};

use std::marker::Model;

/// What a search listed, in its order. A contract sees the list of it.
#[derive(Drop)]
pub struct FoundList<T> {
    items: Vec<T>,
}

impl<T> Model for FoundList<T> {
    ghost use Rattle.std.specs.Prelude.{List};

    ghost Value = { List T };

    ghost view = { λ l. l.items.items };
}

impl<T: Copy> FoundList<T> {
    /// These items.
    pub fn new(items: Vec<T>) -> FoundList<T>
        ensures { result ≡ items.items }
    {
        FoundList { items }
    }

    /// How many there are.
    pub fn len(&self) -> usize
        ensures { result ≡ length self.now }
    {
        self.items.len()
    }

    /// The item of this index, counted from 0; `None` past the last.
    pub fn item(&self, index: usize) -> Option<T>
        ensures { result ≡ slice_get self.now index }
    {
        self.items.get(index).copied()
    }
}
