// Reading and writing what a table holds.
ghost use Rattle.std.specs.Prelude.{◌≡◌, ◌<◌, [], ◌∷◌, ◌++◌, length, slice_set};
ghost use Rattle.std.specs.List.{slice_get};
ghost use Rattle.bay.specs.Tables.{held};

use super::Table;

impl<T: Copy, const N: usize> Table<T, N> {
    /// A table that holds nothing; the filler is what is left over.
    pub(crate) fn new(filler: T) -> Self
        ensures { held result ≡ [] }
    {
        Table {
            items: [filler; N],
            count: 0,
        }
    }

    /// The item with this number, if it is held.
    pub(crate) fn get(&self, number: usize) -> Option<T>
        ensures { result ≡ slice_get (held self.now) number }
    {
        self.items[..self.count].get(number).copied()
    }

    /// Changes the item with this number, if it is held.
    pub(crate) fn set(&mut self, number: usize, item: T)
        ensures { held self.new ≡ slice_set (held self.old) number item }
    {
        if number < self.count {
            self.items[number] = item;
        }
    }

    /// Holds nothing any more.
    pub(crate) fn clear(&mut self)
        ensures { held self.new ≡ [] }
    {
        self.count = 0;
    }

    /// Holds one item more.
    pub(crate) fn push(&mut self, item: T)
        requires { length (held self.old) < N }
        ensures { held self.new ≡ held self.old ++ item ∷ [] }
    {
        self.items[self.count] = item;
        self.count += 1;
    }
}
