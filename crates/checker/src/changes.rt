// A way out of a place, and what changes on it.
ghost use Rattle.std.specs.Prelude.{◌<◌};

use crate::grids::Entry;

/// The variables that a way changes, with their values on it: none, one or two.
#[derive(Clone, Copy)]
pub enum Change<D> {
    Nothing,
    One {
        variable: usize,
        value: D,
    },
    Two {
        left: usize,
        first: D,
        right: usize,
        second: D,
    },
}

/// A way out of the place of an entry: its number, what it changes, and the place that it leads to.
#[derive(Drop)]
pub struct Way<'g, 'a, D> {
    pub from: Entry<'g, 'a>,
    pub number: usize,
    pub change: Change<D>,
    pub next: usize,
    ghost to: { next < from.grid.now.sheet.places },
}
