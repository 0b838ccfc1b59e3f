// The flag and the cells of an entry, and the values in them.
ghost use Rattle.std.specs.Prelude.{◌≡◌, ◌+◌, ◌*◌, ◌<◌, length};
ghost use Rattle.checker.specs.Grids.{shown, claims_in};
ghost use Rattle.rules.specs.Tables.{entry_at, flag_at, cell_at};

use crate::grids::Entry;
use domain::Domain;
use scan::piece;

impl<'a> Entry<'_, 'a> {
    // The flag and the cells.
    fn bytes(&self) -> &'a [u8]
        ensures value { result.now ≡ entry_at (shown self.now.grid.now) self.now.place }
        ensures sized { length result.now ≡ 1 + self.now.grid.now.sheet.variables * self.now.grid.now.width }
    {
        let sheet = &self.grid.sheet;
        piece(sheet.table.bytes, self.grid.entry, sheet.places, self.place)
    }

    // The flag.
    pub(crate) fn flag(&self) -> u8
        ensures { result ≡ flag_at (shown self.now.grid.now) self.now.place }
    {
        self.bytes()[0]
    }

    // The cell of a variable. That there is one of this number is asked where a number comes in, here and below: a row's
    // variables are `Operands`, and others are counted from 0.
    pub(crate) fn cell(&self, variable: usize) -> &'a [u8]
        requires { variable < self.now.grid.now.sheet.variables }
        ensures { result.now ≡ cell_at (shown self.now.grid.now) self.now.place variable }
    {
        let (_, cells) = self.bytes().split_at(1);
        piece(cells, self.grid.width, self.grid.sheet.variables, variable)
    }

    // What the table claims of a variable here: the value in its cell.
    pub(crate) fn claimed<D: Domain>(&self, variable: usize) -> D
        requires { variable < self.now.grid.now.sheet.variables }
        ensures { result ≡ (claims_in D.Domain.ops self.now.grid.now).cell self.now.place variable }
    {
        D::read(self.cell(variable)).unwrap_or(D::anything())
    }

    // Whether the entry is present, whatever the domain.
    pub(crate) fn is_present<D: Domain>(&self) -> bool
        ensures { result ≡ (claims_in D.Domain.ops self.now.grid.now).present self.now.place }
    {
        self.flag() == 1
    }
}
