// Every entry can be read: its flag is 0 or 1, and each cell of a present one holds a value.
ghost use Rattle.std.specs.Prelude.{◌≡◌, ◌<◌};
ghost use Rattle.scan.specs.Scan.{up_to};
ghost use Rattle.checker.specs.Grids.{shown};
ghost use Rattle.checker.specs.Scans.{cell_right};
ghost use Rattle.rules.specs.Faults.{Meets};
ghost use Rattle.rules.specs.Tables.{entry_right, entries_right};

use crate::grids::{Entry, Grid};
use domain::Domain;
use sheet::Refusal;

impl Entry<'_, '_> {
    // The cell of a variable holds a value.
    fn check_cell<D: Domain>(&self, variable: usize) -> Result<(), Refusal>
        requires { variable < self.now.grid.now.sheet.variables }
        ensures { Meets result (cell_right D.Domain.ops (shown self.now.grid.now) self.now.place variable) }
    {
        let place = self.place;
        match D::read(self.cell(variable)) {
            Some(_) => Ok(()),
            None => Err(Refusal::CellUnreadable { place, variable }),
        }
    }

    // Every cell holds a value.
    fn check_cells<D: Domain>(&self) -> Result<(), Refusal>
        ensures { Meets result (up_to (cell_right D.Domain.ops (shown self.now.grid.now) self.now.place) self.now.grid.now.sheet.variables) }
    {
        // A `for`: of `try_for_each` over the numbers it was not proved what it answers.
        for variable in 0..self.grid.sheet.variables {
            self.check_cell::<D>(variable)?;
        }
        Ok(())
    }

    // The flag, and the cells where the entry is present.
    fn check<D: Domain>(&self) -> Result<(), Refusal>
        ensures { Meets result (entry_right D.Domain.ops (shown self.now.grid.now) self.now.place) }
    {
        match self.flag() {
            0 => Ok(()),
            1 => self.check_cells::<D>(),
            _ => Err(Refusal::EntryFlag { place: self.place }),
        }
    }
}

// Every entry, each finished before the next.
pub(crate) fn check_entries<D: Domain>(grid: &Grid<'_>) -> Result<(), Refusal>
    ensures { Meets result (entries_right D.Domain.ops (shown grid.now)) }
{
    // A `for`: of `try_for_each` over the numbers it was not proved what it answers.
    for place in 0..grid.sheet.places {
        let entry = Entry { grid, place };
        entry.check::<D>()?;
    }
    Ok(())
}
