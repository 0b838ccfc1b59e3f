// Entry 0 is present, and covers the variables as a run starts: all 0.
ghost use Rattle.std.specs.Prelude.{◌≡◌, ◌<◌};
ghost use Rattle.scan.specs.Scan.{up_to};
ghost use Rattle.rules.specs.Checks.{start_right};
ghost use Rattle.rules.specs.Faults.{Meets};
ghost use Rattle.checker.specs.Grids.{routine_in, claims_in};
ghost use Rattle.checker.specs.Scans.{start_cell};

use crate::grids::{Entry, Grid};
use domain::Domain;
use sheet::Refusal;

// Entry 0 covers the value of 0 for a variable.
fn check_zero<D: Domain>(grid: &Grid<'_>, variable: usize) -> Result<(), Refusal>
    requires { variable < grid.now.sheet.variables }
    ensures { Meets result (start_cell D.Domain.ops grid.now variable) }
{
    let start = Entry { grid, place: 0 };
    if D::covers(start.claimed::<D>(variable), D::value(0, 0)) {
        Ok(())
    } else {
        Err(Refusal::StartUncovered { variable })
    }
}

// Entry 0 covers the value of 0 for every variable.
fn check_zeros<D: Domain>(grid: &Grid<'_>) -> Result<(), Refusal>
    ensures { Meets result (up_to (start_cell D.Domain.ops grid.now) grid.now.sheet.variables) }
{
    // A `for`: of `try_for_each` over the numbers it was not proved what it answers.
    for variable in 0..grid.sheet.variables {
        check_zero::<D>(grid, variable)?;
    }
    Ok(())
}

pub(crate) fn check_start<D: Domain>(grid: &Grid<'_>) -> Result<(), Refusal>
    ensures { Meets result (start_right D.Domain.ops (routine_in grid.now) (claims_in D.Domain.ops grid.now)) }
{
    let start = Entry { grid, place: 0 };
    if !start.is_present::<D>() {
        return Err(Refusal::StartAbsent);
    }
    check_zeros::<D>(grid)
}
