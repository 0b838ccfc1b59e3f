// The verdict on a sheet.
ghost use Rattle.std.specs.Prelude.{◌≡◌, IfOk, OnOk};
ghost use Rattle.sheet.specs.Format.{WellFormed};
ghost use Rattle.sheet.specs.Views.{seen};
ghost use Rattle.domain.specs.Carrier.{as_dom};
ghost use Rattle.rules.specs.Faults.{Meets};
ghost use Rattle.rules.specs.Safety.{SafeParts, SafeSheet};
ghost use Rattle.rules.specs.Tables.{table_right, verdict_of};
ghost use Rattle.checker.specs.Grids.{parts_in, places_in};
ghost use Rattle.checker.specs.Scans.{claims_right, table_holds};

use crate::entries::check_entries;
use crate::grids::Grid;
use crate::places::check_places;
use crate::starts::check_start;
use domain::Domain;
use sheet::{Refusal, Sheet};

// The table of a sheet that has been read holds for its routine.
fn check_table<D: Domain>(sheet: Sheet<'_>) -> Result<(), Refusal>
    ensures { Meets result (table_right D.Domain.ops (seen sheet.entry)) }
{
    let width = D::width();
    if width == 0 {
        return Err(Refusal::NoWidth);
    }
    let entry = 1 + sheet.variables * width;
    if sheet.table.bytes.len() != sheet.places * entry {
        return Err(Refusal::TableSize);
    }
    let grid = Grid {
        sheet,
        width,
        entry,
    };
    check_grid::<D>(&grid)
}

// Every entry can be read, and what they claim holds.
fn check_grid<D: Domain>(grid: &Grid<'_>) -> Result<(), Refusal>
    ensures { Meets result (table_holds D.Domain.ops (parts_in grid.now) grid.now.width) }
{
    check_entries::<D>(grid)?;
    check_claims::<D>(grid)
}

// What the table claims holds at the start and along every way.
fn check_claims<D: Domain>(grid: &Grid<'_>) -> Result<(), Refusal>
    ensures { Meets result (claims_right D.Domain.ops grid.now) }
{
    check_start::<D>(grid)?;
    check_places::<D>(grid)
}

// The format, and then the table.
fn judge<D: Domain>(bytes: &[u8]) -> Result<Sheet<'_>, Refusal>
    ensures value { Meets (places_in result) (verdict_of D.Domain.ops bytes.now) }
    ensures formed { IfOk result (λ s. WellFormed bytes.now (seen s)) }
{
    let sheet = Sheet::read(bytes)?;
    check_table::<D>(sheet)?;
    Ok(sheet)
}

/// The sheet that the bytes are, if it is taken in a domain; else the first rule that it breaks.
/// Its routine is safe: its table describes every state that it reaches, and none traps.
pub fn taken<D: Domain>(bytes: &[u8]) -> Result<Sheet<'_>, Refusal>
    ensures value { Meets (places_in result) (verdict_of D.Domain.ops bytes.now) }
    ensures formed { IfOk result (λ s. WellFormed bytes.now (seen s)) }
    ensures safe { IfOk result (λ s. SafeParts (as_dom D D.Domain.describes D.Domain.ops) (seen s)) }
{
    judge::<D>(bytes)
}

/// The verdict on a sheet in a domain: taken, with its number of places, or the first rule that it breaks.
/// A routine that is taken is safe: its table describes every state that it reaches, and none traps.
pub fn verdict<D: Domain>(bytes: &[u8]) -> Result<usize, Refusal>
    ensures value { Meets result (verdict_of D.Domain.ops bytes.now) }
    ensures safe { OnOk result (SafeSheet (as_dom D D.Domain.describes D.Domain.ops) bytes.now) }
{
    let sheet = taken::<D>(bytes)?;
    Ok(sheet.places)
}
