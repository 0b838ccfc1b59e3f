// Where a way leads: the entry gone to is present, and covers every variable.
ghost use Rattle.std.specs.Prelude.{◌≡◌, ◌<◌, true, false, MatchOption};
ghost use Rattle.rules.specs.Checks.{all_below, lands};
ghost use Rattle.rules.specs.Faults.{Meets};
ghost use Rattle.rules.specs.Ways.{go};
ghost use Rattle.checker.specs.Changes.{after, covers, Untouched, ChangesCovered, LandsWell};
ghost use Rattle.checker.specs.Grids.{routine_in, claims_in};

use crate::changes::{Change, Way};
use crate::grids::Entry;
use domain::Domain;
use scan::same_bytes;
use sheet::Refusal;

// Whether two cells of a domain are known to hold the same bytes. The length, which is always the width, is a constant of
// the domain that the compiler then knows.
fn same_cell<D: Domain>(a: &[u8], b: &[u8]) -> bool
    ensures { result ≡ true → a.now ≡ b.now }
{
    let width = D::width();
    a.len() == width && b.len() == width && same_bytes(a, b)
}

impl<'g, 'a, D: Domain> Way<'g, 'a, D> {
    // The entry that the way leads to.
    fn to(&self) -> Entry<'g, 'a>
        ensures grid { result.grid.now ≡ self.now.from.grid.now }
        ensures place { result.place ≡ self.now.next }
    {
        Entry {
            grid: self.from.grid,
            place: self.next,
        }
    }

    // What a variable may be on the way.
    fn value(&self, variable: usize) -> D
        requires { variable < self.now.from.grid.now.sheet.variables }
        ensures { result ≡ after ((claims_in D.Domain.ops self.now.from.grid.now).cell self.now.from.place) self.now.change variable }
    {
        match self.change {
            Change::One { variable: x, value } if variable == x => value,
            Change::Two { right, second, .. } if variable == right => second,
            Change::Two { left, first, .. } if variable == left => first,
            _ => self.from.claimed::<D>(variable),
        }
    }

    // Whether the entry gone to covers a variable as the way changes it. Inlined, as the next is: else a verdict on forks in
    // spans takes a fourth more instructions.
    #[inline(always)]
    fn is_covered(&self, variable: usize) -> bool
        requires { variable < self.now.from.grid.now.sheet.variables }
        ensures { result ≡ covers D.Domain.ops self.now variable }
    {
        D::covers(self.to().claimed::<D>(variable), self.value(variable))
    }

    // The same of a variable that the routine may not have.
    #[inline(always)]
    fn is_covered_if_any(&self, variable: usize) -> bool
        ensures { result ≡ true → variable < self.now.from.grid.now.sheet.variables → covers D.Domain.ops self.now variable ≡ true }
    {
        variable >= self.from.grid.sheet.variables || self.is_covered(variable)
    }

    // Whether the entry gone to is found to cover what the way changes.
    fn are_changes_covered(&self) -> bool
        ensures { result ≡ true → ChangesCovered D.Domain.ops self.now }
    {
        match self.change {
            Change::Nothing => true,
            Change::One { variable, .. } => self.is_covered_if_any(variable),
            Change::Two { left, right, .. } => {
                self.is_covered_if_any(left) && self.is_covered_if_any(right)
            }
        }
    }

    // Whether the entry gone to is found to cover a variable, if the way leaves it as it is. A value covers itself, so it need
    // not be read where both entries hold the same bytes.
    fn is_kept(&self, variable: usize) -> bool
        requires { variable < self.now.from.grid.now.sheet.variables }
        ensures { result ≡ true → Untouched self.now.change variable → covers D.Domain.ops self.now variable ≡ true }
    {
        same_cell::<D>(self.from.cell(variable), self.to().cell(variable))
            || self.is_covered(variable)
    }

    // Whether the entry gone to is found to cover every variable.
    fn all_covered(&self) -> bool
        ensures { result ≡ true → all_below (covers D.Domain.ops self.now) self.now.from.grid.now.sheet.variables ≡ true }
    {
        let variables = self.from.grid.sheet.variables;
        self.are_changes_covered() && (0..variables).all(|variable| self.is_kept(variable))
    }

    // The lowest variable that the entry gone to does not cover, if there is one.
    fn first_uncovered(&self) -> Option<usize>
        ensures { MatchOption result (all_below (covers D.Domain.ops self.now) self.now.from.grid.now.sheet.variables ≡ true) (λ x. (x < self.now.from.grid.now.sheet.variables) × (covers D.Domain.ops self.now x ≡ false)) }
    {
        (0..self.from.grid.sheet.variables).find(|variable| !self.is_covered(*variable))
    }

    // Whether the entry gone to is present and found to cover every variable.
    fn lands_well(&self) -> bool
        ensures { result ≡ true → LandsWell D.Domain.ops self.now }
    {
        self.to().is_present::<D>() && self.all_covered()
    }

    // What is wrong with the way, if anything is.
    fn find_fault(&self) -> Result<(), Refusal>
        ensures { Meets result (lands D.Domain.ops (routine_in self.now.from.grid.now) (claims_in D.Domain.ops self.now.from.grid.now) self.now.from.place self.now.number (go self.now.next (after ((claims_in D.Domain.ops self.now.from.grid.now).cell self.now.from.place) self.now.change))) }
    {
        let place = self.from.place;
        let way = self.number;
        if !self.to().is_present::<D>() {
            return Err(Refusal::EntryAbsent { place, way });
        }
        match self.first_uncovered() {
            Some(variable) => Err(Refusal::NotCovered {
                place,
                way,
                variable,
            }),
            None => Ok(()),
        }
    }

    // The way lands well. Most ways do, which is soon seen; where one does not seem to, it is looked at again for what is wrong.
    pub(crate) fn check(&self) -> Result<(), Refusal>
        ensures { Meets result (lands D.Domain.ops (routine_in self.now.from.grid.now) (claims_in D.Domain.ops self.now.from.grid.now) self.now.from.place self.now.number (go self.now.next (after ((claims_in D.Domain.ops self.now.from.grid.now).cell self.now.from.place) self.now.change))) }
    {
        if self.lands_well() {
            return Ok(());
        }
        self.find_fault()
    }
}
