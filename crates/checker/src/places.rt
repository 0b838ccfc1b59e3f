// A place: the warnings of its row, and then each way out of it.
ghost use Rattle.std.specs.Prelude.{◌≡◌, ◌<◌};
ghost use Rattle.machine.specs.declared.Row.TheVariants.{Work, Fork};
ghost use Rattle.rules.specs.Checks.{place_right, places_right};
ghost use Rattle.rules.specs.Faults.{Meets};
ghost use Rattle.checker.specs.Grids.{routine_in, claims_in};
ghost use Rattle.checker.specs.Scans.{assignment_right, fork_right, narrowed_to, row_right, place_checked};

use crate::changes::{Change, Way};
use crate::grids::{Entry, Grid, Operands};
use crate::routes::{input_on, row_on};
use domain::Domain;
use machine::Row;
use number::{Op, Relation};
use sheet::Refusal;

impl Entry<'_, '_> {
    // A variable is set to a value on the only way out of the place.
    fn check_assignment<D: Domain>(&self, variable: u8, value: D, next: u8) -> Result<(), Refusal>
        requires { next < self.now.grid.now.sheet.places }
        ensures { Meets result (assignment_right D.Domain.ops self.now.grid.now self.now.place variable value next) }
    {
        let way = Way {
            from: *self,
            number: 0,
            change: Change::One {
                variable: variable as usize,
                value,
            },
            next: next as usize,
        };
        way.check()
    }
}

impl Operands<'_, '_> {
    // A work row may not warn of zero, then not of range; then it sets its variable to the result.
    fn check_work<D: Domain>(&self, target: u8, op: Op, next: u8) -> Result<(), Refusal>
        requires { next < self.now.entry.grid.now.sheet.places }
        ensures { Meets result (row_right D.Domain.ops self.now.entry.grid.now self.now.entry.place (Work target op self.now.left self.now.right next)) }
    {
        let place = self.entry.place;
        let a = self.entry.claimed::<D>(self.left as usize);
        let b = self.entry.claimed::<D>(self.right as usize);
        let (value, zero, range) = D::work(op, a, b);
        if zero {
            return Err(Refusal::ZeroWarning { place });
        }
        if range {
            return Err(Refusal::RangeWarning { place });
        }
        self.entry.check_assignment::<D>(target, value, next)
    }

    // What both operands of a fork change to where the relation holds; none where the way is passed over.
    fn narrowed<D: Domain>(&self, relation: Relation) -> Option<Change<D>>
        ensures { result ≡ narrowed_to D.Domain.ops ((claims_in D.Domain.ops self.now.entry.grid.now).cell self.now.entry.place) relation self.now.left self.now.right }
    {
        if self.left == self.right {
            return Some(Change::Nothing);
        }
        let a = self.entry.claimed::<D>(self.left as usize);
        let b = self.entry.claimed::<D>(self.right as usize);
        Some(Change::Two {
            left: self.left as usize,
            first: D::narrow(a, relation, b)?,
            right: self.right as usize,
            second: D::narrow(b, relation.mirrored(), a)?,
        })
    }

    // A way of a fork on which the relation holds.
    fn check_fork<D: Domain>(
        &self,
        number: usize,
        relation: Relation,
        next: u8,
    ) -> Result<(), Refusal>
        requires { next < self.now.entry.grid.now.sheet.places }
        ensures { Meets result (fork_right D.Domain.ops self.now.entry.grid.now self.now.entry.place number relation self.now.left self.now.right next) }
    {
        let Some(change) = self.narrowed::<D>(relation) else {
            return Ok(());
        };
        let way = Way {
            from: self.entry,
            number,
            change,
            next: next as usize,
        };
        way.check()
    }

    // Both ways of a fork: the relation holds on the first, its opposite on the second.
    fn check_both<D: Domain>(
        &self,
        relation: Relation,
        next: u8,
        otherwise: u8,
    ) -> Result<(), Refusal>
        requires { (next < self.now.entry.grid.now.sheet.places) × (otherwise < self.now.entry.grid.now.sheet.places) }
        ensures { Meets result (row_right D.Domain.ops self.now.entry.grid.now self.now.entry.place (Fork relation self.now.left self.now.right next otherwise)) }
    {
        self.check_fork::<D>(0, relation, next)?;
        self.check_fork::<D>(1, relation.opposite(), otherwise)
    }
}

impl Entry<'_, '_> {
    // The row at the place.
    fn check_row<D: Domain>(&self) -> Result<(), Refusal>
        ensures { Meets result (place_right D.Domain.ops (routine_in self.now.grid.now) (claims_in D.Domain.ops self.now.grid.now) self.now.place) }
    {
        let sheet = &self.grid.sheet;
        match row_on(sheet, self.place) {
            Row::End => Ok(()),
            Row::Put {
                target,
                value,
                next,
            } => { self.check_assignment::<D>(target, D::value(value, value), next) }
            Row::Take {
                target,
                input,
                next,
            } => {
                let input = input_on(sheet, input as usize);
                self.check_assignment::<D>(target, D::value(input.lo, input.hi), next)
            }
            Row::Work {
                target,
                op,
                left,
                right,
                next,
            } => {
                let operands = Operands {
                    entry: *self,
                    left,
                    right,
                };
                operands.check_work::<D>(target, op, next)
            }
            Row::Fork {
                relation,
                left,
                right,
                next,
                otherwise,
            } => {
                let operands = Operands {
                    entry: *self,
                    left,
                    right,
                };
                operands.check_both::<D>(relation, next, otherwise)
            }
        }
    }

    // The row at the place, where the entry is present.
    fn check_present<D: Domain>(&self) -> Result<(), Refusal>
        ensures { Meets result (place_checked D.Domain.ops self.now.grid.now self.now.place) }
    {
        if self.is_present::<D>() {
            self.check_row::<D>()
        } else {
            Ok(())
        }
    }
}

// Every place with a present entry, in rising order.
pub(crate) fn check_places<D: Domain>(grid: &Grid<'_>) -> Result<(), Refusal>
    ensures { Meets result (places_right D.Domain.ops (routine_in grid.now) (claims_in D.Domain.ops grid.now) grid.now.sheet.places) }
{
    // A `for`: of `try_for_each` over the numbers it was not proved what it answers.
    for place in 0..grid.sheet.places {
        let entry = Entry { grid, place };
        entry.check_present::<D>()?;
    }
    Ok(())
}
