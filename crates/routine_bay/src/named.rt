// What is done in the domain that a number names.
ghost use Rattle.std.specs.Prelude.{◌≡◌, Some, IfOk};
ghost use Rattle.rules.specs.Faults.{Meets};
ghost use Rattle.rules.specs.Safety.{SafeSheet};
ghost use Rattle.rules.specs.Tables.{verdict_of};
ghost use Rattle.bay.specs.Calls.{offer as offering};
ghost use Rattle.bay.specs.Views.{view};
ghost use Rattle.catalog.specs.Domains.{dom};
ghost use Rattle.routine_bay.specs.Named.{SafeIf};
ghost use Rattle.routine_bay.specs.Plays.{Performs};

use crate::fields::verdict_word;
use bay::Bay;
use catalog::{DomainName, InDomain};
use checker::verdict;
use domain::Domain;
use sheet::Refusal;

// A sheet to be judged.
#[derive(Clone, Copy)]
struct Judging<'a> {
    sheet: &'a [u8],
}

impl InDomain for Judging<'_> {
    type Answer = Result<usize, Refusal>;

    ghost gives = { λ d task res _. Meets res (verdict_of d.ops task.sheet.now) × IfOk res (λ _. SafeSheet d task.sheet.now) };

    fn run<D: Domain>(&mut self) -> Result<usize, Refusal> {
        verdict::<D>(self.sheet)
    }
}

// A sheet to be offered to a bay, which is told by a word.
#[derive(Drop)]
struct Offering<'a> {
    bay: &'a mut Bay,
    sheet: &'a [u8],
}

impl InDomain for Offering<'_> {
    type Answer = u64;

    ghost gives = { λ d before word after. Performs (Some (offering (verdict_of d.ops) before.sheet.now)) (view before.bay.now) word (view after.bay.now)
        × (after.bay.ghost_name ≡ before.bay.ghost_name) };

    fn run<D: Domain>(&mut self) -> u64 {
        verdict_word(self.bay.offer::<D>(self.sheet))
    }
}

/// The verdict on a sheet in the domain.
pub(crate) fn judge(domain: DomainName, sheet: &[u8]) -> Result<usize, Refusal>
    ensures value { Meets result (verdict_of (dom domain).ops sheet.now) }
    ensures safe { SafeIf domain sheet.now result }
{
    domain.run(&mut Judging { sheet })
}

/// Offers a sheet in the domain.
pub(crate) fn offer(domain: DomainName, bay: &mut Bay, sheet: &[u8]) -> u64
    ensures { Performs (Some (offering (verdict_of (dom domain).ops) sheet.now)) (view bay.old) result (view bay.new) }
{
    domain.run(&mut Offering { bay, sheet })
}
