// The bay for programs in other languages: functions over numbers and byte slices, which the crate `routine_bay_c` exports.
// `routine_bay_verdict` judges a sheet, `routine_bay_play` plays a list of calls on a bay; neither allocates or keeps anything.
// docs/LINKING.md has the layout of what they take and answer, c/routine_bay.h declares them for C.
#![tactic(auto)]

ghost use Rattle.catalog.specs.Domains.{named};
ghost use Rattle.routine_bay.specs.Named.{Answered, Tells};
ghost use Rattle.routine_bay.specs.Plays.{Plays};
ghost use Rattle.catalog.specs.declared.names.DomainName.TheVariants.{Spans};

mod fields;
mod named;
mod plays;
mod records;

use bay::Bay;
use catalog::{DomainName, Spans as SpansDomain};
use checker::verdict;
use fields::{NO_DOMAIN, verdict_word};
use named::judge;
use plays::perform;
use records::Call;

/// The verdict on a sheet in the domain that a number names, as four numbers in one: the rule that it breaks (0: it is
/// taken; 255: no domain has that number) in bits 0 to 7, the place (of a sheet that is taken, how many it has) in bits 8
/// to 23, the way in bits 24 to 31, and the variable in bits 32 to 63.
pub fn routine_bay_verdict(domain: u32, sheet: &[u8]) -> u64
    ensures { Answered (named domain) sheet.now result }
{
    match DomainName::try_from(domain) {
        Ok(name) => verdict_word(judge(name, sheet)),
        Err(_) => NO_DOMAIN,
    }
}

/// The same in spans, for who links no other domain.
pub fn routine_bay_verdict_in_spans(sheet: &[u8]) -> u64
    ensures { Tells Spans sheet.now result }
{
    verdict_word(verdict::<SpansDomain>(sheet))
}

/// Plays a list of calls on a bay that holds nothing at first, and writes a word for each answer. Answers how many calls
/// it made: all that stand whole in the list one after another, as far as there is room for their answers.
pub fn routine_bay_play(calls: &[u8], answers: &mut [u64]) -> usize
    ensures { Plays calls.now answers.old answers.new result }
{
    let mut bay = Bay::new();
    let mut rest = calls;
    for (count, answer) in answers.iter_mut().enumerate() {
        let Some((call, behind)) = Call::first(rest) else {
            return count;
        };
        *answer = perform(&mut bay, call);
        rest = behind;
    }
    answers.len()
}
