// Calls on a bay, each answered by a word.
ghost use Rattle.std.specs.Prelude.{◌≡◌};
ghost use Rattle.bay.specs.Views.{view, finished, stepped, told};
ghost use Rattle.routine_bay.specs.Plays.{Performs, word_of};
ghost use Rattle.routine_bay.specs.Records.{asked};

use crate::fields::{BY_ZERO, ENDED, NO_DOMAIN, OUT_OF_RANGE, packed, refusal_word};
use crate::named;
use crate::records::Call;
use bay::{Bay, Shown};
use catalog::DomainName;
use machine::Outcome;
use number::Trap;
use sheet::Refusal;

// A call that is done or refused.
fn done_word(res: Result<(), Refusal>) -> u64
    ensures { result ≡ word_of (finished res) }
{
    res.map_or_else(refusal_word, |()| 0)
}

// How a step came out.
fn step_word(res: Result<Outcome, Refusal>) -> u64
    ensures { result ≡ word_of (stepped res) }
{
    res.map_or_else(refusal_word, |outcome| match outcome {
        Outcome::At { place } => packed(0, place, 0, 0),
        Outcome::Ended => packed(0, 0, ENDED, 0),
        Outcome::Trapped {
            trap: Trap::Zero,
            place,
        } => packed(0, place, BY_ZERO, 0),
        Outcome::Trapped {
            trap: Trap::Range,
            place,
        } => packed(0, place, OUT_OF_RANGE, 0),
    })
}

// What a bay shows.
fn show_word(res: Result<Shown, Refusal>) -> u64
    ensures { result ≡ word_of (told res) }
{
    res.map_or_else(refusal_word, |shown| {
        let value = shown.value.cast_unsigned() as usize;
        packed(0, shown.place, shown.running as usize, value)
    })
}

// Makes a call; one that offers in no domain changes nothing.
pub(crate) fn perform(bay: &mut Bay, call: Call<'_>) -> u64
    ensures { Performs (asked call.entry) (view bay.old) result (view bay.new) }
{
    match call {
        Call::Offer { domain, sheet } => match DomainName::try_from(u32::from(domain)) {
            Ok(name) => named::offer(name, bay, sheet),
            Err(_) => NO_DOMAIN,
        },
        Call::Start => done_word(bay.start()),
        Call::Set { number, value } => done_word(bay.set(number as usize, value)),
        Call::Step { value } => step_word(bay.step(value)),
        Call::Stop => done_word(bay.stop()),
        Call::Show { number } => show_word(bay.show(number as usize)),
    }
}
