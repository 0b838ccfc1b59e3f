// The static library: the functions of `routine_bay` under the names by which programs in other languages call them.
// Each promises what the function that it calls promises, and does nothing besides.
// c/routine_bay.h declares them for C, docs/LINKING.md has the layout of what they take and answer.
#![tactic(auto)]

ghost use Rattle.catalog.specs.Domains.{named};
ghost use Rattle.routine_bay.specs.Named.{Answered, Tells};
ghost use Rattle.routine_bay.specs.Plays.{Plays};
ghost use Rattle.catalog.specs.declared.names.DomainName.TheVariants.{Spans};

/// The verdict on a sheet in the domain that a number names, as four numbers in one.
#[unsafe(no_mangle)]
pub extern "C" fn routine_bay_verdict(domain: u32, sheet: &[u8]) -> u64
    ensures { Answered (named domain) sheet.now result }
{
    routine_bay::routine_bay_verdict(domain, sheet)
}

/// The same in spans, for who links no other domain.
#[unsafe(no_mangle)]
pub extern "C" fn routine_bay_verdict_in_spans(sheet: &[u8]) -> u64
    ensures { Tells Spans sheet.now result }
{
    routine_bay::routine_bay_verdict_in_spans(sheet)
}

/// Plays a list of calls on a bay that holds nothing at first, and writes a word for each answer.
#[unsafe(no_mangle)]
pub extern "C" fn routine_bay_play(calls: &[u8], answers: &mut [u64]) -> usize
    ensures { Plays calls.now answers.old answers.new result }
{
    routine_bay::routine_bay_play(calls, answers)
}
