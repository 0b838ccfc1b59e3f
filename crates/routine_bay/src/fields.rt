// Answers as one number of 64 bits.
ghost use Rattle.std.specs.Prelude.{◌≡◌};
ghost use Rattle.sheet.specs.Refusals.{numbers};
ghost use Rattle.routine_bay.specs.Fields.{fields, packed_report, verdict_report};

use sheet::Refusal;

// What follows are the C interface's numbers (docs/LINKING.md).
// In place of a word: no domain has the number that was given.
pub(crate) const NO_DOMAIN: u64 = 255;

// How a step came out, in the field of the way; 0 is at a place.
pub(crate) const ENDED: usize = 1;

pub(crate) const BY_ZERO: usize = 2;

pub(crate) const OUT_OF_RANGE: usize = 3;

// A number in bits 0 to 7, a place in bits 8 to 23, a way in bits 24 to 31, and a value in bits 32 to 63.
pub(crate) fn packed(number: usize, place: usize, way: usize, value: usize) -> u64
    ensures { result ≡ fields number place way value }
{
    let low = number % 256 + place % 65536 * 256;
    (low + way % 256 * 16777216 + value % 4294967296 * 4294967296) as u64
}

// The four numbers of a refusal.
pub(crate) fn refusal_word(refusal: Refusal) -> u64
    ensures { result ≡ packed_report (numbers refusal) }
{
    let report = refusal.report();
    packed(report.number, report.place, report.way, report.variable)
}

// The number of places of a sheet that is taken, or its refusal.
pub(crate) fn verdict_word(verdict: Result<usize, Refusal>) -> u64
    ensures { result ≡ packed_report (verdict_report verdict) }
{
    verdict.map_or_else(refusal_word, |places| packed(0, places, 0, 0))
}
