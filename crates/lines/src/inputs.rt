// An input as text: its kind, and its set as `LO..HI`.
ghost use Rattle.std.specs.Prelude.{◌≤ℤ◌, IfOk};

use crate::mistakes::Reason;
use machine::{Input, InputKind};
use notation::integer;

/// The input that the words are.
pub fn input_of(words: &[&str]) -> Result<Input, Reason>
    ensures { IfOk result (λ i. i.lo ≤ℤ i.hi) }
{
    let [kind, set] = words else {
        return Err(Reason::InputForm);
    };
    let kind = match *kind {
        "reading" => InputKind::Reading,
        "setting" => InputKind::Setting,
        _ => return Err(Reason::InputForm),
    };
    let (lo, hi) = set.split_once("..").ok_or(Reason::InputForm)?;
    let lo = integer(lo).ok_or(Reason::Integer)?;
    let hi = integer(hi).ok_or(Reason::Integer)?;
    if lo > hi {
        return Err(Reason::InputEmpty);
    }
    Ok(Input { kind, lo, hi })
}
