// An input of a sheet: 9 bytes, its kind (0 reading, 1 setting), lo and hi.
ghost use Rattle.std.specs.Prelude.{◌≡◌};
ghost use Rattle.sheet.specs.Bytes.{AllBytes};
ghost use Rattle.sheet.specs.Inputs.{input_of};

use crate::refusals::Refusal;
use machine::{Input, InputKind};

// Reads the bytes of the input with this number.
pub(crate) fn read_input(number: usize, bytes: &[u8; 9]) -> Result<Input, Refusal>
    ensures value { result ≡ input_of number bytes.now }
    ensures bytes { AllBytes bytes.now }
{
    let [kind, l0, l1, l2, l3, h0, h1, h2, h3] = *bytes;
    let lo = i32::from_le_bytes([l0, l1, l2, l3]);
    let hi = i32::from_le_bytes([h0, h1, h2, h3]);
    let kind = InputKind::try_from(kind).or(Err(Refusal::InputRecord { input: number }))?;
    if lo > hi {
        return Err(Refusal::InputRecord { input: number });
    }
    Ok(Input { kind, lo, hi })
}
