// A row of a sheet: 12 bytes. They are the kind, x, a code or an input, a, b, t, u, a zero byte,
// and n in four bytes.
ghost use Rattle.std.specs.Prelude.{◌≡◌};
ghost use Rattle.scan.specs.Scan.{up_to};
ghost use Rattle.sheet.specs.Bytes.{AllBytes};
ghost use Rattle.sheet.specs.Rows.{limits, row_byte, row_in, row_of};

use crate::refusals::Refusal;
use machine::Row;
use number::{Op, Relation};

// How many variables, inputs and places there are to name.
#[derive(Clone, Copy)]
pub struct Counts {
    pub variables: usize,
    pub inputs: usize,
    pub places: usize,
}

// What the bytes of a row stay below: how many there are of what each names, 1 where the kind does
// not use it, so that it is 0, and 256 where it is free.
fn byte_limits(counts: Counts, kind: u8) -> [usize; 12]
    ensures { result ≡ limits counts.variables counts.inputs counts.places kind }
{
    let v = counts.variables;
    let k = counts.inputs;
    let p = counts.places;
    match kind {
        0 => [5, 1, 1, 1, 1, 1, 1, 1, 1, 1, 1, 1],
        1 => [5, v, 1, 1, 1, p, 1, 1, 256, 256, 256, 256],
        2 => [5, v, k, 1, 1, p, 1, 1, 1, 1, 1, 1],
        3 => [5, v, 8, v, v, p, 1, 1, 1, 1, 1, 1],
        _ => [5, 1, 6, v, v, p, p, 1, 1, 1, 1, 1],
    }
}

// Names the lowest byte of the row at `place` that is not below its limit.
fn check_bytes(most: &[usize; 12], place: usize, bytes: &[u8; 12]) -> Result<(), Refusal>
    ensures { result ≡ up_to (row_byte most.now place bytes.now) 12 }
{
    let wrong = bytes
        .iter()
        .zip(most)
        .position(|(&byte, &limit)| usize::from(byte) >= limit);
    wrong.map_or(Ok(()), |byte| Err(Refusal::RowByte { place, byte }))
}

// What the bytes of a row say. A code that is none, which a row that was read has not, counts as 0.
pub(crate) fn decode_row(bytes: &[u8; 12]) -> Row
    ensures value { result ≡ row_in bytes.now }
    ensures bytes { AllBytes bytes.now }
{
    let [kind, x, code, a, b, t, u, _, n0, n1, n2, n3] = *bytes;
    match kind {
        0 => Row::End,
        1 => Row::Put {
            target: x,
            value: i32::from_le_bytes([n0, n1, n2, n3]),
            next: t,
        },
        2 => Row::Take {
            target: x,
            input: code,
            next: t,
        },
        3 => Row::Work {
            target: x,
            op: Op::try_from(code).unwrap_or(Op::Add),
            left: a,
            right: b,
            next: t,
        },
        _ => Row::Fork {
            relation: Relation::try_from(code).unwrap_or(Relation::Less),
            left: a,
            right: b,
            next: t,
            otherwise: u,
        },
    }
}

// Reads the bytes of the row at `place`.
pub(crate) fn read_row(counts: Counts, place: usize, bytes: &[u8; 12]) -> Result<Row, Refusal>
    ensures { result ≡ row_of counts.variables counts.inputs counts.places place bytes.now }
{
    check_bytes(&byte_limits(counts, bytes[0]), place, bytes)?;
    Ok(decode_row(bytes))
}
