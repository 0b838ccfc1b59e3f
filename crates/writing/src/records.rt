// The bytes of a row and of an input.
ghost use Rattle.std.specs.Prelude.{◌≡◌};
ghost use Rattle.sheet.specs.Format.{row_bytes, input_bytes};

use machine::{Input, Row};

/// The 12 bytes of a row: kind, x, code or input, a, b, t, u, 0, n.
pub fn row_bytes(row: Row) -> [u8; 12]
    ensures { result ≡ row_bytes row }
{
    match row {
        Row::End => [0, 0, 0, 0, 0, 0, 0, 0, 0, 0, 0, 0],
        Row::Put {
            target,
            value,
            next,
        } => {
            let [n0, n1, n2, n3] = value.to_le_bytes();
            [1, target, 0, 0, 0, next, 0, 0, n0, n1, n2, n3]
        }
        Row::Take {
            target,
            input,
            next,
        } => [2, target, input, 0, 0, next, 0, 0, 0, 0, 0, 0],
        Row::Work {
            target,
            op,
            left,
            right,
            next,
        } => [3, target, u8::from(op), left, right, next, 0, 0, 0, 0, 0, 0],
        Row::Fork {
            relation,
            left,
            right,
            next,
            otherwise,
        } => {
            let code = u8::from(relation);
            [4, 0, code, left, right, next, otherwise, 0, 0, 0, 0, 0]
        }
    }
}

/// The 9 bytes of an input: kind, lo, hi.
pub fn input_bytes(input: Input) -> [u8; 9]
    ensures { result ≡ input_bytes input }
{
    let [l0, l1, l2, l3] = input.lo.to_le_bytes();
    let [h0, h1, h2, h3] = input.hi.to_le_bytes();
    [u8::from(input.kind), l0, l1, l2, l3, h0, h1, h2, h3]
}
