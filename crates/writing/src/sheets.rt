// A whole sheet in bytes: the head, and behind it the inputs, the rows and the table.
ghost use Rattle.std.specs.Prelude.{◌≡◌, ℕ, ◌*◌, ◌≤◌, List, length, IfOk, Ok, vec_len};
ghost use Rattle.sheet.specs.Format.{row_bytes, input_bytes};
ghost use Rattle.sheet.specs.Sheets.{sheet_of};
ghost use Rattle.widening.specs.Widened.{sheet_bytes};
ghost use Rattle.writing.specs.Laid.{joined, laid_out, Sound};

use crate::records::{input_bytes, row_bytes};
use machine::{Input, MAX_INPUTS, MAX_PLACES, MAX_VARIABLES, Row};
use std::alloc::{AllocError, Global};
use widening::Head;

/// Why a sheet was not written.
#[derive(Clone, Copy)]
pub enum Unwritten {
    /// There are more variables, inputs or rows, or more bytes in the table, than a sheet can have.
    Large,
    /// There is not enough memory.
    Memory,
}

impl From<AllocError> for Unwritten {
    fn from(_e: AllocError) -> Unwritten {
        Unwritten::Memory
    }
}

// The most bytes of a table: more than 256 entries of 16 cells of 64 bytes.
const MOST: usize = 1_000_000;

// What a part is made of: records of N bytes.
trait Record<const N: usize>: Copy {
    ghost bytes: { Self → List ℕ };

    fn to_bytes(self) -> [u8; N]
        ensures { result ≡ bytes self };
}

impl Record<9> for Input {
    ghost bytes = { input_bytes };

    fn to_bytes(self) -> [u8; 9] {
        input_bytes(self)
    }
}

impl Record<12> for Row {
    ghost bytes = { row_bytes };

    fn to_bytes(self) -> [u8; 12] {
        row_bytes(self)
    }
}

// The bytes of all records of a part.
fn part_of<const N: usize, R: Record<N>>(heap: Global, records: &[R]) -> Result<Vec<u8>, AllocError>
    requires { N ≤ 12 }
    ensures bytes { IfOk result (λ v. v.items ≡ joined R.Record.bytes records.now) }
    ensures len { IfOk result (λ v. vec_len v ≡ length records.now * N) }
{
    let mut part = Vec::new(heap);
    for record in records {
        part.extend_from_slice(&record.to_bytes())?;
    }
    Ok(part)
}

/// The sheet of a routine and the bytes of its table. It is read as just its parts, if the routine is sound.
pub fn sheet_bytes(
    heap: Global,
    variables: usize,
    inputs: &[Input],
    rows: &[Row],
    table: &[u8],
) -> Result<Vec<u8>, Unwritten>
    ensures value { IfOk result (λ v. v.items ≡ sheet_bytes (laid_out variables inputs.now rows.now table.now)) }
    ensures read { IfOk result (λ v. Sound variables inputs.now rows.now → sheet_of v.items ≡ Ok (laid_out variables inputs.now rows.now table.now)) }
{
    if variables > MAX_VARIABLES
        || inputs.len() > MAX_INPUTS
        || rows.len() > MAX_PLACES
        || table.len() > MOST
    {
        return Err(Unwritten::Large);
    }
    let input_part = part_of(heap, inputs)?;
    let row_part = part_of(heap, rows)?;
    let head = Head {
        variables: variables as u8,
        input_count: inputs.len() as u8,
        inputs: input_part.len() as u32,
        rows: row_part.len() as u32,
        table: table.len() as u32,
    };
    let mut bytes = Vec::new(heap);
    bytes.extend_from_slice(&head.to_bytes())?;
    bytes.extend_from_slice(input_part.as_slice())?;
    bytes.extend_from_slice(row_part.as_slice())?;
    bytes.extend_from_slice(table)?;
    Ok(bytes)
}
