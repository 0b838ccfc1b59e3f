// Bytes in hexadecimal, two digits each.
ghost use Rattle.std.specs.Prelude.{◌≡◌};
ghost use Rattle.notation.specs.Shipped.{BytesAdded, Told, cell_error};

use crate::cells::CellError;
use hex::FromHexError;
use std::fmt;

/// Bytes that print as hexadecimal digits.
#[derive(Clone, Copy)]
pub struct Hexadecimal<'a>(pub &'a [u8]);

impl fmt::Display for Hexadecimal<'_> {
    fn fmt<W: fmt::Write>(&self, f: &mut fmt::Formatter<W>) -> fmt::Result {
        for byte in self.0 {
            write!(f, "{byte:02x}")?;
        }
        Ok(())
    }
}

/// Adds the bytes that the digits are, which are just so many.
pub(crate) fn push_bytes(digits: &str, count: usize, out: &mut Vec<u8>) -> Result<(), CellError>
    ensures { Told (BytesAdded count out.old.items out.new.items) result }
{
    // Of another number of digits nothing is read, and no memory is asked for.
    if digits.len() / 2 != count {
        return Err(CellError::NoValue);
    }
    // The cells of sheets, of 64 bytes at most, are read with no memory but that of the table.
    let mut cell = [0u8; 64];
    match cell.get_mut(..count) {
        Some(bytes) => {
            hex::decode_to_slice(digits, bytes)?;
            out.extend_from_slice(bytes)?;
        }
        None => out.extend_from_slice(&hex::decode(*out.allocator(), digits)?)?,
    }
    Ok(())
}

impl From<FromHexError> for CellError {
    ghost from_gives = { λ e r. r ≡ cell_error e };

    fn from(e: FromHexError) -> CellError {
        match e {
            FromHexError::OutOfMemory => CellError::Memory,
            _ => CellError::NoValue,
        }
    }
}
