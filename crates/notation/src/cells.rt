// The cells of a table: values of a domain, or bytes alone.
ghost use Rattle.std.specs.Prelude.{◌≡◌, Some};
ghost use Rattle.notation.specs.Shipped.{cells_width, CellAdded, Told};
ghost use Rattle.notation.specs.Words.{cell_error_words};
ghost use Rattle.notation.specs.declared.cells.CellError.TheVariants.{NoValue, Memory};

use crate::digits::push_bytes;
use crate::shipped::push_value;
use catalog::DomainName;
use std::alloc::AllocError;
use std::error::Error;
use std::fmt;

/// How the cells of a table are written.
#[derive(Clone, Copy)]
pub enum Cells {
    /// As values of a domain.
    Values(DomainName),
    /// As this many bytes each.
    Bytes(usize),
}

/// Why no cell is added.
#[derive(Clone, Copy, PartialEq, Eq, Debug)]
pub enum CellError {
    /// The word is no value, and not just as many bytes as a cell has.
    NoValue,
    Memory,
}

impl Cells {
    /// How many bytes a cell has.
    pub fn width(self) -> usize
        ensures { result ≡ cells_width self }
    {
        match self {
            Cells::Values(name) => name.width(),
            Cells::Bytes(width) => width,
        }
    }

    /// Adds the cell that the word is: a value, or `#` and its bytes in hexadecimal.
    pub fn push(self, word: &str, out: &mut Vec<u8>) -> Result<(), CellError>
        ensures { Told (CellAdded self out.old.items out.new.items) result }
    {
        match word.strip_prefix('#') {
            Some(digits) => push_bytes(digits, self.width(), out),
            None => match self {
                Cells::Values(name) => push_value(name, word, out),
                Cells::Bytes(_) => Err(CellError::NoValue),
            },
        }
    }
}

impl From<AllocError> for CellError {
    ghost from_gives = { λ _ e. e ≡ Memory };

    fn from(_e: AllocError) -> Self {
        Self::Memory
    }
}

impl fmt::Display for CellError {
    ghost output = { λ error. Some (cell_error_words error) };

    fn fmt<W: fmt::Write>(&self, f: &mut fmt::Formatter<W>) -> fmt::Result {
        f.write_str(match self {
            CellError::NoValue => "no value of the domain, and not the bytes of a cell",
            CellError::Memory => "there is not enough memory",
        })
    }
}

impl Error for CellError {}
