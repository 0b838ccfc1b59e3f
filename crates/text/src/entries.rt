// The table as text: how its cells are written, and its entries.
use lines::Reason;
use notation::{CellError, Cells, DomainName, number};
use std::iter::repeat_n;

/// How the cells are written, by the words behind `table:`.
pub(crate) fn cells_of(words: &[&str]) -> Result<Cells, Reason> {
    match words {
        [name] => {
            let name: DomainName = name.parse().ok().ok_or(Reason::DomainUnknown)?;
            if name.width() == 0 {
                return Err(Reason::DomainCellless);
            }
            Ok(Cells::Values(name))
        }
        [width, "bytes", "a", "cell"] => {
            match number(width) {
                Some(width @ 1..=64) => Ok(Cells::Bytes(width)),
                _ => Err(Reason::CellWidth),
            }
        }
        _ => Err(Reason::TableForm),
    }
}

/// Adds the entry that the words are: `absent`, which is the flag 0 and zero bytes, or a cell for each variable,
/// before which a flag other than 1 stands.
pub(crate) fn push_entry(
    out: &mut Vec<u8>,
    cells: Cells,
    variables: usize,
    words: &[&str],
) -> Result<(), Reason> {
    match words {
        ["absent"] => {
            out.push(0)?;
            // One `repeat_n` of `variables * cells.width()` asks for a bound on widths, which `Cells` does not keep.
            for _ in 0..variables {
                out.extend(repeat_n(0, cells.width()))?;
            }
            Ok(())
        }
        ["flag", flag, words @ ..] => {
            let flag = number(flag).ok_or(Reason::EntryFlag)?;
            out.push(u8::try_from(flag).map_err(|_| Reason::EntryFlag)?)?;
            push_cells(out, cells, variables, words)
        }
        _ => {
            out.push(1)?;
            push_cells(out, cells, variables, words)
        }
    }
}

fn push_cells(
    out: &mut Vec<u8>,
    cells: Cells,
    variables: usize,
    words: &[&str],
) -> Result<(), Reason> {
    if words.len() != variables {
        return Err(Reason::CellCount { count: variables });
    }
    for (variable, word) in words.iter().enumerate() {
        cells.push(word, out).map_err(|e| match e {
            CellError::NoValue => Reason::Cell { variable },
            CellError::Memory => Reason::Memory,
        })?;
    }
    Ok(())
}
