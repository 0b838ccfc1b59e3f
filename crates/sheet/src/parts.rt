// The head, and the three parts that it lays out.
ghost use Rattle.std.specs.Prelude.{◌≡◌, ◌+◌, ◌<◌, ◌≤◌, length};
ghost use Rattle.sheet.specs.Bytes.{word_at};
ghost use Rattle.sheet.specs.Parts.{head_right, size_right, part_of};
ghost use Rattle.sheet.specs.PartNames.{part_number};
ghost use Rattle.sheet.specs.Regions.{region_in};

use crate::refusals::Refusal;

/// The three parts of a sheet, in their order.
#[derive(Clone, Copy, PartialEq, Eq, Debug)]
pub enum PartName {
    Inputs,
    Rows,
    Table,
}

impl From<PartName> for usize {
    ghost from_gives = { λ part number. number ≡ part_number part };

    fn from(part: PartName) -> usize {
        match part {
            PartName::Inputs => 0,
            PartName::Rows => 1,
            PartName::Table => 2,
        }
    }
}

/// A part of a sheet: the byte at which it begins, and its bytes.
#[derive(Clone, Copy)]
pub struct Part<'a> {
    pub at: usize,
    pub bytes: &'a [u8],
}

// A sheet has 28 to 1,048,576 bytes.
pub(crate) fn check_size(bytes: &[u8]) -> Result<(), Refusal>
    ensures { result ≡ size_right bytes.now }
{
    if bytes.len() < 28 || bytes.len() > 1_048_576 {
        return Err(Refusal::SheetSize);
    }
    Ok(())
}

// The head: version 1, 1 to 16 variables, at most 8 inputs, 0.
pub(crate) fn check_head(bytes: &[u8]) -> Result<(), Refusal>
    requires { 28 ≤ length bytes.now }
    ensures { result ≡ head_right bytes.now }
{
    if bytes[0] != 1 {
        return Err(Refusal::HeadByte { byte: 0 });
    }
    if bytes[1] < 1 || bytes[1] > 16 {
        return Err(Refusal::HeadByte { byte: 1 });
    }
    if bytes[2] > 8 {
        return Err(Refusal::HeadByte { byte: 2 });
    }
    if bytes[3] != 0 {
        return Err(Refusal::HeadByte { byte: 3 });
    }
    Ok(())
}

// The number in the four bytes from `at` on, the lowest first.
fn word(bytes: &[u8], at: usize) -> usize
    requires { at + 4 ≤ length bytes.now }
    ensures value { result ≡ word_at bytes.now at }
    ensures small { result < 4294967296 }
{
    u32::from_le_bytes([bytes[at], bytes[at + 1], bytes[at + 2], bytes[at + 3]]) as usize
}

// Lays out the part that its pair in the head gives: not before `before`, and inside the sheet.
pub(crate) fn lay_out(bytes: &[u8], part: PartName, before: usize) -> Result<Part<'_>, Refusal>
    requires { 28 ≤ length bytes.now }
    ensures { region_in result ≡ part_of bytes.now part before }
{
    let pair = 4 + 8 * usize::from(part);
    let at = word(bytes, pair);
    let len = word(bytes, pair + 4);
    if at < before || at + len > bytes.len() {
        return Err(Refusal::PartExtent { part: part.into() });
    }
    let (_, rest) = bytes.split_at(at);
    let (inside, _) = rest.split_at(len);
    Ok(Part { at, bytes: inside })
}
