// Decimal numbers, with no plus sign.
ghost use Rattle.std.specs.Prelude.{SomeIff};
ghost use Rattle.notation.specs.Numbers.{decimal, signed_decimal, IsInteger, IsNumber};

/// An integer of 32 bits, with no sign or a minus sign.
pub fn integer(word: &str) -> Option<i32>
    ensures { SomeIff result (IsInteger word.now) (signed_decimal word.now) }
{
    if word.starts_with('+') {
        return None;
    }
    word.parse::<i32>().ok()
}

/// A number from 0 to 2147483647, with no sign.
pub fn number(word: &str) -> Option<usize>
    ensures { SomeIff result (IsNumber word.now) (decimal word.now) }
{
    let value = integer(word)?;
    if value < 0 || word.starts_with('-') {
        return None;
    }
    Some(value as usize)
}
