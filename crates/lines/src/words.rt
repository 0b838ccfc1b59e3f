// The words of a line.
ghost use Rattle.std.specs.Prelude.{IfOk, SomeIff};
ghost use Rattle.notation.specs.Numbers.{decimal};
ghost use Rattle.lines.specs.Words.{without_last, IsNumbered, AreWordsOf};

use notation::number;
use std::alloc::{AllocError, Global};

/// The words of a line before its comment, which a `#` at the start of the line begins, or one that stands alone.
pub fn words_of(heap: Global, line: &str) -> Result<Vec<&str>, AllocError>
    ensures { IfOk result (λ v. AreWordsOf line.now v.items) }
{
    let mut words = Vec::new(heap);
    for word in line.split_whitespace() {
        if word == "#" || (words.is_empty() && word.starts_with('#')) {
            return Ok(words);
        }
        words.push(word)?;
    }
    Ok(words)
}

/// The number of a word that is a number and a colon.
pub fn numbered(word: &str) -> Option<usize>
    ensures { SomeIff result (IsNumbered word.now) (decimal (without_last word.now)) }
{
    number(word.strip_suffix(':')?)
}
