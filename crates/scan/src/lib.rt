// What every check is made of: the first refusal of a scan, and the records of a part.
// A scan asks one question of each index below a count, in rising order, and stops at the first refusal.
// A part is a run of records of one size; `piece` hands out one of them.
#![tactic(auto)]

ghost use Rattle.std.specs.Prelude.{◌≡◌, ◌+◌, ◌*◌, ◌<◌, ◌≤◌, length, Decides};
ghost use Rattle.scan.specs.Scan.{chunk};

/// The record at `index` of a part that holds `count` records of `size` bytes.
pub fn piece(bytes: &[u8], size: usize, count: usize, index: usize) -> &[u8]
    requires whole { length bytes.now ≡ count * size }
    requires within { index < count }
    ensures value { result.now ≡ chunk size index bytes.now }
    ensures sized { length result.now ≡ size }
{
    &bytes[index * size..][..size]
}

/// Whether two records hold the same bytes. They are compared eight at a time, the last eight overlapping those before:
/// `a == b` takes 2 to 20 times as long on cells of 8 to 28 bytes, whose length is a constant.
pub fn same_bytes(a: &[u8], b: &[u8]) -> bool
    ensures { Decides result (a.now ≡ b.now) }
{
    if a.len() != b.len() {
        return false;
    }
    match (a.last_chunk::<8>(), b.last_chunk::<8>()) {
        (Some(a_last), Some(b_last)) => {
            same_words(a.as_chunks::<8>().0, b.as_chunks::<8>().0) && same_word(a_last, b_last)
        }
        _ => same_few(a, b),
    }
}

// The same of a few bytes, one at a time: `a == b` takes longer on so few.
fn same_few(a: &[u8], b: &[u8]) -> bool
    requires { length a.now ≡ length b.now }
    ensures { Decides result (a.now ≡ b.now) }
{
    a.iter().zip(b).all(|(x, y)| x == y)
}

fn same_words(a: &[[u8; 8]], b: &[[u8; 8]]) -> bool
    requires { length a.now ≡ length b.now }
    ensures { Decides result (a.now ≡ b.now) }
{
    a.iter().zip(b).all(|(x, y)| same_word(x, y))
}

fn same_word(a: &[u8; 8], b: &[u8; 8]) -> bool
    ensures { Decides result (a.now ≡ b.now) }
{
    u64::from_le_bytes(*a) == u64::from_le_bytes(*b)
}
