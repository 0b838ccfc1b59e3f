// A list of calls in bytes: records of 12 bytes, and behind that of an offer its sheet.
ghost use Rattle.std.specs.Prelude.{◌≡◌, None, MatchOption};
ghost use Rattle.routine_bay.specs.Records.{front, Reads};

/// A call as it is read: which of the six, and what it takes.
#[derive(Clone, Copy)]
pub enum Call<'a> {
    Offer { domain: u8, sheet: &'a [u8] },
    Start,
    Set { number: u32, value: i32 },
    Step { value: i32 },
    Stop,
    Show { number: u32 },
}

impl<'a> Call<'a> {
    // The call at the front of a list and what is left behind it, if one stands there whole.
    pub(crate) fn first(list: &'a [u8]) -> Option<(Call<'a>, &'a [u8])>
        ensures { MatchOption result (front list.now ≡ None) (λ p. Reads list.now p.0 p.1.now) }
    {
        let (record, tail) = list.split_first_chunk::<12>()?;
        let [code, domain, _, _, n0, n1, n2, n3, v0, v1, v2, v3] = *record;
        let number = u32::from_le_bytes([n0, n1, n2, n3]);
        let value = i32::from_le_bytes([v0, v1, v2, v3]);
        match code {
            0 => {
                let (sheet, rest) = tail.split_at_checked(number as usize)?;
                Some((Call::Offer { domain, sheet }, rest))
            }
            1 => Some((Call::Start, tail)),
            2 => Some((Call::Set { number, value }, tail)),
            3 => Some((Call::Step { value }, tail)),
            4 => Some((Call::Stop, tail)),
            5 => Some((Call::Show { number }, tail)),
            _ => None,
        }
    }
}
