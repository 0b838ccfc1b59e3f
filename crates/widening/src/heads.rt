// The head of a sheet whose parts stand one right after another.
ghost use Rattle.std.specs.Prelude.{◌≡◌, ◌≤◌, ◌++◌};
ghost use Rattle.widening.specs.Widened.{word_bytes};
ghost use Rattle.widening.specs.Writes.{head_with};

/// What the head of a sheet says: its counts, and how many bytes each of its parts has.
#[derive(Clone, Copy)]
pub struct Head {
    pub variables: u8,
    pub input_count: u8,
    pub inputs: u32,
    pub rows: u32,
    pub table: u32,
    ghost few_inputs: { inputs ≤ 72 },
    ghost few_rows: { rows ≤ 3072 },
}

// What the head says of a part: its offset and its length.
fn extent_bytes(offset: u32, len: u32) -> [u8; 8]
    ensures { result ≡ word_bytes offset ++ word_bytes len }
{
    let [a0, a1, a2, a3] = offset.to_le_bytes();
    let [b0, b1, b2, b3] = len.to_le_bytes();
    [a0, a1, a2, a3, b0, b1, b2, b3]
}

impl Head {
    /// The head in bytes. The inputs stand right behind it, then the rows, then the table.
    pub fn to_bytes(self) -> [u8; 28]
        ensures { result ≡ head_with self.variables self.input_count self.inputs self.rows self.table }
    {
        let mut bytes = [0; 28];
        let (counts, parts) = bytes.split_at_mut(4);
        let (inputs, parts) = parts.split_at_mut(8);
        let (rows, table) = parts.split_at_mut(8);
        counts.copy_from_slice(&[1, self.variables, self.input_count, 0]);
        inputs.copy_from_slice(&extent_bytes(28, self.inputs));
        rows.copy_from_slice(&extent_bytes(28 + self.inputs, self.rows));
        table.copy_from_slice(&extent_bytes(28 + self.inputs + self.rows, self.table));
        bytes
    }
}
