// Why a sheet or a call is refused: one case for each rule, in the order in which the rules are asked.
ghost use Rattle.std.specs.Prelude.{◌≡◌};
ghost use Rattle.sheet.specs.Refusals.{numbers};

/// A refusal: which rule failed, and where.
#[derive(Clone, Copy, PartialEq, Eq, Debug)]
pub enum Refusal {
    /// 1: the sheet has under 28 or over 1,048,576 bytes.
    SheetSize,
    /// 2: a byte of the head, 0 to 3, is wrong; the lowest such.
    HeadByte {
        byte: usize,
    },
    /// 3: a part, by the number of its `PartName`, begins before the end of what precedes it, or ends past the sheet.
    PartExtent {
        part: usize,
    },
    /// 4: the inputs part or the rows part is not as long as its records.
    PartSize {
        part: usize,
    },
    /// 5: an input has an unknown kind, or its lo exceeds its hi.
    InputRecord {
        input: usize,
    },
    /// 6: a byte of a row is wrong; the lowest such.
    RowByte {
        place: usize,
        byte: usize,
    },
    /// 7: the domain has no cell: its width is 0.
    NoWidth,
    /// 8: the table is not an entry for each place, a flag and a cell for each variable.
    TableSize,
    /// 9: the first byte of an entry is neither 0 nor 1.
    EntryFlag {
        place: usize,
    },
    /// 10: a cell of a present entry holds no value.
    CellUnreadable {
        place: usize,
        variable: usize,
    },
    /// 11 of variable 16: entry 0 is absent.
    StartAbsent,
    /// 11: a cell of entry 0 does not cover the value of 0; the lowest such.
    StartUncovered {
        variable: usize,
    },
    /// 12: a work row may divide by 0.
    ZeroWarning {
        place: usize,
    },
    /// 13: the result of a work row may leave the 32-bit integers.
    RangeWarning {
        place: usize,
    },
    /// 14: a way leads to an absent entry.
    EntryAbsent {
        place: usize,
        way: usize,
    },
    /// 15: a way leads to an entry that does not cover the value of a variable.
    NotCovered {
        place: usize,
        way: usize,
        variable: usize,
    },
    /// 16: set names no setting.
    NoSetting,
    /// 17: the value to set is outside the setting's set.
    SettingOutside,
    /// 18: the reading given is outside the set of the input that is taken.
    ReadingOutside,
    /// 19: show names no variable.
    NoVariable,
    /// 21: nothing is held.
    NothingHeld,
    /// 22: the routine runs.
    Running,
    /// 23: the routine does not run.
    NotRunning,
}

/// A refusal as four numbers. What a refusal does not name is 0.
#[derive(Clone, Copy, PartialEq, Eq, Debug)]
pub struct Report {
    pub number: usize,
    pub place: usize,
    pub way: usize,
    pub variable: usize,
}

impl Refusal {
    /// The number of the rule, with the place, the way and the variable.
    pub fn report(self) -> Report
        ensures { result ≡ numbers self }
    {
        let (number, place, way, variable) = match self {
            Refusal::SheetSize => (1, 0, 0, 0),
            Refusal::HeadByte { byte } => (2, byte, 0, 0),
            Refusal::PartExtent { part } => (3, part, 0, 0),
            Refusal::PartSize { part } => (4, part, 0, 0),
            Refusal::InputRecord { input } => (5, input, 0, 0),
            Refusal::RowByte { place, byte } => (6, place, byte, 0),
            Refusal::NoWidth => (7, 0, 0, 0),
            Refusal::TableSize => (8, 0, 0, 0),
            Refusal::EntryFlag { place } => (9, place, 0, 0),
            Refusal::CellUnreadable { place, variable } => (10, place, 0, variable),
            Refusal::StartAbsent => (11, 0, 0, 16),
            Refusal::StartUncovered { variable } => (11, 0, 0, variable),
            Refusal::ZeroWarning { place } => (12, place, 0, 0),
            Refusal::RangeWarning { place } => (13, place, 0, 0),
            Refusal::EntryAbsent { place, way } => (14, place, way, 0),
            Refusal::NotCovered {
                place,
                way,
                variable,
            } => (15, place, way, variable),
            Refusal::NoSetting => (16, 0, 0, 0),
            Refusal::SettingOutside => (17, 0, 0, 0),
            Refusal::ReadingOutside => (18, 0, 0, 0),
            Refusal::NoVariable => (19, 0, 0, 0),
            Refusal::NothingHeld => (21, 0, 0, 0),
            Refusal::Running => (22, 0, 0, 0),
            Refusal::NotRunning => (23, 0, 0, 0),
        };
        Report {
            number,
            place,
            way,
            variable,
        }
    }
}
