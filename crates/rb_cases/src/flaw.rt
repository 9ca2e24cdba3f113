use std::alloc::{AllocError, AllocFailed};

/// What is wrong with an entry of a file, or with a line of it.
#[derive(Clone, Copy)]
pub enum Flaw {
    /// It did not come out as it must.
    Differs,
    /// The line does not begin with a word of a case.
    Word,
    /// A line comes before the first `case` or `table`, or the file has none.
    NoEntry,
    /// The case or table has no name.
    Name,
    /// An earlier case or table has the same name.
    SameName,
    /// What follows a `\` is not an escape.
    Escape,
    /// There is no number where one is needed.
    Number,
    /// No timer, size of reads or device fault has this name.
    Device,
    /// The case has the word a second time, and may have it only once.
    Twice,
    /// The case has neither `ends` nor `verdict`.
    NoOutcome,
    /// The case has a `verdict` without a `status`, or a `status` without a `verdict`.
    Half,
    /// The case has words of a script and words of a replay.
    Mixed,
    /// The reader is to fail past the end of the input.
    BehindInput,
    /// No kind of table has this name.
    Kind,
    /// The kind has no set-up that begins with this word.
    SetUp,
    /// The table has the line a second time, and may have it only once.
    Again,
    /// No history leads to the opening that a table begins with.
    Opening,
    /// The table, or a part between `times` and `end`, has no row.
    NoRow,
    /// A row has no answer.
    NoAnswer,
    /// There is `times` without `end`, `end` without `times`, or one `times` within another.
    Times,
    /// The kind has no such command.
    Command,
    /// The command needs a queue, or a share, that has not begun.
    Early,
    /// No queue has room for this many calls.
    Capacity,
    /// A payload is not 1 to 64 visible bytes.
    Payload,
    /// There is not enough memory for the case or table.
    Memory,
}

impl Flaw {
    /// The reason, as it is printed.
    pub fn as_str(self) -> &'static str {
        match self {
            Flaw::Differs => "not as it must be",
            Flaw::Word => "no word of a case",
            Flaw::NoEntry => "no case or table has begun",
            Flaw::Name => "a case or table without a name",
            Flaw::SameName => "a second case or table of this name",
            Flaw::Escape => "no such escape",
            Flaw::Number => "no number",
            Flaw::Device => "no such timer, size of reads or fault",
            Flaw::Twice => "for the second time in this case",
            Flaw::NoOutcome => "a case with neither `ends` nor `verdict`",
            Flaw::Half => "a case with one of `verdict` and `status`",
            Flaw::Mixed => "a case with words of a script and of a replay",
            Flaw::BehindInput => "a reader that fails behind the end of the input",
            Flaw::Kind => "no such kind of table",
            Flaw::SetUp => "no such set-up",
            Flaw::Again => "for the second time in this table",
            Flaw::Opening => "no history to begin with",
            Flaw::NoRow => "a table, or its part, without a row",
            Flaw::NoAnswer => "a row without an answer",
            Flaw::Times => "`times` and `end` do not go together",
            Flaw::Command => "no such command",
            Flaw::Early => "no queue or share has begun",
            Flaw::Capacity => "no capacity of a queue",
            Flaw::Payload => "no payload",
            Flaw::Memory => "out of memory",
        }
    }
}

impl From<AllocError> for Flaw {
    fn from(_: AllocError) -> Flaw {
        Flaw::Memory
    }
}

impl<T: Drop> From<AllocFailed<T>> for Flaw {
    fn from(_: AllocFailed<T>) -> Flaw {
        Flaw::Memory
    }
}
