ghost use Rattle.std.specs.Prelude.{◌≡◌};
ghost use Rattle.rb_history.specs.TextReasonText.{text_reason_text};

/// Why a text is not a history.
#[derive(Clone, Copy, Debug, PartialEq, Eq)]
pub enum TextReason {
    /// The first line is none of the headers.
    Header,
    /// A line of the opening is malformed or exceeds a limit.
    Opening,
    /// A line is neither an event nor the last line.
    Line,
    /// An event follows 1,000,000 others.
    Many,
    /// The number on the last line is not that of the events.
    Count,
    /// Bytes follow the last line.
    Trailing,
    /// The text stops before the end of its last line.
    End,
}

/// Why a text was not read.
#[derive(Clone, Copy, Debug, PartialEq, Eq)]
pub enum TextFault {
    /// The line of this number, counted from 1, has the first fault.
    At { line: u64, reason: TextReason },
    /// There is not enough memory for the elements and events of the text.
    Memory,
}

impl TextReason {
    /// The reason as it is printed.
    pub fn as_str(self) -> &'static str
        ensures { result.now ≡ text_reason_text self }
    {
        match self {
            TextReason::Header => "header",
            TextReason::Opening => "opening",
            TextReason::Line => "line",
            TextReason::Many => "many",
            TextReason::Count => "count",
            TextReason::Trailing => "trailing",
            TextReason::End => "end",
        }
    }
}

// The fault of a line.
pub(crate) fn at(line: u64, reason: TextReason) -> TextFault
    ensures { result ≡ TextFault.At line reason }
{
    TextFault::At { line, reason }
}
