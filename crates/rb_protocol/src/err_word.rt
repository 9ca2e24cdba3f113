ghost use Rattle.std.specs.Prelude.{◌≡◌};

use crate::line_fault::LineFault;

/// Why a request was refused.
#[derive(Clone, Copy, Debug, PartialEq, Eq)]
pub enum ErrWord {
    /// The words, their number or the spaces between them are not those of a request.
    Syntax,
    /// A word in the place of a number is not a number.
    Number,
    /// The expiry would pass the greatest moment, 2^64 - 1 nanoseconds.
    Range,
    /// The payload is too long, or has a byte that is not allowed.
    Payload,
    /// The session does not hold the job that is to be done or to fail.
    NotHeld,
    /// The run has made as many calls as it has room for.
    Full,
    /// There is not enough memory for what was asked.
    Memory,
    /// The line is too long, or the input ended before its line feed.
    Line,
    /// The session holds as many jobs as it may.
    Held,
}

/// The word for a line that is no request.
impl From<LineFault> for ErrWord {
    ghost use Rattle.rb_protocol.specs.FaultWord.{word_for};

    ghost from_gives = { λ fault answer. answer ≡ word_for fault };

    fn from(fault: LineFault) -> ErrWord {
        match fault {
            LineFault::Line => ErrWord::Line,
            LineFault::Syntax => ErrWord::Syntax,
            LineFault::Number => ErrWord::Number,
            LineFault::Payload => ErrWord::Payload,
        }
    }
}
