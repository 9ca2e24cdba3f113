/// Why a line is not a request. If several faults hold, the first in this order is returned.
#[derive(Clone, Copy, Debug, PartialEq, Eq)]
pub enum LineFault {
    /// The line has more than 256 bytes.
    Line,
    /// The words, their number or the spaces between them are not those of a request.
    Syntax,
    /// A word in the place of a number is not a number.
    Number,
    /// The payload has more than 64 bytes, or a byte that is not a visible ASCII character.
    Payload,
}
