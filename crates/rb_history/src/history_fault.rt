/// Why a history was not written.
#[derive(Clone, Copy, Debug, PartialEq, Eq)]
pub enum HistoryFault {
    /// There is no memory for the room in which the text is gathered. Nothing was written.
    Memory,
    /// A write or a flush failed, or a write took no byte. A first part of the text was written, perhaps
    /// nothing or all of it.
    Write,
}
