//! Bytes in and out, whatever they mean: a reader that can be read a limited number of times, and the
//! loop that writes.

pub(crate) mod limited_reader;
pub(crate) mod limited_writer;
pub(crate) mod reader_state;
pub(crate) mod recipient;
pub(crate) mod send;
pub(crate) mod writer_state;
pub(crate) mod writer_status;
pub(crate) mod writing;
