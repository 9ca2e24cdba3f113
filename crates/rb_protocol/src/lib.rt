//! The broker's line protocol: which request a line is, and which line a reply is. Its module
//! `streams` has what all crates that read or write bytes share.
//!
//! A request is one line of words separated by single spaces, and so is each line of a reply. Lines
//! are read without their ends, and written with them. Reading takes no memory, and writing takes
//! none if the text has `REPLY_ROOM` bytes of free capacity.
#![tactic(auto)]

mod err_word;
mod format;
mod keywords;
mod laws;
mod limits;
mod line_fault;
mod line_reply;
mod line_words;
mod number;
mod reply_line;
mod request;
mod streams;

pub use err_word::ErrWord;
pub use format::{CARRIAGE_RETURN, LINE_FEED, SPACE};
pub use laws::limits_have_their_values;
pub use limits::{BUFFER_BYTES, MOST_READS, MOST_WRITES};
pub use line_fault::LineFault;
pub use line_reply::{LineReply, MOST_REPLY_BYTES, REPLY_ROOM, write_reply};
pub use line_words::cut_word;
pub use number::read_number;
pub use reply_line::ReplyLine;
pub use request::{MOST_LINE_BYTES, Request, one_reading, read_request, request_has_text};
pub use streams::limited_reader::LimitedReader;
pub use streams::limited_writer::LimitedWriter;
pub use streams::reader_state::ReaderState;
pub use streams::recipient::Recipient;
pub use streams::send::{send_at_once, send_line};
pub use streams::writer_state::WriterState;
pub use streams::writer_status::WriterStatus;
pub use streams::writing::{WriteFault, write_out};
