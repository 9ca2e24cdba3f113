//! The words of the command line: which command they name, and what its options and files are.
//!
//! `clap` reads the words, and writes the texts that users see. The defaults of options are defined
//! here, the options themselves in `rb_options`.
#![tactic(auto)]

mod arguments;
mod command_line;
mod given_server;
mod given_values;
mod given_words;
mod laws;
mod words;

pub use command_line::read_words;
pub use laws::some_words_are_right;
pub use words::Words;
