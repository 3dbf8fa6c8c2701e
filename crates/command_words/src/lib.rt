//! The words of the command line, read by one `clap` command.
#![tactic(auto)]

mod parser;
mod read;
mod row;

pub use read::read_words;
pub use row::Row;
