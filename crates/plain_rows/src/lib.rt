//! The law that a table without quotes, one record a line, is the rows that one reads in it.
#![tactic(auto)]

mod laws;

pub use laws::plain_lines_are_rows;
