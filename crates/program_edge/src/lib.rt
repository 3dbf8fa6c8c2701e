//! The program as one call: the words of its command line, the files of the system and three streams, handed to the
//! top call.
#![tactic(auto)]

mod program;

pub use program::{run_program, run_words};
