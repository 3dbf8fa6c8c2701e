//! The interlocking of a station as structured text that a bay controller takes.
#![tactic(auto)]

mod bay_calls;
mod bay_exchange;
mod bay_masks;
mod bay_text;
mod block_outputs;
mod block_program;
mod block_text;
mod declarations;
mod forming;
mod numbering;
mod place;
mod places;
mod program;
mod read_names;
mod reading;
mod reads;
mod release;
mod section_keys;
mod section_order;
mod section_reads;
mod sections;
mod standing_program;
mod step_text;
mod term_lines;
mod text;
mod unblocked;
mod variables;

pub use bay_text::{bay_program_text, text_of_bay};
pub use block_program::BlockProgram;
pub use program::{Program, interlocking};
pub use standing_program::program_of;
pub use text::{program_text, text_of_program};
