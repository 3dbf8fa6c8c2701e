//! Structured text of IEC 61131-3 that has assignments alone: its names, its lines, what they mean and how they are
//! spelled.
#![tactic(auto)]

mod formula;
mod laws;
mod line;
mod name;
mod readable;
mod writing;

pub use laws::{inputs_decide, missing_signals, names_differ, order_is_free};
pub use line::{Formula, GapDenial, Heading, Line, LoadDenial, Operand};
pub use name::{Name, is_contact, is_release};
pub use writing::{
    write_heading, write_input, write_line, write_lines, write_name, write_names, write_output,
    write_true_names,
};
