//! A session of a node whose record is kept on a device: each line is one step of the node, a changed record is put,
//! and then the line's text is written. Of all lines that lie in the input already one record is put, that after the last.
#![tactic(auto)]

mod batch;
mod end;
mod held;
mod line;
mod opening;
mod putting;
mod read;
mod session;

pub use end::StoredEnd;
pub use line::{LineEnd, take_line};
pub use opening::{BayTrouble, open_for_bay};
pub use session::serve_stored;
