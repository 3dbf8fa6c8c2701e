//! The log of an operation: what it says, and the replay of it with a report.
#![tactic(auto)]

mod fields;
mod following;
mod kinds;
mod laws;
mod limits;
mod log;
mod numbered;
mod numbers;
mod record;
mod report;
mod report_lines;
mod start;

pub use fields::field;
pub use following::{broken, replay};
pub use kinds::RecordKind;
pub use laws::{headline_holds, premises_are_exact, reports_tell_all, text_decides_report};
pub use limits::MOST_RECORDS;
pub use log::{Log, LogFault, read_log};
pub use numbered::is_numbered;
pub use numbers::{LAST_MESSAGE, MOST_CUT_BYTES};
pub use record::read_record;
pub use report::Report;
pub use start::{at_count, start_of};
