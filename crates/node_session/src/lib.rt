//! The session of a node: it answers the lines of its input, one after another, and writes what each step shows.
#![tactic(auto)]

mod end;
mod reader;
mod request;
mod requests;
mod session;
mod text;

pub use end::{MOST_LINES, SessionEnd};
pub use reader::{CHUNK, Front, InputTrouble, Reader, without_return};
pub use request::{LineTrouble, MOST_LINE, Request};
pub use requests::read_request;
pub use session::serve;
pub use text::shown_text;
