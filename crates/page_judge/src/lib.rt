//! The judge of a station, kept from one question to the next, for a page: bytes in, bytes out. Each question says what
//! the command of its name says of the same bytes.
//!
//! An answer is a code and what is told beside it. Code 0: the text is in the room. 1: so it is, and it differs from the
//! rules. 5: the drawing is refused, 6: another input is, with the number of the fault and its place. 8: there was not
//! enough memory. 10: the room is too small, and so many bytes are wanted. What a desk holds is as it was after every
//! question, whatever its code.
#![tactic(auto)]

mod asked;
mod desk;
mod kept;
mod opening;
mod parts;
mod told;

pub use asked::{page_check, page_explain, page_order, page_state, page_why};
pub use desk::Desk;
pub use kept::Kept;
pub use opening::{page_close, page_open};
pub use told::{DIFFERS, DONE, DRAWING, INPUT, MEMORY, ROOM, Told};
