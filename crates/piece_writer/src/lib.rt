//! Texts that go to an output in pieces: what is to be written is held as a value, and its bytes pass through a buffer
//! that was made before, so that the writing takes no memory.
#![tactic(auto)]

mod named_text;
mod writer;

pub use named_text::NamedText;
pub use writer::{PIECE, PieceWriter};
