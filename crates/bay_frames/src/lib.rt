//! The bytes that two bays exchange, written exactly and read exactly, so that a truncated or
//! damaged frame is never taken for another.
#![tactic(auto)]

mod coding;
mod frame;
mod laws;
mod list;
mod read;
mod write;

pub use frame::{Body, Frame, FrameRefusal};
pub use laws::{no_front_is_a_row, one_frame_for_a_row, passing_bytes_are_rows};
pub use list::FrameList;
