//! Four layered graphs of two choices a layer, walked together by the same choices: which labels they lead to together,
//! and by which choices.
#![tactic(auto)]

mod codes;
mod law;
mod sets;
mod walk;

pub use codes::Codes;
pub use law::room_excludes_width;
pub use sets::allowed_sets;
pub use walk::{Walk, same_steps, walk_of};
