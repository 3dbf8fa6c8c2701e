//! Two stations step by step: a switch that both have is one step of both, and everything else is a step of one of them.
//! So the graphs of both take the same choices, and a list of choices is a position of all switches of both.
#![tactic(auto)]

mod joint;
mod near;
mod pairs;
mod places;
mod positions;
mod ranks;
mod same;

pub use joint::{JointSteps, joint_steps, joint_steps_of_bay};
pub use positions::{JointVectors, joint_vectors, positions_give_choices};
pub use same::same_switch;
