//! The equations of a station: lines that lead, for each operation and each vector, to the answer of the rules.
//! They are made of the decision graphs of the station's judge, evaluated, and written as a text.
#![tactic(auto)]

mod compile;
mod equations;
mod goal;
mod law;
mod layers;
mod node;
mod part;
mod rows;
mod steps;
mod subject;
mod turning;
mod writing;

pub use compile::{compile_equations, compile_text};
pub use equations::Equations;
pub use goal::{GREATEST_INDEX, Goal, NUMBERS, SwitchGoals};
pub use law::text_means_the_answer;
pub use node::{Lead, Node};
pub use part::PartSteps;
pub use rows::next_number;
pub use writing::push_switches;
