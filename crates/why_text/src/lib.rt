//! Why an operation is denied, for people: the ways of an explanation with the device between each two of their nodes, and
//! the switches whose unknown positions do not matter alone.
#![tactic(auto)]

mod between;
mod device;
mod lines;
mod steps;
mod vectors;
mod ways;
mod why;

pub use device::Device;
pub use why::why_text;
