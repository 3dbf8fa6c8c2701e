//! Tests of what stands on two stations, on small ones worked by hand.
#![tactic(auto)]

#[cfg(test)]
mod drawn;
#[cfg(test)]
mod labels;
#[cfg(test)]
mod like;
#[cfg(test)]
mod limits;
#[cfg(test)]
mod steps;
#[cfg(test)]
mod texts;
#[cfg(test)]
mod words;
