//! Tests of the program: what each command writes of drawings, and how it ends, on small stations worked by hand.
#![tactic(auto)]

#[cfg(test)]
mod as_read;
#[cfg(test)]
mod audits;
#[cfg(test)]
mod drawings;
#[cfg(test)]
mod explanations;
#[cfg(test)]
mod hostile;
#[cfg(test)]
mod orders;
#[cfg(test)]
mod refusals;
#[cfg(test)]
mod rows;
#[cfg(test)]
mod station_texts;
#[cfg(test)]
mod whys;
