//! Tests of bays together: stories of a world, logs, their replays, and logs with trips.
#![tactic(auto)]

#[cfg(test)]
mod events;
#[cfg(test)]
mod interruptions;
#[cfg(test)]
mod logs;
#[cfg(test)]
mod operations;
#[cfg(test)]
mod outcomes;
#[cfg(test)]
mod premises;
#[cfg(test)]
mod refused_trips;
#[cfg(test)]
mod replays;
#[cfg(test)]
mod stories;
#[cfg(test)]
mod trips;
