//! Tests of the program over time: what it writes of logs, in sessions and of stations that it makes, and how it ends,
//! on small stations worked by hand.
#![tactic(auto)]

#[cfg(test)]
mod logs;
#[cfg(test)]
mod makes;
#[cfg(test)]
mod one_line_more;
#[cfg(test)]
mod refused_logs;
#[cfg(test)]
mod replays;
#[cfg(test)]
mod sessions;
#[cfg(test)]
mod stored;
#[cfg(test)]
mod trips;
