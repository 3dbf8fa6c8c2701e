//! Tests of the station, its positions and the central rules, on small stations worked by hand.
#![tactic(auto)]

#[cfg(test)]
mod judging;
#[cfg(test)]
mod limits;
#[cfg(test)]
mod paths;
#[cfg(test)]
mod positions;
#[cfg(test)]
mod readers;
#[cfg(test)]
mod rules;
