//! Tests of one bay: its frames, its records, its node and what it stores.
#![tactic(auto)]

#[cfg(test)]
mod command_rows;
#[cfg(test)]
mod event_rows;
#[cfg(test)]
mod frame_rows;
#[cfg(test)]
mod frames;
#[cfg(test)]
mod images;
#[cfg(test)]
mod node_rows;
#[cfg(test)]
mod nodes;
#[cfg(test)]
mod records;
#[cfg(test)]
mod reserving_rows;
