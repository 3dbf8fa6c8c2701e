//! Tests of the edge to the system: over streams and files that fail, and over files that are there.
#![tactic(auto)]

#[cfg(test)]
mod devices;
#[cfg(test)]
mod folder;
#[cfg(test)]
mod shelves;
#[cfg(test)]
mod streams;
