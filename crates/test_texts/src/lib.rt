//! Tests of words, files and streams, of the lines of a text, and of what numbers are hashed to.
#![tactic(auto)]

#[cfg(test)]
mod lines;
#[cfg(test)]
mod numbers;
#[cfg(test)]
mod outside;
#[cfg(test)]
mod pieces;
