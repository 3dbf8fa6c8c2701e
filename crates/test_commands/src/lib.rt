//! Tests of what each command works out: words, blocks, equations, plans, orders, tests and stations that are made.
#![tactic(auto)]

#[cfg(test)]
mod asked;
#[cfg(test)]
mod audits;
#[cfg(test)]
mod bay_tests;
#[cfg(test)]
mod equations;
#[cfg(test)]
mod equations_read;
#[cfg(test)]
mod judged;
#[cfg(test)]
mod makes;
#[cfg(test)]
mod orders;
#[cfg(test)]
mod pages;
#[cfg(test)]
mod plans;
#[cfg(test)]
mod programs;
#[cfg(test)]
mod taken;
#[cfg(test)]
mod whole_tests;
#[cfg(test)]
mod words;
