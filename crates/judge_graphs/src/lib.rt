//! The decision graphs of a bay: an outer and inner ones for each of the two views, made over all vectors at once, the
//! outer ones with the labels made one that no inner one tells apart, and which other parts they tell of.
#![tactic(auto)]

mod bay;
mod graphs;
mod inner;
mod label_names;
mod labelled;
mod merged;
mod noted;
mod outer;
mod partners;
mod stock;

pub use bay::{Bay, bay_graphs};
pub use graphs::{BayGraphs, ViewGraphs};
pub use stock::{Stock, renew_large, stock_of};
