//! Rows of tests, each of which says something of a worked station.
use crate::example::{Example, built};
use station_graph::Station;
use std::alloc::Global;

/// A row of a test: its station, and whether what it says holds there.
pub trait StationRow {
    /// The station of the row.
    fn example(&self) -> Example;

    /// Whether what the row says holds on its station; not where memory is wanted.
    fn holds(&self, alloc: Global, station: &Station) -> bool;
}

/// Whether what the row says holds; not where its station is not built.
pub fn row_holds<R: StationRow>(alloc: Global, row: &R) -> bool {
    match built(alloc, row.example()) {
        Ok(station) => row.holds(alloc, &station),
        Err(_) => false,
    }
}

/// Whether what each row says holds.
pub fn rows_hold<R: StationRow>(alloc: Global, rows: &[R]) -> bool {
    for row in rows {
        if !row_holds(alloc, row) {
            return false;
        }
    }
    true
}
