//! The rows of values on other nodes.
use crate::composed::{Items, is_whole, kept_of};
use crate::selected::is_row;
use contraction::Contraction;
use station_graph::Station;
use std::alloc::Global;
use test_stations::{Example, StationRow, rows_hold};

// The first feeder at two busbars in these positions, and the bytes of its rows with other nodes in place of the
// busbars. How they stand is told beside the rows of two parts together.
struct Row {
    closed: &'static [u8],
    nodes: &'static [u16],
    gap: &'static [u8],
    load: &'static [u8],
}

// The feeder is on, at the first busbar; then at both, which it joins so; then off and earthed, at the second.
const ROWS: &[Row] = &[
    Row {
        closed: b"000101101000000",
        nodes: &[4, 260],
        gap: &[0, 4, 1, 4, 0, 0, 0, 1, 1, 0, 0, 0],
        load: &[0, 4, 1, 4, 0, 0, 0, 1, 0, 0, 0, 1, 1, 0, 1, 0],
    },
    Row {
        closed: b"000111101000000",
        nodes: &[4, 9],
        gap: &[0, 4, 0, 9, 0, 0, 0, 0, 1, 1, 0, 0],
        load: &[0, 4, 0, 9, 0, 0, 0, 0, 0, 0, 0, 0, 1, 1, 1, 1],
    },
    Row {
        closed: b"000011110000000",
        nodes: &[2, 3],
        gap: &[0, 2, 0, 3, 0, 0, 0, 1, 0, 0, 0, 1],
        load: &[0, 2, 0, 3, 0, 0, 0, 1, 0, 0, 0, 1, 0, 0, 0, 1],
    },
];

// Whether both rows on these nodes are those of the table.
fn has_rows(alloc: Global, value: &Contraction, row: &Row) -> bool {
    is_row(value.gap_row_on(alloc, row.nodes), row.gap)
        && is_row(value.load_row_on(alloc, row.nodes), row.load)
}

impl StationRow for Row {
    fn example(&self) -> Example {
        Example::TwoBusbars
    }

    fn holds(&self, alloc: Global, station: &Station) -> bool {
        if !is_whole(station, self.closed) {
            return false;
        }
        match kept_of(alloc, station, Items::Part(3), self.closed, &[0, 1]) {
            Some(value) => has_rows(alloc, &value, self),
            None => false,
        }
    }
}

#[test]
fn rows_on_other_nodes(rt: HostRuntime) {
    assert!(rt; rows_hold(rt.alloc(), ROWS));
}
