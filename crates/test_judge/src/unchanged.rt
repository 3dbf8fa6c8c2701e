//! When two contractions together are the first of them.
ghost use Rattle.std.specs.Prelude.{◌≡◌, ◌⊎◌, ℕ, IsTrue, Contains, length};
ghost use Rattle.contraction.specs.Answers.{Keeps};

use crate::composed::{Items, is_whole, kept_of, nodes_of};
use crate::selected::either_keeps;
use contraction::{Contraction, Selection};
use ilk_base::Memory;
use station_graph::{NodeList, Station};
use std::alloc::Global;
use test_stations::{Example, StationRow, rows_hold};

// Which part of the station, and the nodes on which it is told.
type Told = (u8, &'static [u16]);

// Two parts of the station with two busbars, the coupler of which is part 2 and the feeders parts 3 and 4, in these
// positions, the nodes on which both are told together, and whether each view of the first stays with that of the
// second.
struct Row {
    closed: &'static [u8],
    first: Told,
    second: Told,
    nodes: &'static [u16],
    gap: bool,
    load: bool,
}

// The first feeder is on, at the first busbar. The coupler is open; its disconnectors alone are closed, so that it
// couples the busbars and does not join them; it is closed. Then the feeder's own two disconnectors join the busbars
// before the coupler does. The second feeder is on at the same busbar; at the other one; at the same one earthed behind
// its open breaker. Then not all nodes of the first are asked for, and the second keeps one that the first does not.
const ROWS: &[Row] = &[
    Row {
        closed: b"000101101000000",
        first: (3, &[0, 1]),
        second: (2, &[0, 1]),
        nodes: &[0, 1],
        gap: true,
        load: true,
    },
    Row {
        closed: b"101101101000000",
        first: (3, &[0, 1]),
        second: (2, &[0, 1]),
        nodes: &[0, 1],
        gap: false,
        load: true,
    },
    Row {
        closed: b"111101101000000",
        first: (3, &[0, 1]),
        second: (2, &[0, 1]),
        nodes: &[0, 1],
        gap: false,
        load: false,
    },
    Row {
        closed: b"111111101000000",
        first: (3, &[0, 1]),
        second: (2, &[0, 1]),
        nodes: &[0, 1],
        gap: true,
        load: true,
    },
    Row {
        closed: b"000101101101101",
        first: (3, &[0, 1]),
        second: (4, &[0, 1]),
        nodes: &[0, 1],
        gap: true,
        load: true,
    },
    Row {
        closed: b"000101101011101",
        first: (3, &[0, 1]),
        second: (4, &[0, 1]),
        nodes: &[0, 1],
        gap: false,
        load: false,
    },
    Row {
        closed: b"000101101100110",
        first: (3, &[0, 1]),
        second: (4, &[0, 1]),
        nodes: &[0, 1],
        gap: false,
        load: true,
    },
    Row {
        closed: b"000101101000000",
        first: (3, &[0, 1]),
        second: (2, &[0, 1]),
        nodes: &[0],
        gap: false,
        load: false,
    },
    Row {
        closed: b"000101101000000",
        first: (3, &[0]),
        second: (2, &[0, 1]),
        nodes: &[0],
        gap: false,
        load: false,
    },
];

// Whether each view stays so on a selection.
fn views_stay(x: &Contraction, y: &Contraction, selection: &Selection, row: &Row) -> bool
    requires first { selection.now.first ≡ x.now.kept }
    requires second { selection.now.second ≡ y.now.kept }
    requires nodes { (n : ℕ) → Contains selection.now.nodes n → Keeps x.now.kept n ⊎ Keeps y.now.kept n }
{
    let gap = x.gap_stays_with(y, selection);
    let load = x.load_stays_with(y, selection);
    gap == row.gap && load == row.load
}

// Whether each view stays so on the selection of these nodes.
fn stays_so(
    alloc: Global,
    x: &Contraction,
    y: &Contraction,
    nodes: &NodeList,
    row: &Row,
) -> Result<bool, Memory>
    requires { (n : ℕ) → Contains nodes.now n → Keeps x.now.kept n ⊎ Keeps y.now.kept n }
{
    let selection = Selection::of(alloc, x.nodes(), y.nodes(), nodes)?;
    Ok(views_stay(x, y, &selection, row))
}

// The same, on the nodes of the row.
fn are_as_said(alloc: Global, x: &Contraction, y: &Contraction, row: &Row) -> bool {
    match nodes_of(alloc, row.nodes) {
        Ok(nodes) => {
            either_keeps(x, y, &nodes) && matches!(stays_so(alloc, x, y, &nodes, row), Ok(true))
        }
        Err(_) => false,
    }
}

// The second part in these positions after the first.
fn is_second(alloc: Global, station: &Station, closed: &[u8], x: &Contraction, row: &Row) -> bool
    requires { length closed.now ≡ length station.now.switches }
{
    let (part, kept) = row.second;
    match kept_of(alloc, station, Items::Part(part), closed, kept) {
        Some(y) => are_as_said(alloc, x, &y, row),
        None => false,
    }
}

impl StationRow for Row {
    fn example(&self) -> Example {
        Example::TwoBusbars
    }

    fn holds(&self, alloc: Global, station: &Station) -> bool {
        if !is_whole(station, self.closed) {
            return false;
        }
        let (part, kept) = self.first;
        match kept_of(alloc, station, Items::Part(part), self.closed, kept) {
            Some(x) => is_second(alloc, station, self.closed, &x, self),
            None => false,
        }
    }
}

#[test]
fn parts_that_add_nothing(rt: HostRuntime) {
    assert!(rt; rows_hold(rt.alloc(), ROWS));
}
