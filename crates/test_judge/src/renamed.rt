//! Values of like items on other nodes.
ghost use Rattle.std.specs.Prelude.{◌≡◌, length};
ghost use Rattle.contraction.specs.Answers.{AreNodes};

use crate::composed::{Items, first_nodes, is_whole, kept_of};
use contraction::{Contraction, KeptNodes};
use station_graph::{NodeList, Station};
use std::alloc::Global;
use test_stations::{Example, StationRow, rows_hold};

// Positions of both feeders, and whether the second looks from the busbar and its first node as the first does.
struct Row {
    first: &'static [u8],
    second: &'static [u8],
    same: bool,
}

// Like positions of both feeders; then the breaker, the infeed or the earthing switch of one of them moved; then all
// open, where no switch of either counts.
const ROWS: &[Row] = &[
    Row {
        first: b"1010100000",
        second: b"0000010101",
        same: true,
    },
    Row {
        first: b"1110100000",
        second: b"0000011101",
        same: true,
    },
    Row {
        first: b"1110100000",
        second: b"0000010101",
        same: false,
    },
    Row {
        first: b"1010100000",
        second: b"0000010100",
        same: false,
    },
    Row {
        first: b"1010000000",
        second: b"0000010110",
        same: false,
    },
    Row {
        first: b"0000000000",
        second: b"1111100000",
        same: true,
    },
];

// Whether the value keeps exactly these nodes.
fn keeps_exactly(value: &Contraction, nodes: &[u16]) -> bool {
    value.keeps_just(nodes) && value.nodes() == nodes
}

// Whether the value on these nodes keeps just them and answers as before, whichever list is at hand.
fn is_on_held(
    alloc: Global,
    value: &Contraction,
    nodes: &[u16],
    held: &mut Option<KeptNodes>,
) -> bool
    requires nodes { AreNodes nodes.now }
    requires count { length nodes.now ≡ length value.now.kept }
{
    match value.on_held_nodes(alloc, nodes, held) {
        Ok(moved) => keeps_exactly(&moved, nodes) && moved.answers_as(value),
        Err(_) => false,
    }
}

// Whether it is so with no list at hand, with that of its own nodes, and with that of these.
fn is_on_each_held(alloc: Global, value: &Contraction, nodes: &[u16]) -> bool
    requires nodes { AreNodes nodes.now }
    requires count { length nodes.now ≡ length value.now.kept }
{
    let mut held = None;
    let own = is_on_held(alloc, value, value.nodes(), &mut held);
    let others = is_on_held(alloc, value, nodes, &mut held);
    let again = is_on_held(alloc, value, nodes, &mut held);
    own && others && again
}

// The value on these nodes in place of its own, where they are as many.
fn on_nodes(alloc: Global, value: &Contraction, nodes: &NodeList) -> Option<Contraction>
    requires { AreNodes nodes.now }
{
    if nodes.len() != value.nodes().len() {
        return None;
    }
    if !is_on_each_held(alloc, value, nodes.numbers()) {
        return None;
    }
    let Ok(moved) = value.on_nodes(alloc, nodes.numbers()) else {
        return None;
    };
    match value.renamed(alloc, nodes) {
        Ok(again) if again.answers_as(&moved) && again.nodes() == moved.nodes() => Some(moved),
        _ => None,
    }
}

// The value on the nodes 0 and 1 in place of its own two.
fn on_first_two(alloc: Global, value: &Contraction) -> Option<Contraction> {
    match first_nodes(alloc, 2) {
        Ok(nodes) => on_nodes(alloc, value, &nodes),
        Err(_) => None,
    }
}

// Whether the second value answers as before on other nodes, and there as the first does or not.
fn are_as_said(first: &Contraction, second: &Contraction, moved: &Contraction, same: bool) -> bool {
    keeps_exactly(first, &[0, 1])
        && keeps_exactly(second, &[0, 4])
        && keeps_exactly(moved, &[0, 1])
        && moved.answers_as(second)
        && moved.answers_as(first) == same
        && first.answers_as(second) == same
}

// The two values, of which the second is moved.
fn are_values(alloc: Global, first: &Contraction, second: &Contraction, same: bool) -> bool {
    match on_first_two(alloc, second) {
        Some(moved) => are_as_said(first, second, &moved, same),
        None => false,
    }
}

// The second feeder in these positions against the value of the first.
fn is_second(
    alloc: Global,
    station: &Station,
    closed: &[u8],
    first: &Contraction,
    same: bool,
) -> bool
    requires { length closed.now ≡ length station.now.switches }
{
    match kept_of(alloc, station, Items::Part(2), closed, &[0, 4]) {
        Some(second) => are_values(alloc, first, &second, same),
        None => false,
    }
}

impl StationRow for Row {
    fn example(&self) -> Example {
        Example::TwoFeeders
    }

    fn holds(&self, alloc: Global, station: &Station) -> bool {
        if !is_whole(station, self.first) || !is_whole(station, self.second) {
            return false;
        }
        match kept_of(alloc, station, Items::Part(1), self.first, &[0, 1]) {
            Some(first) => is_second(alloc, station, self.second, &first, self.same),
            None => false,
        }
    }
}

#[test]
fn like_feeders(rt: HostRuntime) {
    assert!(rt; rows_hold(rt.alloc(), ROWS));
}
