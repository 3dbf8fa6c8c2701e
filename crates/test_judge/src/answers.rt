//! What contractions answer on their kept nodes.
ghost use Rattle.contraction.specs.Answers.{AreNodes};

use crate::answer_rows::{AnswerRow, FEEDERS, Pair, STUB, Single, TRANSFORMERS};
use crate::composed::{first_nodes, is_whole, kept_of};
use contraction::{Contraction, Supply};
use ilk_base::NodeId;
use station_graph::{NodeList, Station};
use std::alloc::Global;
use std::test::Fail;
use test_stations::{Example, StationRow, rows_hold};

fn is_pair(value: &Contraction, pair: Pair) -> bool {
    let (first, second, coupled, joined, bonded) = pair;
    let (a, b) = (NodeId(first), NodeId(second));
    value.keeps(a)
        && value.keeps(b)
        && value.coupled(a, b) == coupled
        && value.joined(a, b) == joined
        && value.bonded(a, b) == bonded
}

fn is_single(value: &Contraction, single: Single) -> bool {
    let (node, energisable, earthable, supply) = single;
    let a = NodeId(node);
    value.keeps(a)
        && value.energisable(a) == energisable
        && value.earthable(a) == earthable
        && value.supply(a) == supply
}

fn are_pairs(value: &Contraction, pairs: &[Pair]) -> bool {
    for pair in pairs {
        if !is_pair(value, *pair) {
            return false;
        }
    }
    true
}

fn are_singles(value: &Contraction, singles: &[Single]) -> bool {
    for single in singles {
        if !is_single(value, *single) {
            return false;
        }
    }
    true
}

impl StationRow for AnswerRow {
    fn example(&self) -> Example {
        self.drawing
    }

    fn holds(&self, alloc: Global, station: &Station) -> bool {
        if !is_whole(station, self.closed) {
            return false;
        }
        match kept_of(alloc, station, self.items, self.closed, self.kept) {
            Some(value) => are_pairs(&value, self.pairs) && are_singles(&value, self.singles),
            None => false,
        }
    }
}

#[test]
fn feeders(rt: HostRuntime) {
    assert!(rt; rows_hold(rt.alloc(), FEEDERS));
}

#[test]
fn bare_stub(rt: HostRuntime) {
    assert!(rt; rows_hold(rt.alloc(), STUB));
}

#[test]
fn transformers(rt: HostRuntime) {
    assert!(rt; rows_hold(rt.alloc(), TRANSFORMERS));
}

// Whether each of three nodes is alone and bare.
fn are_alone(value: &Contraction) -> bool {
    !value.keeps(NodeId(3))
        && is_pair(value, (0, 2, false, false, false))
        && is_pair(value, (1, 1, true, true, true))
        && is_single(value, (2, false, false, Supply::Bare))
}

// Whether they are so in the contraction of no item on these nodes.
fn is_nothing(alloc: Global, nodes: &NodeList) -> bool
    requires { AreNodes nodes.now }
{
    match Contraction::empty(alloc, nodes) {
        Ok(value) => are_alone(&value),
        Err(_) => false,
    }
}

#[test]
fn no_item(rt: HostRuntime) -> Result<(), Fail> {
    let nodes = first_nodes(rt.alloc(), 3)?;
    assert!(rt; is_nothing(rt.alloc(), &nodes));
    Ok(())
}
