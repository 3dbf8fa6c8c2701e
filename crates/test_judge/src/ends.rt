//! What the contraction of all other items says of an operation: the rule that it breaks.
ghost use Rattle.std.specs.Prelude.{◌≡◌, length};
ghost use Rattle.station_graph.specs.CentralRules.{IsOperation};

use crate::composed::{Items, contraction_of, is_whole};
use contraction::Contraction;
use ilk_base::{Direction, Op, Rule, SwitchId};
use station_graph::Station;
use std::alloc::Global;
use test_stations::{Example, StationRow, rows_hold};

// The positions, and for each switch the rule that opening it breaks and that closing it breaks.
struct Row {
    drawing: Example,
    closed: &'static [u8],
    opening: &'static [u8],
    closing: &'static [u8],
}

// The switches of a feeder are in order QB1, QA1, QB9, QC9, E1. The rows are: an infeed on; an earthing
// switch on; earthed behind an open breaker, apart from the busbar and on it; both feeders through; the
// path through transformers, which is no bond; the bare stub, with the other disconnector open and closed.
const ROWS: &[Row] = &[
    Row {
        drawing: Example::TwoFeeders,
        closed: b"0000100000",
        opening: b"..........",
        closing: b"...1......",
    },
    Row {
        drawing: Example::TwoFeeders,
        closed: b"0001000000",
        opening: b"..........",
        closing: b"....2.....",
    },
    Row {
        drawing: Example::TwoFeeders,
        closed: b"0011011101",
        opening: b"..........",
        closing: b"2...2...1.",
    },
    Row {
        drawing: Example::TwoFeeders,
        closed: b"1011011101",
        opening: b"..........",
        closing: b"2221222212",
    },
    Row {
        drawing: Example::TwoFeeders,
        closed: b"1110111101",
        opening: b"3.3..3.3..",
        closing: b"3.31.3.31.",
    },
    Row {
        drawing: Example::TwoTransformers,
        closed: b"11",
        opening: b"3.",
        closing: b"3.",
    },
    Row {
        drawing: Example::BareStub,
        closed: b"001",
        opening: b"...",
        closing: b"...",
    },
    Row {
        drawing: Example::BareStub,
        closed: b"011",
        opening: b"...",
        closing: b"...",
    },
];

// What a sign of a row stands for.
fn rule_of(sign: u8) -> Option<Rule> {
    match sign {
        b'1' => Some(Rule::R1),
        b'2' => Some(Rule::R2),
        b'3' => Some(Rule::R3),
        _ => None,
    }
}

// Whether the operation breaks this rule, where this is the contraction of all other items.
fn is_rule_by_ends(others: &Contraction, station: &Station, op: Op, rule: Option<Rule>) -> bool
    requires { IsOperation station.now op }
{
    let kept = others.keeps_ends(station, op.switch);
    if !kept {
        return false;
    }
    others.ends_break(station, op) == rule
}

// Whether the operation breaks this rule in these positions.
fn is_rule_in(alloc: Global, station: &Station, closed: &[u8], op: Op, rule: Option<Rule>) -> bool
    requires op { IsOperation station.now op }
    requires closed { length closed.now ≡ length station.now.switches }
{
    match contraction_of(alloc, station, Items::AllBut(op.switch.0), closed) {
        Ok(others) => is_rule_by_ends(&others, station, op, rule),
        Err(_) => false,
    }
}

// Whether the operations of all switches in this direction break these rules, a sign for each.
fn are_rules(
    alloc: Global,
    station: &Station,
    closed: &[u8],
    direction: Direction,
    signs: &[u8],
) -> bool
    requires { length closed.now ≡ length station.now.switches }
{
    if !is_whole(station, signs) {
        return false;
    }
    for i in 0..station.switch_count() {
        let op = Op {
            switch: SwitchId(i),
            direction,
        };
        if !is_rule_in(alloc, station, closed, op, rule_of(signs[i as usize])) {
            return false;
        }
    }
    true
}

impl StationRow for Row {
    fn example(&self) -> Example {
        self.drawing
    }

    fn holds(&self, alloc: Global, station: &Station) -> bool {
        is_whole(station, self.closed)
            && are_rules(alloc, station, self.closed, Direction::ToOff, self.opening)
            && are_rules(alloc, station, self.closed, Direction::ToOn, self.closing)
    }
}

#[test]
fn all_operations(rt: HostRuntime) {
    assert!(rt; rows_hold(rt.alloc(), ROWS));
}
