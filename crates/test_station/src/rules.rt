//! Worked rows of the rules on small stations. The positions and answers are worked by hand.
ghost use Rattle.std.specs.Prelude.{◌≡◌, length, IfOk};
ghost use Rattle.station_graph.specs.Alike.{IsVector};
ghost use Rattle.station_graph.specs.CentralRules.{IsOperation};

use central_rules::{breaks, labels};
use ilk_base::{Direction, Memory, Op, Rule, SwitchId};
use station_graph::{Station, Vector};
use std::alloc::Global;
use test_stations::{Example, StationRow, rows_hold};

// The vector of these positions, a sign for each switch: 1 is closed.
fn positions(alloc: Global, station: &Station, closed: &[u8]) -> Result<Vector, Memory>
    requires { length closed.now ≡ length station.now.switches }
    ensures { IfOk result (λ v. IsVector station.now v) }
{
    let mut vector = Vector::all_open(alloc, station)?;
    for i in 0..station.switch_count() {
        vector.set(SwitchId(i), closed[i as usize] == b'1');
    }
    Ok(vector)
}

// What a sign of a row stands for.
fn rule_of(sign: u8) -> Option<Rule> {
    match sign {
        b'1' => Some(Rule::R1),
        b'2' => Some(Rule::R2),
        b'3' => Some(Rule::R3),
        _ => None,
    }
}

// A row: the positions, and for each switch the rule that opening it breaks and that closing it breaks.
struct Row {
    drawing: Example,
    closed: &'static [u8],
    opening: &'static [u8],
    closing: &'static [u8],
}

// The switches of a feeder are in order QB1, QA1, QB9, QC9, E1. The rows are: earthed behind an open breaker on the
// busbar, and fed from the other feeder; both feeders through; the path through transformers, which is no bond; the
// bare stub with the other disconnector closed.
const ROWS: &[Row] = &[
    Row {
        drawing: Example::TwoFeeders,
        closed: b"1011011101",
        opening: b"..........",
        closing: b"2221222212",
    },
    Row {
        drawing: Example::TwoFeeders,
        closed: b"1110111101",
        opening: b"3.3..3.3..",
        closing: b"3.31.3.31.",
    },
    Row {
        drawing: Example::TwoTransformers,
        closed: b"11",
        opening: b"3.",
        closing: b"3.",
    },
    Row {
        drawing: Example::BareStub,
        closed: b"011",
        opening: b"...",
        closing: b"...",
    },
];

// Whether the operation breaks the rule of the sign.
fn is_rule(alloc: Global, station: &Station, vector: &Vector, op: Op, sign: u8) -> bool
    requires vector { IsVector station.now vector.now }
    requires op { IsOperation station.now op }
{
    match breaks(alloc, station, vector, op) {
        Ok(rule) => rule == rule_of(sign),
        Err(_) => false,
    }
}

// Whether the operations of all switches in this direction break these rules, a sign for each.
fn are_rules(
    alloc: Global,
    station: &Station,
    vector: &Vector,
    direction: Direction,
    signs: &[u8],
) -> bool
    requires { IsVector station.now vector.now }
{
    if signs.len() != usize::from(station.switch_count()) {
        return false;
    }
    for i in 0..station.switch_count() {
        let op = Op {
            switch: SwitchId(i),
            direction,
        };
        if !is_rule(alloc, station, vector, op, signs[i as usize]) {
            return false;
        }
    }
    true
}

impl StationRow for Row {
    fn example(&self) -> Example {
        self.drawing
    }

    fn holds(&self, alloc: Global, station: &Station) -> bool {
        if self.closed.len() != usize::from(station.switch_count()) {
            return false;
        }
        match positions(alloc, station, self.closed) {
            Ok(vector) => {
                are_rules(alloc, station, &vector, Direction::ToOff, self.opening)
                    && are_rules(alloc, station, &vector, Direction::ToOn, self.closing)
            }
            Err(_) => false,
        }
    }
}

#[test]
fn worked_rows(rt: HostRuntime) {
    assert!(rt; rows_hold(rt.alloc(), ROWS));
}

// The least nodes to which the nodes are joined, or bonded, where two transformers join three busbars.
struct Least {
    bonds_only: bool,
    numbers: &'static [u16],
}

// Whether these are the least nodes.
fn are_least(alloc: Global, station: &Station, vector: &Vector, least: &Least) -> bool
    requires { IsVector station.now vector.now }
{
    match labels(alloc, station, vector, least.bonds_only) {
        Ok(nodes) => nodes.numbers() == least.numbers,
        Err(_) => false,
    }
}

impl StationRow for Least {
    fn example(&self) -> Example {
        Example::TwoTransformers
    }

    fn holds(&self, alloc: Global, station: &Station) -> bool {
        if station.switch_count() != 2 {
            return false;
        }
        match positions(alloc, station, b"10") {
            Ok(vector) => are_least(alloc, station, &vector, self),
            Err(_) => false,
        }
    }
}

const LEAST: &[Least] = &[
    Least {
        bonds_only: false,
        numbers: &[0, 0, 0],
    },
    Least {
        bonds_only: true,
        numbers: &[0, 0, 2],
    },
];

// What is joined and what is bonded.
#[test]
fn least_nodes(rt: HostRuntime) {
    assert!(rt; rows_hold(rt.alloc(), LEAST));
}
