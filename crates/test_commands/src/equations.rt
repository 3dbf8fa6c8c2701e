//! The equations of small stations, worked by hand from the rules.
ghost use Rattle.std.specs.Prelude.{◌≡◌, ◌<◌, length};

use crate::asked::{Answer, Asked, Row};
use equation_text::{Equations, compile_equations, compile_text};
use ilk_base::{Direction, Memory, Op, Rule, SwitchId};
use release_compile::GraphJudge;
use station_graph::{Station, Vector};
use std::alloc::Global;
use test_stations::{Example, row_holds, rows_hold};

// Whether this is the text of the equations.
pub(crate) fn is_text(alloc: Global, station: &Station, judge: &GraphJudge, wanted: &[u8]) -> bool
    requires { judge.now.diagram ≡ station.now }
{
    match compile_text(alloc, station, judge) {
        Ok(text) => text.bytes() == wanted,
        Err(_) => false,
    }
}

// Stations and their texts. The part of the earthed line has one index: step 0 tests its first switch, and the
// two steps behind it, which both test the second, lead to it.
const TEXTS: &[Row] = &[
    Row {
        drawing: Example::Nothing,
        asked: Asked::Text(b"equations\nend\n"),
    },
    Row {
        drawing: Example::EarthedLine,
        asked: Asked::Text(
            b"equations\nswitch 0 S/V1/Q1/QC9\nswitch 1 S/V1/Q1/E1\npart 0 0\nstep 0 0 0 1 2\nstep 0 1 1 =0 =0\n\
            step 0 2 1 =0 =0\nop 0 open ok\nop 0 close 1\nop 1 open ok\nop 1 close 0\nnode 0 switch 0 ok R2\n\
            node 1 switch 1 ok R1\nend\n",
        ),
    },
];

#[test]
fn texts_of_stations(rt: HostRuntime) {
    assert!(rt; rows_hold(rt.alloc(), TEXTS));
}

const ANSWERS: &[Answer] = &[
    (0, false, None),
    (0, true, Some(Rule::R1)),
    (1, false, None),
    (1, true, Some(Rule::R2)),
];

// Whether this is the answer of closing one of two switches where the other one is closed or not.
fn is_answer(
    alloc: Global,
    station: &Station,
    equations: &Equations,
    switch: u16,
    closed: bool,
    wanted: Option<Rule>,
) -> Result<bool, Memory>
    requires ops { length equations.now.ops ≡ 2 }
    requires two { length station.now.switches ≡ 2 }
    requires switch { switch < 2 }
{
    let mut vector = Vector::all_open(alloc, station)?;
    vector.set(SwitchId(1 - switch), closed);
    let op = Op {
        switch: SwitchId(switch),
        direction: Direction::ToOn,
    };
    Ok(equations.evaluate(op, &vector) == wanted)
}

// Whether the equations of two switches give these answers.
fn give_answers(alloc: Global, station: &Station, equations: &Equations, rows: &[Answer]) -> bool
    requires ops { length equations.now.ops ≡ 2 }
    requires two { length station.now.switches ≡ 2 }
{
    for (switch, closed, wanted) in rows {
        if *switch >= 2 {
            return false;
        }
        let given = is_answer(alloc, station, equations, *switch, *closed, *wanted);
        if !matches!(given, Ok(true)) {
            return false;
        }
    }
    true
}

// Whether the equations of the judge give these answers.
pub(crate) fn has_answers(
    alloc: Global,
    station: &Station,
    judge: &GraphJudge,
    rows: &[Answer],
) -> Result<bool, Memory>
    requires { judge.now.diagram ≡ station.now }
{
    if station.switch_count() != 2 {
        return Ok(false);
    }
    let equations = compile_equations(alloc, judge)?;
    Ok(give_answers(alloc, station, &equations, rows))
}

const EARTHED_LINE: Row = Row {
    drawing: Example::EarthedLine,
    asked: Asked::Answers(ANSWERS),
};

#[test]
fn answers_of_the_earthed_line(rt: HostRuntime) {
    assert!(rt; row_holds(rt.alloc(), &EARTHED_LINE));
}
