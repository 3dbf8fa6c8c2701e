//! The text of tests that are made by hand, worked by hand: an earthing switch and an infeed at one node, told as if
//! the infeed were of another bay.
ghost use Rattle.std.specs.Prelude.{◌≡◌, ◌<◌, List, [], ◌∷◌, length, All, IfOk};
ghost use Rattle.station_graph.specs.Diagram.{Diagram, part_count};
ghost use Rattle.ilk_base.specs.declared.words.Op.{Op as Operation};
ghost use Rattle.tests_text.specs.Fitting.{MoveFits, PositionFits, TestsFit};

use commissioning_tests::{BayTests, TestMove, TestPosition};
use ilk_base::{BayId, Direction, Memory, Op, Rule, SwitchId};
use piece_writer::NamedText;
use station_graph::Station;
use std::alloc::Global;
use std::test::Fail;
use test_stations::{Example, built};
use tests_text::tests_text;

// Of the earthing switch and the infeed.
const EARTHING: SwitchId = SwitchId(0);

const INFEED: SwitchId = SwitchId(1);

// To open the earthing switch breaks no rule, and to close it breaks R1 where the infeed is closed. So it is released
// with both open, until the infeed is closed, and denied with both closed, until the infeed is opened. With both closed
// their node is energisable and earthable.
const TEXT: &[u8] = b"bay S/V1/Q1\n\
    always open S/V1/Q1/QC9\n\
    needs S/V1/Q1/E1\n\
    position 1\n\
    closed S/V1/Q1/E1\n\
    denied R1 close S/V1/Q1/QC9\n\
    position 2\n\
    unsound\n\
    with S/V1/Q1/QC9\n\
    with S/V1/Q1/E1\n\
    denied R1 close S/V1/Q1/QC9\n\
    opened S/V1/Q1/E1\n\
    released close S/V1/Q1/QC9\n";

// The earthing switch moved so.
fn earthing(direction: Direction) -> Op
    ensures { result.switch.0 ≡ 0 }
{
    Op {
        switch: EARTHING,
        direction,
    }
}

// The answers to opening and to closing it.
fn answers(alloc: Global, closing: Option<Rule>) -> Result<Vec<Option<Rule>>, Memory>
    ensures { IfOk result (λ v. length v.items ≡ 2) }
{
    Ok(vec![in alloc; None, closing]?)
}

// The infeed moved.
fn infeed_moved(alloc: Global, closing: Option<Rule>) -> Result<Vec<TestMove>, Memory>
    ensures { IfOk result (λ v. (d : Diagram) (ops : List Operation) → length d.switches ≡ 2 → length ops ≡ 2
        → All (MoveFits d ops) v.items) }
{
    let answers = answers(alloc, closing)?;
    Ok(vec![in alloc;
        TestMove {
            switch: INFEED,
            answers,
            sound: true
        },
    ]?)
}

// Both switches in one position, sound where they are open, and the infeed moved: what closing the earthing switch breaks
// before and after.
fn position(
    alloc: Global,
    closed: bool,
    before: Option<Rule>,
    after: Option<Rule>,
) -> Result<TestPosition, Memory>
    ensures { IfOk result (λ p. (d : Diagram) (ops : List Operation) → length d.switches ≡ 2 → length ops ≡ 2
        → PositionFits d ops p) }
{
    let moves = infeed_moved(alloc, after)?;
    let answers = answers(alloc, before)?;
    Ok(TestPosition {
        closed: vec![in alloc; closed; 2]?,
        answers,
        sound: !closed,
        moves,
    })
}

// The two positions.
fn positions(alloc: Global) -> Result<Vec<TestPosition>, Memory>
    ensures { IfOk result (λ v. (d : Diagram) (ops : List Operation) → length d.switches ≡ 2 → length ops ≡ 2
        → All (PositionFits d ops) v.items) }
{
    let open = position(alloc, false, None, Some(Rule::R1))?;
    let closed = position(alloc, true, Some(Rule::R1), None)?;
    Ok(vec![in alloc; open, closed]?)
}

// The tests of the earthing switch.
fn made_by_hand(alloc: Global) -> Result<BayTests, Memory>
    ensures { IfOk result (λ t. (d : Diagram) → length d.switches ≡ 2 → TestsFit d t) }
{
    let positions = positions(alloc)?;
    let operations = vec![in alloc; earthing(Direction::ToOff), earthing(Direction::ToOn)]?;
    let always = vec![in alloc; earthing(Direction::ToOff)]?;
    let needs = vec![in alloc; INFEED]?;
    Ok(BayTests {
        operations,
        always,
        needs,
        positions,
    })
}

// Whether the lines are that text.
fn is_text(alloc: Global, lines: &NamedText) -> bool {
    match lines.whole(alloc) {
        Ok(text) => text.bytes() == TEXT,
        Err(_) => false,
    }
}

// Whether their text is that above.
fn says(alloc: Global, station: &Station, tests: &BayTests) -> bool
    requires bay { 0 < part_count station.now }
    requires fits { TestsFit station.now tests.now }
{
    match tests_text(alloc, station, BayId(0), tests) {
        Ok(lines) => is_text(alloc, &lines),
        Err(_) => false,
    }
}

fn made_says(alloc: Global, station: &Station) -> bool
    requires bay { 0 < part_count station.now }
    requires two { length station.now.switches ≡ 2 }
{
    match made_by_hand(alloc) {
        Ok(tests) => says(alloc, station, &tests),
        Err(_) => false,
    }
}

fn station_says(alloc: Global, station: &Station) -> bool {
    station.part_count() > 0 && station.switch_count() == 2 && made_says(alloc, station)
}

#[test]
fn tests_are_written(rt: HostRuntime) -> Result<(), Fail> {
    let station = built(rt.alloc(), Example::EarthedLine)?;
    assert!(&rt; station_says(rt.alloc(), &station));
    Ok(())
}
