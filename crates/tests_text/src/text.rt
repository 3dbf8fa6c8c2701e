//! The text of the tests of a bay.
ghost use Rattle.std.specs.Prelude.{◌≡◌, ◌<◌, ◌++◌, All, length, decimal, flat_map};
ghost use Rattle.std.specs.Prelude.{IfOk, OnOk};
ghost use Rattle.station_graph.specs.Alike.{IsVector};
ghost use Rattle.station_graph.specs.CentralRules.{IsOperation};
ghost use Rattle.station_graph.specs.Diagram.{part_count};
ghost use Rattle.path_names.specs.Tables.{paths_of};
ghost use Rattle.tests_text.specs.Fitting.{MoveFits, PositionFits, TestsFit};
ghost use Rattle.tests_text.specs.TestsText.{always_lines, needs_lines, with_lines, denied_lines, bay_lines};
ghost use Rattle.tests_text.specs.TestsText.{turned_lines, move_lines, position_lines, positions_lines, tests_lines};

use crate::lines::{
    push_denied, push_operation, push_part, push_switch, push_turned, push_unsound, push_with,
};
use commissioning_tests::{BayTests, TestMove, TestPosition};
use ilk_base::{BayId, Memory, Op, Rule, SwitchId};
use path_names::{push_decimal, station_paths};
use piece_writer::NamedText;
use station_graph::Station;
use std::alloc::Global;

// Appends the lines of the operations that are always released.
fn push_always(text: &mut NamedText, station: &Station, ops: &[Op]) -> Result<(), Memory>
    requires names { text.old.names ≡ paths_of station.now }
    requires operations { All (IsOperation station.now) ops.now }
    ensures ok { OnOk result (text.new.text ≡ text.old.text ++ always_lines station.now ops.now) }
    ensures names { text.new.names ≡ text.old.names }
{
    for op in ops {
        push_operation(text, b"always ", station, *op)?;
    }
    Ok(())
}

// Appends the lines of the switches that the bay needs.
fn push_needs(text: &mut NamedText, station: &Station, switches: &[SwitchId]) -> Result<(), Memory>
    requires names { text.old.names ≡ paths_of station.now }
    requires within { All (λ s. s.0 < length station.now.switches) switches.now }
    ensures ok { OnOk result (text.new.text ≡ text.old.text ++ needs_lines station.now switches.now) }
    ensures names { text.new.names ≡ text.old.names }
{
    for id in switches {
        push_switch(text, b"needs ", station, *id)?;
    }
    Ok(())
}

// Appends the lines of the closed switches.
fn push_closed(text: &mut NamedText, station: &Station, closed: &[bool]) -> Result<(), Memory>
    requires names { text.old.names ≡ paths_of station.now }
    requires vector { IsVector station.now closed.now }
    ensures ok { OnOk result (text.new.text ≡ text.old.text ++ with_lines station.now closed.now) }
    ensures names { text.new.names ≡ text.old.names }
{
    for i in 0..station.switch_count() {
        push_with(text, station, SwitchId(i), closed[i as usize])?;
    }
    Ok(())
}

// Appends the lines of the operations that break a rule.
fn push_all_denied(
    text: &mut NamedText,
    station: &Station,
    ops: &[Op],
    answers: &[Option<Rule>],
) -> Result<(), Memory>
    requires names { text.old.names ≡ paths_of station.now }
    requires ops { All (IsOperation station.now) ops.now }
    requires answers { length answers.now ≡ length ops.now }
    ensures ok { OnOk result (text.new.text ≡ text.old.text ++ denied_lines station.now ops.now answers.now) }
    ensures names { text.new.names ≡ text.old.names }
{
    for (k, op) in ops.iter().enumerate() {
        push_denied(text, station, *op, answers[k])?;
    }
    Ok(())
}

// Appends the lines of the operations that a move turns.
fn push_all_turned(
    text: &mut NamedText,
    station: &Station,
    ops: &[Op],
    before: &[Option<Rule>],
    after: &[Option<Rule>],
) -> Result<(), Memory>
    requires names { text.old.names ≡ paths_of station.now }
    requires ops { All (IsOperation station.now) ops.now }
    requires before { length before.now ≡ length ops.now }
    requires after { length after.now ≡ length ops.now }
    ensures ok { OnOk result (text.new.text ≡ text.old.text ++ turned_lines station.now ops.now before.now after.now) }
    ensures names { text.new.names ≡ text.old.names }
{
    for (k, op) in ops.iter().enumerate() {
        push_turned(text, station, *op, before[k], after[k])?;
    }
    Ok(())
}

// Appends the lines of a move.
fn push_move(
    text: &mut NamedText,
    station: &Station,
    ops: &[Op],
    position: &TestPosition,
    turn: &TestMove,
) -> Result<(), Memory>
    requires names { text.old.names ≡ paths_of station.now }
    requires ops { All (IsOperation station.now) ops.now }
    requires position { PositionFits station.now ops.now position.now }
    requires turn { MoveFits station.now ops.now turn.now }
    ensures ok { OnOk result (text.new.text ≡ text.old.text ++ move_lines station.now ops.now position.now turn.now) }
    ensures names { text.new.names ≡ text.old.names }
{
    let word: &'static [u8] = if position.closed[turn.switch.0 as usize] {
        b"opened "
    } else {
        b"closed "
    };
    push_switch(text, word, station, turn.switch)?;
    push_unsound(text, turn.sound || !position.sound)?;
    push_all_turned(text, station, ops, &position.answers, &turn.answers)
}

// Appends the lines of the moves from a position.
fn push_moves(
    text: &mut NamedText,
    station: &Station,
    ops: &[Op],
    position: &TestPosition,
) -> Result<(), Memory>
    requires names { text.old.names ≡ paths_of station.now }
    requires ops { All (IsOperation station.now) ops.now }
    requires position { PositionFits station.now ops.now position.now }
    ensures ok { OnOk result (text.new.text ≡ text.old.text
        ++ flat_map (move_lines station.now ops.now position.now) position.now.moves.items) }
    ensures names { text.new.names ≡ text.old.names }
{
    for turn in &position.moves {
        push_move(text, station, ops, position, turn)?;
    }
    Ok(())
}

// Appends the lines of a position and of its moves.
fn push_position(
    text: &mut NamedText,
    station: &Station,
    ops: &[Op],
    number: usize,
    position: &TestPosition,
) -> Result<(), Memory>
    requires names { text.old.names ≡ paths_of station.now }
    requires ops { All (IsOperation station.now) ops.now }
    requires position { PositionFits station.now ops.now position.now }
    ensures ok { OnOk result (text.new.text ≡ text.old.text ++ position_lines station.now ops.now number position.now) }
    ensures names { text.new.names ≡ text.old.names }
{
    text.word(b"position ")?;
    push_decimal(text, number)?;
    text.word(b"\n")?;
    push_unsound(text, position.sound)?;
    push_closed(text, station, &position.closed)?;
    push_all_denied(text, station, ops, &position.answers)?;
    push_moves(text, station, ops, position)
}

// Appends the lines of all positions.
fn push_positions(
    text: &mut NamedText,
    station: &Station,
    ops: &[Op],
    positions: &[TestPosition],
) -> Result<(), Memory>
    requires names { text.old.names ≡ paths_of station.now }
    requires ops { All (IsOperation station.now) ops.now }
    requires positions { All (PositionFits station.now ops.now) positions.now }
    ensures ok { OnOk result (text.new.text ≡ text.old.text ++ positions_lines station.now ops.now positions.now) }
    ensures names { text.new.names ≡ text.old.names }
{
    for (i, position) in positions.iter().enumerate() {
        push_position(text, station, ops, i + 1, position)?;
    }
    Ok(())
}

// Appends what is always released, what the bay needs, and the positions.
pub(crate) fn push_tests(
    text: &mut NamedText,
    station: &Station,
    tests: &BayTests,
) -> Result<(), Memory>
    requires names { text.old.names ≡ paths_of station.now }
    requires fits { TestsFit station.now tests.now }
    ensures ok { OnOk result (text.new.text ≡ text.old.text ++ bay_lines station.now tests.now) }
    ensures names { text.new.names ≡ text.old.names }
{
    push_always(text, station, &tests.always)?;
    push_needs(text, station, &tests.needs)?;
    push_positions(text, station, &tests.operations, &tests.positions)
}

/// The text of the tests of a bay of the station: `bay PATH`; `always open PATH` (or `close`) for each operation that
/// is always released; `needs PATH` for each switch of another bay on which an operation of the bay depends; and the
/// positions, numbered from 1. A position is the line `position K`, `unsound` where some node is both energisable and
/// earthable, `with PATH` for each closed switch, `denied RULE
/// open PATH` for each operation that breaks a rule there, and its moves: `closed PATH` or `opened PATH`, and `denied
/// RULE open PATH` or `released open PATH` for each operation whose release the move turns. Tests of a bay fit, by
/// `tests_fit`. Each path is held once, however often the lines name it. Time: the lines, and for each position the
/// switches, and for it and each of its moves the operations. Memory: the paths, and some bytes a line.
pub fn tests_text(
    alloc: Global,
    station: &Station,
    bay: BayId,
    tests: &BayTests,
) -> Result<NamedText, Memory>
    requires bay { bay.0 < part_count station.now }
    requires fits { TestsFit station.now tests.now }
    ensures { IfOk result (λ t. t.text ≡ tests_lines station.now bay.0 tests.now) }
{
    let names = station_paths(alloc, station)?;
    let mut text = NamedText::new(alloc, names);
    push_part(&mut text, b"bay ", station, bay)?;
    push_tests(&mut text, station, tests)?;
    Ok(text)
}
