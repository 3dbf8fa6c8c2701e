//! The moves from a position.
ghost use Rattle.std.specs.Prelude.{◌≡◌, ◌↔◌, ◌++◌, ℕ, ◌<◌, IsTrue, IsFalse, length, IfOk, OnOk};
ghost use Rattle.station_graph.specs.Alike.{IsVector};
ghost use Rattle.decision_graphs.specs.Reaching.{IsSet};
ghost use Rattle.commissioning_tests.specs.Answering.{AreAnswers, TurnsAt, IsPosition};
ghost use Rattle.commissioning_tests.specs.Covering.{TurnIsShown};
ghost use Rattle.commissioning_tests.specs.Growing.{AreOperations, IsMoveOf, list_of, AreMovesOf, IsAdded};

use crate::answers::{answers_in, turns_at, vector_of};
use crate::found::Found;
use crate::sound::is_sound;
use crate::turn_index::is_turn_noted;
use crate::values::{TestMove, TestPosition};
use ilk_base::{Memory, Op, Rule, SwitchId};
use station_graph::{Station, Vector};
use std::alloc::Global;

// Whether the switch is asked.
fn is_asked(asked: &[bool], switch: SwitchId) -> bool
    ensures { IsTrue result ↔ IsSet asked.now switch.0 }
{
    usize::from(switch.0) < asked.len() && asked[usize::from(switch.0)]
}

// Whether the answers of operation k turn, and it is not noted that a position shows it.
fn is_new(
    found: &Found,
    answers: &[Option<Rule>],
    others: &[Option<Rule>],
    k: usize,
    switch: SwitchId,
) -> bool
    ensures turns { IsTrue result → TurnsAt k answers.now others.now }
    ensures shown { IsFalse result → TurnsAt k answers.now others.now
        → TurnIsShown found.now.positions.items k switch.0 }
{
    turns_at(answers, others, k) && !is_turn_noted(&found.positions, &found.index, k, switch)
}

// Whether the answers of some operation turn, and it is not noted that a position shows it.
fn shows_more(
    found: &Found,
    answers: &[Option<Rule>],
    others: &[Option<Rule>],
    switch: SwitchId,
) -> bool
    ensures turns { IsTrue result → (k : ℕ) × TurnsAt k answers.now others.now }
    ensures shown { IsFalse result → (k : ℕ) → TurnsAt k answers.now others.now
        → TurnIsShown found.now.positions.items k switch.0 }
{
    for k in 0..answers.len() {
        if is_new(found, answers, others, k, switch) {
            return true;
        }
    }
    false
}

// The move of a switch, where the switch is asked and that shows what the positions do not.
fn move_of(
    alloc: Global,
    station: &Station,
    operations: &[Op],
    asked: &[bool],
    found: &Found,
    vector: &Vector,
    answers: &[Option<Rule>],
    switch: SwitchId,
) -> Result<Option<TestMove>, Memory>
    requires operations { AreOperations station.now operations.now }
    requires vector { IsVector station.now vector.now }
    requires answers { AreAnswers station.now operations.now vector.now answers.now }
    requires switch { switch.0 < length station.now.switches }
    ensures { IfOk result (IsMoveOf station.now operations.now asked.now found.now.positions.items vector.now answers.now switch.0) }
{
    if !is_asked(asked, switch) {
        return Ok(None);
    }
    let other = vector.with(alloc, switch, !vector.closed(switch))?;
    let others = answers_in(alloc, station, operations, &other)?;
    if !shows_more(found, answers, &others, switch) {
        return Ok(None);
    }
    let sound = is_sound(alloc, station, &other)?;
    Ok(Some(TestMove {
        switch,
        answers: others,
        sound,
    }))
}

// Appends the move, if there is one.
fn push_move(moves: &mut Vec<TestMove>, found: Option<TestMove>) -> Result<(), Memory>
    ensures { OnOk result (moves.new.items ≡ moves.old.items ++ list_of found) }
{
    if let Some(one) = found {
        moves.push(one)?;
    }
    Ok(())
}

// The moves that show what the positions do not.
fn moves_of(
    alloc: Global,
    station: &Station,
    operations: &[Op],
    asked: &[bool],
    found: &Found,
    vector: &Vector,
    answers: &[Option<Rule>],
) -> Result<Vec<TestMove>, Memory>
    requires operations { AreOperations station.now operations.now }
    requires vector { IsVector station.now vector.now }
    requires answers { AreAnswers station.now operations.now vector.now answers.now }
    ensures { IfOk result (λ m. AreMovesOf station.now operations.now asked.now found.now.positions.items vector.now answers.now m.items) }
{
    let mut moves = Vec::new(alloc);
    for s in 0..station.switch_count() {
        let one = move_of(
            alloc,
            station,
            operations,
            asked,
            found,
            vector,
            answers,
            SwitchId(s),
        )?;
        push_move(&mut moves, one)?;
    }
    Ok(moves)
}

// The position, with the moves that show what the others do not.
fn position_of(
    alloc: Global,
    station: &Station,
    operations: &[Op],
    asked: &[bool],
    found: &Found,
    closed: Vec<bool>,
) -> Result<TestPosition, Memory>
    requires operations { AreOperations station.now operations.now }
    requires vector { IsVector station.now closed.items }
    ensures position { IfOk result (IsPosition station.now operations.now) }
    ensures closed { IfOk result (λ p. p.closed.items ≡ closed.items) }
    ensures moves { IfOk result (λ p. AreMovesOf station.now operations.now asked.now found.now.positions.items p.closed.items p.answers.items
        p.moves.items) }
{
    let vector = vector_of(alloc, station, &closed)?;
    let answers = answers_in(alloc, station, operations, &vector)?;
    let sound = is_sound(alloc, station, &vector)?;
    let moves = moves_of(alloc, station, operations, asked, found, &vector, &answers)?;
    Ok(TestPosition {
        closed,
        answers,
        sound,
        moves,
    })
}

// Adds the position.
pub(crate) fn add_position(
    alloc: Global,
    station: &Station,
    operations: &[Op],
    asked: &[bool],
    found: &mut Found,
    closed: Vec<bool>,
) -> Result<(), Memory>
    requires operations { AreOperations station.now operations.now }
    requires vector { IsVector station.now closed.items }
    ensures { OnOk result (IsAdded station.now operations.now asked.now found.old.positions.items found.new.positions.items closed.items) }
{
    let position = position_of(alloc, station, operations, asked, found, closed)?;
    let number = found.positions.len();
    found.index.note(&position, number);
    found.positions.push(position)?;
    Ok(())
}
