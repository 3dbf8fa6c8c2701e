//! Which switches may turn the operations of the walks at hand, where no position is noted that shows it.
ghost use Rattle.std.specs.Prelude.{◌≡◌};

use crate::found::Found;
use crate::layers::layer_of;
use crate::paths::Released;
use crate::stands::is_moved;
use crate::switch_paths::SwitchPaths;
use crate::turn_index::TurnIndex;
use crate::walked::OperationWalk;
use ilk_base::{Memory, SwitchId};
use station_graph::Station;
use station_joints::JointSteps;
use std::alloc::Global;

// A switch that may turn an operation of a walk's switch, by the choice of a layer.
#[derive(Clone, Copy)]
pub(crate) struct OpenTurn {
    pub(crate) switch: SwitchId,
    pub(crate) layer: u16,
}

// Whether the choice of a layer turns the operation of which this is told.
fn turns_at(turns: &[bool], layer: u16) -> bool {
    usize::from(layer) < turns.len() && turns[usize::from(layer)]
}

// Whether the turn is one of the operation that opens the walk's switch, which no position is noted to show.
fn is_opening(index: &TurnIndex, of: &SwitchPaths, turn: OpenTurn) -> bool {
    turns_at(&of.turns_opening, turn.layer) && !index.has(of.opening, turn.switch)
}

// So of the operation that closes it.
fn is_closing(index: &TurnIndex, of: &SwitchPaths, turn: OpenTurn) -> bool {
    turns_at(&of.turns_closing, turn.layer) && !index.has(of.opening.saturating_add(1), turn.switch)
}

// Whether a turn that no position is noted to show is made from choices that lead to one label, where the other choice in
// its layer leads to the other.
pub(crate) fn is_turned(
    index: &TurnIndex,
    of: &SwitchPaths,
    turn: OpenTurn,
    base: Released,
    other: Released,
) -> bool {
    (base.open != other.open && is_opening(index, of, turn))
        || (base.close != other.close && is_closing(index, of, turn))
}

// Adds the turn, if no position is noted to show it.
fn push_turn(
    list: &mut Vec<OpenTurn>,
    index: &TurnIndex,
    of: &SwitchPaths,
    turn: OpenTurn,
) -> Result<(), Memory> {
    if is_opening(index, of, turn) || is_closing(index, of, turn) {
        list.push(turn)?;
    }
    Ok(())
}

// The turns of the switches that are moved, by this walk, that no position is noted to show.
pub(crate) fn turns_of(
    alloc: Global,
    station: &Station,
    steps: &JointSteps,
    stands: &[u16],
    index: &TurnIndex,
    of: &SwitchPaths,
) -> Result<Vec<OpenTurn>, Memory> {
    let mut list = Vec::new(alloc);
    for s in 0..station.switch_count() {
        if is_moved(stands, s) {
            if let Some(layer) = layer_of(steps, of.place, s) {
                let switch = SwitchId(s);
                push_turn(&mut list, index, of, OpenTurn { switch, layer })?;
            }
        }
    }
    Ok(list)
}

// So by each of these walks.
pub(crate) fn open_turns(
    alloc: Global,
    station: &Station,
    steps: &JointSteps,
    stands: &[u16],
    index: &TurnIndex,
    walks: &[SwitchPaths],
) -> Result<Vec<Vec<OpenTurn>>, Memory> {
    let mut all = Vec::new(alloc);
    for i in 0..walks.len() {
        all.push(turns_of(alloc, station, steps, stands, index, &walks[i])?)?;
    }
    Ok(all)
}

// The walk of this number.
pub(crate) fn walk_at<'a>(walked: &OperationWalk<'a>, number: usize) -> &'a SwitchPaths {
    if number < walked.bay.len() {
        &walked.bay[number]
    } else {
        walked.own
    }
}

// Whether the turn is still open. It is as long as no move of its switch is noted.
fn is_open(index: &TurnIndex, of: &SwitchPaths, turn: OpenTurn) -> bool {
    !index.is_fresh(turn.switch) || is_opening(index, of, turn) || is_closing(index, of, turn)
}

// Moves a turn to the place of an earlier one.
fn put_turn(open: &mut Vec<OpenTurn>, place: usize, turn: OpenTurn) {
    if place < open.len() {
        open[place] = turn;
    }
}

// Takes out the turns of a walk that are noted by now.
fn drop_of(index: &TurnIndex, of: &SwitchPaths, open: &mut Vec<OpenTurn>) {
    let mut kept = 0usize;
    for j in 0..open.len() {
        if j < open.len() {
            let turn = open[j];
            if is_open(index, of, turn) {
                put_turn(open, kept, turn);
                kept = kept.saturating_add(1);
            }
        }
    }
    open.truncate(kept);
}

// Takes out the turns that are noted by now, of all walks at hand.
fn drop_from(walked: &OperationWalk<'_>, index: &TurnIndex, open: &mut Vec<Vec<OpenTurn>>) {
    for i in 0..open.len() {
        if i < open.len() {
            drop_of(index, walk_at(walked, i), &mut open[i]);
        }
    }
}

// Takes out the turns that are noted by now.
pub(crate) fn drop_noted(walked: &OperationWalk<'_>, found: &mut Found)
    ensures { found.new.positions.items ≡ found.old.positions.items }
{
    drop_from(walked, &found.index, &mut found.open);
    found.index.put_fresh(false);
}
