//! Which switches are moved in a position: those of which it is guessed that they turn what no position shows yet. By the
//! edges of the bay's walks the guess is exact. Where these are many, each switch is moved in a small station that may show
//! something, and in a large one those that turn an operation of the switch whose walk is at hand.
ghost use Rattle.std.specs.Prelude.{◌≡◌, ◌<◌, true, Some, length, IfOk};
ghost use Rattle.ilk_base.specs.declared.words.SwitchId.{SwitchId as Kept};
ghost use Rattle.station_graph.specs.Alike.{IsVector};
ghost use Rattle.decision_graphs.specs.Reaching.{IsSet};

use crate::found::Found;
use crate::layers::{choices_of, closed_places};
use crate::open_turns::{OpenTurn, drop_noted, is_turned, walk_at};
use crate::paths::{Released, number_at};
use crate::stands::is_moved;
use crate::switch_paths::SwitchPaths;
use crate::told::{Choices, Told};
use crate::turn_index::{TurnIndex, all_noted};
use crate::walked::OperationWalk;
use ilk_base::{Memory, SwitchId};
use std::alloc::Global;

// A station of more switches is large.
const FEW_SWITCHES: u16 = 64;

// The node before each layer to which the choices lead.
fn way_of(alloc: Global, choices: Choices<'_>) -> Result<Vec<u32>, Memory> {
    let mut way = Vec::new(alloc);
    let mut node = 0;
    for layer in 0..choices.paths.layers() {
        way.push(node)?;
        node = choices.next(layer, node);
    }
    Ok(way)
}

// What the label says to which the choices lead with the other one in a layer.
fn flipped_told(told: &mut Told, choices: Choices<'_>, way: &[u32], layer: u16) -> Released {
    let node = number_at(way, usize::from(layer));
    let flipped = choices.flipped(layer, node);
    let label = told.label(choices, layer.saturating_add(1), flipped);
    choices.paths.told(label)
}

// Whether the switch is guessed.
fn is_guessed(guessed: &[bool], s: u16) -> bool {
    usize::from(s) < guessed.len() && guessed[usize::from(s)]
}

// Guesses the switch.
fn put_guessed(guessed: &mut Vec<bool>, s: u16) {
    let place = usize::from(s);
    if place < guessed.len() {
        guessed[place] = true;
    }
}

// Guesses the switches whose open turns of a walk are made from the choices whose way this is.
fn guess_from(
    of: &SwitchPaths,
    open: &[OpenTurn],
    index: &TurnIndex,
    told: &mut Told,
    choices: Choices<'_>,
    way: &[u32],
    guessed: &mut Vec<bool>,
) {
    let label = told.label(choices, 0, 0);
    let base = choices.paths.told(label);
    for j in 0..open.len() {
        let turn = open[j];
        if !is_guessed(guessed, turn.switch.0) {
            let other = flipped_told(told, choices, way, turn.layer);
            if is_turned(index, of, turn, base, other) {
                put_guessed(guessed, turn.switch.0);
            }
        }
    }
}

// Guesses the switches whose open turns of a walk are made in this position, which says for each step whether its switch
// is closed.
fn guess_by(
    alloc: Global,
    of: &SwitchPaths,
    open: &[OpenTurn],
    index: &TurnIndex,
    told: &mut Told,
    places: &[bool],
    guessed: &mut Vec<bool>,
) -> Result<(), Memory> {
    if open.len() == 0 {
        return Ok(());
    }
    let closed = choices_of(alloc, places, of.place, of.paths.layers())?;
    let choices = Choices {
        paths: &of.paths,
        closed: &closed,
    };
    let way = way_of(alloc, choices)?;
    told.begin(choices.paths)?;
    guess_from(of, open, index, told, choices, &way, guessed);
    Ok(())
}

// Guesses the switches whose open turns are made in this position, by the walks at hand.
fn guess_all(
    alloc: Global,
    walked: &OperationWalk<'_>,
    open: &[Vec<OpenTurn>],
    index: &TurnIndex,
    told: &mut Told,
    places: &[bool],
) -> Result<Vec<bool>, Memory> {
    let mut guessed = Vec::new(alloc);
    guessed.resize(usize::from(walked.station.switch_count()), false)?;
    for i in 0..open.len() {
        let of = walk_at(walked, i);
        guess_by(alloc, of, &open[i], index, told, places, &mut guessed)?;
    }
    Ok(guessed)
}

// The switches whose open turns are made in this position, by the walks at hand.
fn guessed_by_walks(
    alloc: Global,
    walked: &OperationWalk<'_>,
    found: &mut Found,
    closed: &[bool],
) -> Result<Vec<bool>, Memory>
    requires { IsVector walked.now.station.now closed.now }
    ensures { found.new.positions.items ≡ found.old.positions.items }
{
    drop_noted(walked, found);
    let places = closed_places(alloc, walked.station, walked.steps, closed)?;
    let guessed = guess_all(
        alloc,
        walked,
        &found.open,
        &found.index,
        &mut found.told,
        &places,
    )?;
    Ok(guessed)
}

// The switches of which not all is shown.
fn guessed_by_notes(
    alloc: Global,
    walked: &OperationWalk<'_>,
    found: &Found,
) -> Result<Vec<bool>, Memory> {
    let mut guessed = Vec::new(alloc);
    for s in 0..walked.station.switch_count() {
        let count = walked.operations.len();
        let shown = all_noted(&found.positions, &found.index, count, SwitchId(s));
        guessed.push(is_moved(walked.stands, s) && !shown)?;
    }
    Ok(guessed)
}

// The switches that may turn what no position shows.
fn guessed(
    alloc: Global,
    walked: &OperationWalk<'_>,
    found: &mut Found,
    closed: &[bool],
) -> Result<Vec<bool>, Memory>
    requires { IsVector walked.now.station.now closed.now }
    ensures { found.new.positions.items ≡ found.old.positions.items }
{
    if walked.bay.len() == 0 && walked.station.switch_count() <= FEW_SWITCHES {
        return guessed_by_notes(alloc, walked, found);
    }
    guessed_by_walks(alloc, walked, found, closed)
}

// Whether it is this switch.
fn is_kept(kept: Option<SwitchId>, s: u16) -> bool
    ensures { (id : Kept) → kept ≡ Some id → s ≡ id.0 → result ≡ true }
{
    match kept {
        Some(id) => id.0 == s,
        None => false,
    }
}

// Whether the switch is kept or guessed.
fn is_asked(kept: Option<SwitchId>, guessed: &[bool], s: u16) -> bool
    ensures { (id : Kept) → kept ≡ Some id → s ≡ id.0 → result ≡ true }
{
    is_kept(kept, s) || is_guessed(guessed, s)
}

// For each switch whether it is to be moved in this position: the kept one is, and others that may turn what no position
// shows.
pub(crate) fn asked_of(
    alloc: Global,
    walked: &OperationWalk<'_>,
    found: &mut Found,
    closed: &[bool],
    kept: Option<SwitchId>,
) -> Result<Vec<bool>, Memory>
    requires { IsVector walked.now.station.now closed.now }
    ensures same { found.new.positions.items ≡ found.old.positions.items }
    ensures kept { IfOk result (λ v. (id : Kept) → kept ≡ Some id → id.0 < length walked.now.station.now.switches
        → IsSet v.items id.0) }
{
    let guessed = guessed(alloc, walked, found, closed)?;
    let mut asked = Vec::new(alloc);
    for s in 0..walked.station.switch_count() {
        asked.push(is_asked(kept, &guessed, s))?;
    }
    Ok(asked)
}
