//! The search for a position in which many switches turn the operations of one: from one position switches are flipped
//! while more turn. What is found is a guess, for which any position would do.

use crate::flips::{Sweep, Worth, turned_worth, worth_at};
use crate::paths::{Paths, is_closed};
use crate::told::{Choices, Told};
use ilk_base::Memory;

// What the choices are worth with the other one in a layer: those before it lead to this node, and their flips to others.
fn flipped_worth(
    told: &mut Told,
    choices: Choices<'_>,
    worths: &[Worth],
    sweep: &Sweep,
    layer: u16,
    node: u32,
) -> u32 {
    let behind = layer.saturating_add(1);
    let next = choices.flipped(layer, node);
    let label = told.label(choices, behind, next);
    let back = told.label(choices, behind, choices.next(layer, node));
    let here = turned_worth(
        choices.paths.told(label),
        choices.paths.told(back),
        worth_at(worths, layer),
    );
    let closed = !is_closed(choices.closed, layer);
    told.worth(choices, worths, behind, next)
        .saturating_add(here)
        .saturating_add(sweep.turned(told, choices, layer, closed, label))
}

// Takes the other choice in a layer.
fn flip(closed: &mut Vec<bool>, layer: u16) {
    let place = usize::from(layer);
    if place < closed.len() {
        closed[place] = !closed[place];
    }
}

// Goes on by the choice of a layer, from the node before it and those to which flips lead. Gives the next node.
fn step(choices: Choices<'_>, worths: &[Worth], sweep: &mut Sweep, layer: u16, node: u32) -> u32 {
    let next = choices.next(layer, node);
    sweep.pass(choices.paths, is_closed(choices.closed, layer), next);
    sweep.add(choices.flipped(layer, node), next, worth_at(worths, layer));
    next
}

// The choices of a walk.
fn choices<'a>(paths: &'a Paths, closed: &'a [bool]) -> Choices<'a> {
    Choices { paths, closed }
}

// Changes the choices to some that are worth at least as much: tries each layer once, from the first on, but ends before
// this one where none was changed by then. Gives the layer behind the last that was changed, 0 where none was.
fn climb_once(
    paths: &Paths,
    worths: &[Worth],
    told: &mut Told,
    sweep: &mut Sweep,
    end: u16,
    closed: &mut Vec<bool>,
) -> Result<u16, Memory> {
    told.begin(paths)?;
    sweep.begin(paths)?;
    let mut changed = 0;
    let mut node = 0;
    let mut worth = told.worth(choices(paths, closed), worths, 0, node);
    for layer in 0..paths.layers() {
        if changed == 0 && layer >= end {
            return Ok(0);
        }
        let flipped = flipped_worth(told, choices(paths, closed), worths, sweep, layer, node);
        if worth < flipped {
            flip(closed, layer);
            worth = flipped;
            changed = layer.saturating_add(1);
        }
        node = step(choices(paths, closed), worths, sweep, layer, node);
    }
    Ok(changed)
}

// Changes the choices to some that are worth at least as much: tries each layer twice. What was tried with the choices as
// they stand is not tried again.
pub(crate) fn climb(
    paths: &Paths,
    worths: &[Worth],
    told: &mut Told,
    sweep: &mut Sweep,
    closed: &mut Vec<bool>,
) -> Result<(), Memory> {
    let changed = climb_once(paths, worths, told, sweep, paths.layers(), closed)?;
    if changed > 0 {
        climb_once(paths, worths, told, sweep, changed, closed)?;
    }
    Ok(())
}
