//! A position that shows much of what is not shown yet.
ghost use Rattle.std.specs.Prelude.{◌≡◌, IfOk};
ghost use Rattle.station_graph.specs.Alike.{IsVector};

use crate::climb::climb;
use crate::flips::{NOTHING, Worth};
use crate::found::Found;
use crate::layers::{choices_of, closed_places, layer_of};
use crate::stands::is_moved;
use crate::walked::OperationWalk;
use ilk_base::{Memory, SwitchId};
use std::alloc::Global;

// What is counted for the switch for which the position was found: it stays.
const KEPT: u32 = 65536;

// What it is worth to show that the switch turns operation k.
fn worth_of(found: &Found, k: usize, switch: SwitchId, kept: bool) -> u32 {
    if found.index.has(k, switch) {
        0
    } else if kept {
        KEPT
    } else {
        1
    }
}

// Writes what a moved switch is worth.
fn put_worth(
    walked: &OperationWalk<'_>,
    found: &Found,
    switch: SwitchId,
    kept: SwitchId,
    worths: &mut Vec<Worth>,
) {
    if let Some(layer) = layer_of(walked.steps, walked.place, switch.0) {
        let is_kept = switch.0 == kept.0;
        let place = usize::from(layer);
        if place < worths.len() {
            worths[place] = Worth {
                open: worth_of(found, walked.opening, switch, is_kept),
                close: worth_of(found, walked.opening.saturating_add(1), switch, is_kept),
            };
        }
    }
}

// For each layer what its switch is worth, if it is a moved one.
fn worths(
    alloc: Global,
    walked: &OperationWalk<'_>,
    found: &Found,
    kept: SwitchId,
) -> Result<Vec<Worth>, Memory> {
    let mut worths = Vec::new(alloc);
    worths.resize(usize::from(walked.own.paths.layers()), NOTHING)?;
    for s in 0..walked.station.switch_count() {
        if is_moved(walked.stands, s) {
            put_worth(walked, found, SwitchId(s), kept, &mut worths);
        }
    }
    Ok(worths)
}

// Whether the switch of a layer is closed; the moved one stays.
fn closed_at(choices: &[bool], layer: Option<u16>, stays: bool) -> bool {
    match layer {
        Some(layer) if usize::from(layer) < choices.len() => choices[usize::from(layer)],
        _ => stays,
    }
}

// For each switch whether it is closed.
fn closed_by(
    alloc: Global,
    walked: &OperationWalk<'_>,
    choices: &[bool],
    closed: &[bool],
) -> Result<Vec<bool>, Memory>
    requires { IsVector walked.now.station.now closed.now }
    ensures { IfOk result (λ v. IsVector walked.now.station.now v.items) }
{
    let mut list = Vec::new(alloc);
    for s in 0..walked.station.switch_count() {
        let layer = layer_of(walked.steps, walked.place, s);
        list.push(closed_at(choices, layer, closed[usize::from(s)]))?;
    }
    Ok(list)
}

// A position that shows as much as this one, or more, of what is not shown; what it shows of the kept switch it shows too.
pub(crate) fn richer(
    alloc: Global,
    walked: &OperationWalk<'_>,
    found: &mut Found,
    kept: SwitchId,
    closed: &[bool],
) -> Result<Vec<bool>, Memory>
    requires { IsVector walked.now.station.now closed.now }
    ensures same { found.new.positions.items ≡ found.old.positions.items }
    ensures vector { IfOk result (λ v. IsVector walked.now.station.now v.items) }
{
    let worths = worths(alloc, walked, found, kept)?;
    let layers = walked.own.paths.layers();
    let places = closed_places(alloc, walked.station, walked.steps, closed)?;
    let mut choices = choices_of(alloc, &places, walked.place, layers)?;
    climb(
        &walked.own.paths,
        &worths,
        &mut found.told,
        &mut found.sweep,
        &mut choices,
    )?;
    closed_by(alloc, walked, &choices, closed)
}
