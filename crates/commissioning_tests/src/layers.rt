//! The layers of a walk, and the switches whose positions they take.
ghost use Rattle.station_graph.specs.Alike.{IsVector};

use ilk_base::Memory;
use station_graph::Station;
use station_joints::JointSteps;
use std::alloc::Global;

// The place at this number, 0 where there is none.
fn place_at(places: &[u16], number: usize) -> u16 {
    if number < places.len() {
        places[number]
    } else {
        0
    }
}

// The layer of a switch in the walk of the one whose step stands at this place; that one has none.
pub(crate) fn layer_of(steps: &JointSteps, moved: u16, switch: u16) -> Option<u16> {
    let place = place_at(&steps.old_places, usize::from(switch));
    if place < moved {
        Some(place)
    } else if moved < place {
        Some(place - 1)
    } else {
        None
    }
}

// Writes whether the switch of the step at a place is closed.
fn put_closed(places: &mut Vec<bool>, place: u16, closed: bool) {
    let place = usize::from(place);
    if place < places.len() {
        places[place] = closed;
    }
}

// For each step whether its switch is closed; no for those of other items.
pub(crate) fn closed_places(
    alloc: Global,
    station: &Station,
    steps: &JointSteps,
    closed: &[bool],
) -> Result<Vec<bool>, Memory>
    requires { IsVector station.now closed.now }
{
    let mut places = Vec::new(alloc);
    places.resize(steps.old_steps.len(), false)?;
    for s in 0..station.switch_count() {
        let place = place_at(&steps.old_places, usize::from(s));
        put_closed(&mut places, place, closed[usize::from(s)]);
    }
    Ok(places)
}

// Whether the switch of the step at a place is closed.
fn closed_at(places: &[bool], place: usize) -> bool {
    place < places.len() && places[place]
}

// For each of so many layers of the walk of the switch whose step stands at this place whether its switch is closed, by
// the steps.
pub(crate) fn choices_of(
    alloc: Global,
    places: &[bool],
    moved: u16,
    layers: u16,
) -> Result<Vec<bool>, Memory> {
    let mut choices = Vec::new(alloc);
    choices.reserve(usize::from(layers))?;
    for layer in 0..layers {
        let place = usize::from(layer) + usize::from(layer >= moved);
        choices.push(closed_at(places, place))?;
    }
    Ok(choices)
}
