//! The steps of two small stations.
use change_search::free_steps;
use station_graph::Station;
use station_joints::{JointSteps, joint_steps, same_switch};
use std::alloc::Global;
use std::process::Abort;
use std::test::Fail;
use step_graphs::Step;
use test_stations::{Example, built};

const OLD_PLACES: &[u16] = &[0, 1, 2, 3, 4, 7, 8, 9, 10, 11];

const NEW_PLACES: &[u16] = &[0, 1, 2, 3, 4, 7, 8, 9, 10, 11, 14];

// For the breaker of the first feeder: the switch of the third bay, which only the new station has, is held open.
const FREE: &[bool] = &[
    true, true, true, true, true, true, true, true, true, true, true, true, true, false,
];

// Whether these steps are free.
fn are_free(alloc: Global, old_steps: &[Step], new_steps: &[Step]) -> bool {
    if old_steps.len() != 15 || new_steps.len() != 15 {
        return false;
    }
    match free_steps(alloc, old_steps, new_steps, 1) {
        Ok(free) => free.as_slice() == FREE,
        Err(_) => false,
    }
}

// Whether the switches stand at these places.
fn are_placed(steps: &JointSteps) -> bool {
    steps.old_places.as_slice() == OLD_PLACES && steps.new_places.as_slice() == NEW_PLACES
}

// Whether the stations are taken in so.
fn are_joined(alloc: Global, old: &Station, new: &Station) -> bool {
    match joint_steps(alloc, old, new) {
        Ok(steps) => are_placed(&steps) && are_free(alloc, &steps.old_steps, &steps.new_steps),
        Err(_) => false,
    }
}

// The third bay is new. Each feeder has five switches of both stations, then the tap of the new one and that of the old
// one; the switch of the third bay comes last.
fn expect_steps(rt: &impl Abort, alloc: Global, old: &Station) -> Result<(), Fail> {
    let new = built(alloc, Example::ThreeBays)?;
    assert!(rt; are_joined(alloc, old, &new));
    Ok(())
}

// Whether the switch with this path is that of the other station with the same path.
fn is_same(one: &Station, other: &Station, path: &str) -> bool {
    match one.find_switch(path) {
        Some(id) => same_switch(one, other, id) == other.find_switch(path),
        None => false,
    }
}

// Whether the station has the switch, and the other one has none that is the same.
fn is_new(one: &Station, other: &Station, path: &str) -> bool {
    match one.find_switch(path) {
        Some(id) => same_switch(one, other, id).is_none(),
        None => false,
    }
}

// A switch of the new bay is none of the old station.
fn expect_same(rt: &impl Abort, alloc: Global, old: &Station) -> Result<(), Fail> {
    let new = built(alloc, Example::ThreeBays)?;
    assert!(rt; is_same(&new, old, "S/V1/Q2/QA1"));
    assert!(rt; is_new(&new, old, "S/V1/Q3/QB1"));
    Ok(())
}

#[test]
fn a_new_bay_has_steps_of_its_own(rt: HostRuntime) -> Result<(), Fail> {
    let old = built(rt.alloc(), Example::TwoFeeders)?;
    expect_steps(&rt, rt.alloc(), &old)
}

#[test]
fn a_switch_is_the_same_in_both(rt: HostRuntime) -> Result<(), Fail> {
    let old = built(rt.alloc(), Example::TwoFeeders)?;
    expect_same(&rt, rt.alloc(), &old)
}
