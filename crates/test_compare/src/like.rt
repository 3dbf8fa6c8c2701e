//! Bays that are like each other.
use ilk_base::BayId;
use like_bays::{are_like, exchange_of, exchanged_vector, led_to};
use station_graph::Station;
use station_joints::joint_steps_of_bay;
use std::alloc::Global;
use std::test::Fail;
use test_stations::{Example, built};

// The exchange leads from the five switches of the first feeder to those of the second, and back.
const SWITCHES: &[u16] = &[5, 6, 7, 8, 9, 0, 1, 2, 3, 4];

// The first feeder's breaker and earthing switch are closed, and exchanged the second feeder's.
const CLOSED: &[bool] = &[
    false, true, false, true, false, false, false, false, false, false,
];

const EXCHANGED: &[bool] = &[
    false, false, false, false, false, false, true, false, true, false,
];

// Whether the table is that of the two feeders; past its end every switch stays.
fn is_exchange(table: &[u16]) -> bool {
    table == SWITCHES && led_to(table, 3) == 8 && led_to(table, 12) == 12
}

// Whether the feeders are exchanged, and these positions with them.
fn are_exchanged(alloc: Global, station: &Station) -> bool {
    match exchange_of(alloc, station, BayId(1), BayId(2)) {
        Ok(Some(table)) => match exchanged_vector(alloc, station, &table, CLOSED) {
            Ok(closed) => is_exchange(&table) && closed.as_slice() == EXCHANGED,
            Err(_) => false,
        },
        _ => false,
    }
}

#[test]
fn like_feeders_are_exchanged(rt: HostRuntime) -> Result<(), Fail> {
    let station = built(rt.alloc(), Example::TwoFeeders)?;
    assert!(rt; are_exchanged(rt.alloc(), &station));
    Ok(())
}

// Whether the two feeders are like, and the busbar is like none of them.
fn are_told_like(alloc: Global, station: &Station) -> bool {
    matches!(are_like(alloc, station, BayId(1), BayId(2)), Ok(true))
        && matches!(are_like(alloc, station, BayId(0), BayId(1)), Ok(false))
}

#[test]
fn like_feeders_are_told(rt: HostRuntime) -> Result<(), Fail> {
    let station = built(rt.alloc(), Example::TwoFeeders)?;
    assert!(rt; are_told_like(rt.alloc(), &station));
    Ok(())
}

// A bay of one disconnector is like none of five switches.
#[test]
fn unlike_bays_are_not_exchanged(rt: HostRuntime) -> Result<(), Fail> {
    let station = built(rt.alloc(), Example::ThreeBays)?;
    let is_so = match exchange_of(rt.alloc(), &station, BayId(1), BayId(3)) {
        Ok(found) => found.is_none(),
        Err(_) => false,
    };
    assert!(rt; is_so);
    Ok(())
}

// The second feeder is at work, so its steps come last: behind the first feeder and behind the bay that only the new
// station has.
const OLD_PLACES: &[u16] = &[0, 1, 2, 3, 4, 8, 9, 10, 11, 12];

const NEW_PLACES: &[u16] = &[0, 1, 2, 3, 4, 8, 9, 10, 11, 12, 7];

#[test]
fn the_steps_of_the_bay_come_last(rt: HostRuntime) -> Result<(), Fail> {
    let old = built(rt.alloc(), Example::TwoFeeders)?;
    let new = built(rt.alloc(), Example::ThreeBays)?;
    let are_placed = match joint_steps_of_bay(rt.alloc(), &old, &new, BayId(2)) {
        Ok(steps) => {
            steps.old_places.as_slice() == OLD_PLACES && steps.new_places.as_slice() == NEW_PLACES
        }
        Err(_) => false,
    };
    assert!(rt; are_placed);
    Ok(())
}
