//! The tests that a station is given, as far as the definitions fix them, worked by hand.
use commissioning_tests::{BayTests, SharedTests, bay_tests, station_tests};
use ilk_base::BayId;
use station_graph::Station;
use std::alloc::Global;
use std::test::Fail;
use test_stations::{Example, built};

// How many operations a bay has, how many of them are always released, and how many switches of others it needs.
fn has_counts(tests: &BayTests, operations: usize, always: usize, needs: usize) -> bool {
    tests.operations.len() == operations
        && tests.always.len() == always
        && tests.needs.len() == needs
        && !tests.positions.is_empty()
}

// An earthing switch and an infeed at one node: to open either breaks no rule, to close either does where the other is
// closed; there is no other bay.
fn earthed_line_is_tested(alloc: Global, station: &Station) -> bool {
    match bay_tests(alloc, station, BayId(0)) {
        Ok(tests) => has_counts(&tests, 4, 2, 0),
        Err(_) => false,
    }
}

#[test]
fn a_bay_is_tested(rt: HostRuntime) -> Result<(), Fail> {
    let station = built(rt.alloc(), Example::EarthedLine)?;
    assert!(&rt; earthed_line_is_tested(rt.alloc(), &station));
    Ok(())
}

// The tests are those of the bay 1, and of the bay 2 that is like it.
fn is_shared(shared: &SharedTests) -> bool {
    shared.bay == BayId(1) && shared.like.len() == 1 && shared.like[0] == BayId(2)
}

fn is_one_shared(all: &[SharedTests]) -> bool {
    all.len() == 1 && is_shared(&all[0])
}

// Two feeders at one busbar are like each other, and the busbar has no switches.
fn feeders_share_tests(alloc: Global, station: &Station) -> bool {
    match station_tests(alloc, station) {
        Ok(all) => is_one_shared(&all),
        Err(_) => false,
    }
}

#[test]
fn like_bays_share_tests(rt: HostRuntime) -> Result<(), Fail> {
    let station = built(rt.alloc(), Example::TwoFeeders)?;
    assert!(&rt; feeders_share_tests(rt.alloc(), &station));
    Ok(())
}
