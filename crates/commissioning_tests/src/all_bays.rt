//! The tests of all bays of a station.
ghost use Rattle.std.specs.Prelude.{◌≡◌, ◌+◌, ◌<◌, ◌≤◌, IfOk, IfErr, OnOk};
ghost use Rattle.station_graph.specs.Diagram.{part_count};
ghost use Rattle.commissioning_tests.specs.Refusing.{AreNarrowTests, AreNarrowUpto, IsNarrowWithin, IsRefusal};
ghost use Rattle.commissioning_tests.specs.Refusing.{IsWideBay, IsWideBeyond, station_limit};
ghost use Rattle.judge_pool.specs.declared.limits.TheConstants.{BAY_EDGES};
ghost use Rattle.commissioning_tests.specs.Shared.{AreLeads, AreSharedTests, AreStationTests, AreTestsUpto};

use crate::bay::tests_within;
use crate::leads::{is_tested, leads_of, like_of, tested_switches};
use crate::refusal::TestsRefusal;
use crate::values::SharedTests;
use change_search::walk_limit;
use ilk_base::BayId;
use station_graph::Station;
use std::alloc::Global;

// The tests of a bay, and the later bays whose tests they are too.
fn shared_tests(
    alloc: Global,
    station: &Station,
    leads: &[u8],
    bay: BayId,
    limit: usize,
) -> Result<SharedTests, TestsRefusal>
    requires { limit ≤ BAY_EDGES }
    ensures bay { IfOk result (λ s. s.bay ≡ bay) }
    ensures are { IfOk result (AreSharedTests station.now leads.now) }
    ensures narrow { IfOk result (λ _. IsNarrowWithin station.now bay.0 limit) }
    ensures refusal { IfErr result (IsRefusal (IsWideBeyond station.now bay.0 limit)) }
{
    let like = like_of(alloc, station, leads, bay)?;
    let tests = tests_within(alloc, station, bay, limit)?;
    Ok(SharedTests { bay, like, tests })
}

// Adds the tests of a part, if it is a bay that has its own.
fn add_tests(
    alloc: Global,
    station: &Station,
    leads: &[u8],
    part: BayId,
    limit: usize,
    all: &mut Vec<SharedTests>,
) -> Result<(), TestsRefusal>
    requires within { part.0 < part_count station.now }
    requires leads { AreLeads station.now leads.now }
    requires limit { limit ≡ station_limit station.now leads.now }
    requires few { limit ≤ BAY_EDGES }
    requires before { AreTestsUpto station.now leads.now part.0 all.old.items }
    requires narrow { AreNarrowUpto station.now leads.now part.0 }
    ensures tests { OnOk result (AreTestsUpto station.now leads.now (part.0 + 1) all.new.items) }
    ensures narrow { IfOk result (λ _. AreNarrowUpto station.now leads.now (part.0 + 1)) }
    ensures refusal { IfErr result (IsRefusal (IsWideBay station.now)) }
{
    if !is_tested(station, leads, part) {
        return Ok(());
    }
    let tests = shared_tests(alloc, station, leads, part, limit)?;
    all.push(tests)?;
    Ok(())
}

/// The tests of a station, bay by bay in document order: those of each bay that is not seen to be like an earlier one,
/// as `bay_tests` makes them, and with them the later bays that are seen to be like it, whose tests they are with the two
/// bays exchanged, by `like_bays_are_tested`. It is `Wide` as `bay_tests` is, with the first bay whose walks are too
/// wide, where `change_search::walk_limit` is asked for the switches of all bays that have tests of their own; of the
/// bays before it, and of all bays where there are tests, the walks are narrow. Time: the items, for each bay and each
/// bay that is tested; and that of `bay_tests`, for each of these. Memory: all tests.
pub fn station_tests(alloc: Global, station: &Station) -> Result<Vec<SharedTests>, TestsRefusal>
    ensures tests { IfOk result (λ v. AreStationTests station.now v.items) }
    ensures narrow { IfOk result (λ v. AreNarrowTests station.now v.items) }
    ensures refusal { IfErr result (IsRefusal (IsWideBay station.now)) }
{
    let leads = leads_of(alloc, station)?;
    let limit = walk_limit(tested_switches(station, &leads));
    let mut all = Vec::new(alloc);
    for part in 0..station.part_count() {
        add_tests(alloc, station, &leads, BayId(part as u8), limit, &mut all)?;
    }
    Ok(all)
}
