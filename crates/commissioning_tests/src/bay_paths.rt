//! The walks of a bay's switches, held where they are few.
ghost use Rattle.std.specs.Prelude.{◌≡◌, ◌+◌, ◌^◌, ◌<◌, ◌≤◌, length, IfOk};
ghost use Rattle.station_joints.specs.Joined.{HaveJointSteps};
ghost use Rattle.commissioning_tests.specs.Held.{AreHeld};
ghost use Rattle.commissioning_tests.specs.Refusing.{AllAreNarrow};
ghost use Rattle.judge_pool.specs.declared.limits.TheConstants.{BAY_EDGES};

use crate::switch_paths::{SwitchPaths, switch_paths};
use dependence_search::rule_stocks;
use ilk_base::{Memory, SwitchId};
use judge_pool::Trouble;
use station_graph::Station;
use station_joints::JointSteps;
use std::alloc::Global;

// So many edges for each switch of the station the walks of a bay may have that are held together.
const EDGES_PER_SWITCH: usize = 15_000;

// The walks of so many switches, from this one on, if each has no more edges than the limit.
fn all_paths(
    alloc: Global,
    station: &Station,
    steps: &JointSteps,
    first: SwitchId,
    count: u16,
    limit: usize,
) -> Result<Vec<SwitchPaths>, Trouble>
    requires steps { HaveJointSteps station.now station.now steps.now }
    requires some { 1 < length steps.now.old_steps.items }
    requires within { first.0 + count ≤ length station.now.switches }
    requires few { first.0 + count < 2 ^ 16 }
    requires limit { limit ≤ BAY_EDGES }
    ensures held { IfOk result (λ v. AreHeld station.now steps.now.old_steps.items first.0 v.items) }
    ensures narrow { IfOk result (λ v. AllAreNarrow station.now steps.now.old_steps.items first.0 (length v.items) limit) }
{
    let mut stocks = rule_stocks(alloc, station, &steps.old_steps)?;
    let mut all = Vec::new(alloc);
    for i in 0..count {
        let switch = SwitchId(first.0 + i);
        let opening = 2 * usize::from(i);
        let one = switch_paths(alloc, &mut stocks, station, steps, switch, opening, limit)?;
        all.push(one)?;
    }
    Ok(all)
}

// So many edges each of so many walks may have that are held together, where one may have no more than the limit.
fn few_edges(station: &Station, count: u16, limit: usize) -> usize
    ensures { result ≤ limit }
{
    let all = usize::from(station.switch_count()).saturating_mul(EDGES_PER_SWITCH);
    let each = if count == 0 {
        0
    } else {
        all / usize::from(count)
    };
    each.min(limit)
}

// The walks of so many switches, from this one on, each of which has no more edges than the limit; none where one of them
// has many.
pub(crate) fn bay_paths(
    alloc: Global,
    station: &Station,
    steps: &JointSteps,
    first: SwitchId,
    count: u16,
    limit: usize,
) -> Result<Vec<SwitchPaths>, Memory>
    requires steps { HaveJointSteps station.now station.now steps.now }
    requires some { 1 < length steps.now.old_steps.items }
    requires within { first.0 + count ≤ length station.now.switches }
    requires few { first.0 + count < 2 ^ 16 }
    requires limit { limit ≤ BAY_EDGES }
    ensures held { IfOk result (λ v. AreHeld station.now steps.now.old_steps.items first.0 v.items) }
    ensures narrow { IfOk result (λ v. AllAreNarrow station.now steps.now.old_steps.items first.0 (length v.items) limit) }
{
    let most = few_edges(station, count, limit);
    match all_paths(alloc, station, steps, first, count, most) {
        Ok(all) => Ok(all),
        Err(Trouble::Memory) => Err(Memory),
        Err(Trouble::Wide) => Ok(Vec::new(alloc)),
    }
}
