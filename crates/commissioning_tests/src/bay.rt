//! The tests of a bay.
ghost use Rattle.std.specs.Prelude.{◌≡◌, ◌+◌, ◌*◌, ◌^◌, ◌<◌, ◌≤◌, length, IfOk, IfErr};
ghost use Rattle.commissioning_tests.specs.Answering.{ArePositions};
ghost use Rattle.commissioning_tests.specs.Covering.{AreTestsOf, TestSwitches};
ghost use Rattle.commissioning_tests.specs.Growing.{AreCovered};
ghost use Rattle.commissioning_tests.specs.Listed.{operations_from};
ghost use Rattle.commissioning_tests.specs.Refusing.{HaveNarrow, HaveTooWide, IsNarrowBay, IsRefusal, IsThatWideBay};
ghost use Rattle.commissioning_tests.specs.Refusing.{IsNarrowWithin, IsWideBeyond};
ghost use Rattle.judge_pool.specs.declared.limits.TheConstants.{BAY_EDGES};
ghost use Rattle.judge_pool.specs.declared.layer.Trouble.TheVariants.{Wide};
ghost use Rattle.station_joints.specs.Joined.{HaveJointSteps};

use crate::cover_bay::cover_switches;
use crate::lists::{always_of, needs_of};
use crate::operations::operations_of;
use crate::refusal::TestsRefusal;
use crate::stands::stands_of;
use crate::values::{BayTests, TestPosition};
use change_search::walk_limit;
use ilk_base::{BayId, Memory, Op, SwitchId};
use judge_pool::Trouble;
use station_graph::Station;
use station_joints::{JointSteps, joint_steps, joint_steps_of_bay};
use std::alloc::Global;

// A station of more switches is large.
const FEW_SWITCHES: u16 = 24;

// The joint steps of the station with itself. Of a large one they come in the order in which the walks of this bay's
// switches are narrow. In a small one they are narrow in any order, and in document order fewer positions show all, mostly.
fn steps_for(alloc: Global, station: &Station, bay: BayId) -> Result<JointSteps, Memory>
    ensures { IfOk result (HaveJointSteps station.now station.now) }
{
    if station.switch_count() <= FEW_SWITCHES {
        let steps = joint_steps(alloc, station, station)?;
        return Ok(steps);
    }
    let steps = joint_steps_of_bay(alloc, station, station, bay)?;
    Ok(steps)
}

// Positions that show all of the operations of so many switches, from this one on; none where the station has one item
// alone, of which nothing is live.
fn positions_of(
    alloc: Global,
    station: &Station,
    bay: BayId,
    operations: &[Op],
    stands: &[u16],
    first: SwitchId,
    count: u16,
    limit: usize,
) -> Result<Vec<TestPosition>, Trouble>
    requires operations { operations.now ≡ operations_from first.0 count }
    requires within { first.0 + count ≤ length station.now.switches }
    requires few { first.0 + count < 2 ^ 16 }
    requires limit { limit ≤ BAY_EDGES }
    ensures positions { IfOk result (λ ps. ArePositions station.now operations.now ps.items) }
    ensures covered { IfOk result (λ ps. AreCovered station.now operations.now stands.now ps.items (length operations.now)) }
    ensures narrow { IfOk result (λ _. HaveNarrow station.now first.0 count limit) }
    ensures wide { IfErr result (λ e. e ≡ Wide → HaveTooWide station.now first.0 count limit) }
{
    let steps = steps_for(alloc, station, bay)?;
    if steps.old_steps.len() < 2 {
        return Ok(Vec::new(alloc));
    }
    let positions = cover_switches(
        alloc, station, &steps, operations, stands, first, count, limit,
    )?;
    Ok(positions)
}

// The tests of so many switches, from this one on.
fn tests_of(
    alloc: Global,
    station: &Station,
    bay: BayId,
    first: SwitchId,
    count: u16,
    limit: usize,
) -> Result<BayTests, Trouble>
    requires within { first.0 + count ≤ length station.now.switches }
    requires few { first.0 + count < 2 ^ 16 }
    requires limit { limit ≤ BAY_EDGES }
    ensures tests { IfOk result (TestSwitches station.now first.0 count) }
    ensures narrow { IfOk result (λ _. HaveNarrow station.now first.0 count limit) }
    ensures wide { IfErr result (λ e. e ≡ Wide → HaveTooWide station.now first.0 count limit) }
{
    let operations = operations_of(alloc, first, count)?;
    let stands = stands_of(alloc, station, first, count)?;
    let positions = positions_of(
        alloc,
        station,
        bay,
        &operations,
        &stands,
        first,
        count,
        limit,
    )?;
    let always = always_of(alloc, station, &operations, &stands, &positions)?;
    let needs = needs_of(
        alloc,
        station,
        &operations,
        &stands,
        first,
        count,
        &positions,
    )?;
    Ok(BayTests {
        operations,
        always,
        needs,
        positions,
    })
}

// The tests of a bay, as `bay_tests` says, whose walks may have so many edges.
pub(crate) fn tests_within(
    alloc: Global,
    station: &Station,
    bay: BayId,
    limit: usize,
) -> Result<BayTests, TestsRefusal>
    requires { limit ≤ BAY_EDGES }
    ensures tests { IfOk result (AreTestsOf station.now bay.0) }
    ensures narrow { IfOk result (λ _. IsNarrowWithin station.now bay.0 limit) }
    ensures refusal { IfErr result (IsRefusal (IsWideBeyond station.now bay.0 limit)) }
{
    station.is_station();
    let (first, count) = station.switches_of(bay);
    match tests_of(alloc, station, bay, first, count, limit) {
        Ok(tests) => Ok(tests),
        Err(Trouble::Memory) => Err(TestsRefusal::Memory),
        Err(Trouble::Wide) => Err(TestsRefusal::Wide { bay }),
    }
}

/// The tests of a bay: for each of its operations and each switch on which its release depends a position and a move that
/// turn it, for each rule that an operation can break a position in which it does, what the bay needs of other bays, and
/// what is released in every position. The move is of that switch or of one that stands for it: of other bays that are
/// alike only the first has its switches moved, as far as that is seen in document order. No line is idle. It is `Wide`
/// where for a switch of the bay a graph or a walk of both has more edges than `change_search::walk_limit` says for the
/// bay's switches, in the order in which the items are taken in; where it has tests, none has. Time: the items, for each
/// two bays that are not seen to be like earlier ones; a walk for each switch of the bay, and once more where some of these
/// walks are many; the graph of an operation for each turn that no position shows yet; for each position the layers of
/// these walks; and the rules, for each position and each move. Memory: a walk, or all of the bay's walks where they have
/// few edges (15,000 for each switch of the station), and for each move the answers of the operations.
pub fn bay_tests(alloc: Global, station: &Station, bay: BayId) -> Result<BayTests, TestsRefusal>
    ensures tests { IfOk result (AreTestsOf station.now bay.0) }
    ensures narrow { IfOk result (λ _. IsNarrowBay station.now bay.0) }
    ensures refusal { IfErr result (IsRefusal (IsThatWideBay station.now bay.0)) }
{
    let (_, count) = station.switches_of(bay);
    tests_within(alloc, station, bay, walk_limit(count))
}
