//! The joint steps of two stations.
ghost use Rattle.std.specs.Prelude.{◌≡◌, ◌+◌, ◌<◌, ◌^◌, length, IfOk};
ghost use Rattle.station_joints.specs.Together.{AreJointSteps};
ghost use Rattle.station_joints.specs.Joined.{HaveJointSteps};
ghost use Rattle.station_joints.specs.Taking.{Olds, News, ArePairs, first_steps, second_steps};

use crate::pairs::{
    StepPair, part_ranks, take_new_links, take_new_switches, take_new_taps, take_old_links,
    take_old_switches, take_old_taps,
};
use crate::places::places_of;
use crate::ranks::PartRanks;
use ilk_base::{BayId, Memory};
use station_graph::Station;
use std::alloc::Global;
use step_graphs::Step;

/// The steps of two stations, place by place.
#[derive(Drop)]
pub struct JointSteps {
    /// the steps of the old station
    pub old_steps: Vec<Step>,
    /// those of the new one, as many
    pub new_steps: Vec<Step>,
    /// for each switch of the old station the place of its step
    pub old_places: Vec<u16>,
    /// and for each of the new one
    pub new_places: Vec<u16>,
}

// All pairs, in no order.
fn all_pairs(
    alloc: Global,
    old: &Station,
    new: &Station,
    ranks: &PartRanks,
) -> Result<Vec<StepPair>, Memory>
    ensures { IfOk result (λ v. ArePairs old.now new.now
        (Olds old.now new.now (length new.now.switches) (length old.now.switches) (length old.now.links)
        (length old.now.taps))
        (News (length new.now.switches) (length new.now.links) (length new.now.taps))
        (length new.now.switches + length old.now.switches + length new.now.links + length new.now.taps
        + length old.now.links + length old.now.taps) v.items) }
{
    let old_ranks = part_ranks(alloc, old, new, ranks)?;
    let mut pairs = Vec::new(alloc);
    take_new_switches(&mut pairs, old, new, ranks)?;
    take_old_switches(&mut pairs, old, new, &old_ranks)?;
    take_new_links(&mut pairs, old, new, ranks)?;
    take_new_taps(&mut pairs, old, new, ranks)?;
    take_old_links(&mut pairs, old, new, &old_ranks)?;
    take_old_taps(&mut pairs, old, new, &old_ranks)?;
    Ok(pairs)
}

// Part by part, in the order of these ranks.
fn pairs_by_part(
    alloc: Global,
    old: &Station,
    new: &Station,
    ranks: &PartRanks,
) -> Result<Vec<StepPair>, Memory>
    ensures joint { IfOk result (λ v. AreJointSteps old.now new.now (first_steps v.items) (second_steps v.items)) }
    ensures few { IfOk result (λ v. length v.items < 2 ^ 16) }
{
    old.is_station();
    new.is_station();
    let mut pairs = all_pairs(alloc, old, new, ranks)?;
    pairs.sort_by_key(|pair| pair.rank)?;
    Ok(pairs)
}

// The steps of the old station.
fn firsts(alloc: Global, pairs: &[StepPair]) -> Result<Vec<Step>, Memory>
    ensures { IfOk result (λ v. v.items ≡ first_steps pairs.now) }
{
    let mut steps = Vec::new(alloc);
    for pair in pairs {
        steps.push(pair.first)?;
    }
    Ok(steps)
}

// The steps of the new station.
fn seconds(alloc: Global, pairs: &[StepPair]) -> Result<Vec<Step>, Memory>
    ensures { IfOk result (λ v. v.items ≡ second_steps pairs.now) }
{
    let mut steps = Vec::new(alloc);
    for pair in pairs {
        steps.push(pair.second)?;
    }
    Ok(steps)
}

// The joint steps, part by part in the order of these ranks.
fn steps_by_part(
    alloc: Global,
    old: &Station,
    new: &Station,
    ranks: &PartRanks,
) -> Result<JointSteps, Memory>
    ensures { IfOk result (HaveJointSteps old.now new.now) }
{
    let pairs = pairs_by_part(alloc, old, new, ranks)?;
    let old_steps = firsts(alloc, &pairs)?;
    let new_steps = seconds(alloc, &pairs)?;
    let old_places = places_of(alloc, old, &old_steps)?;
    let new_places = places_of(alloc, new, &new_steps)?;
    Ok(JointSteps {
        old_steps,
        new_steps,
        old_places,
        new_places,
    })
}

/// The joint steps: part by part in the order of the new station's parts, and last the parts that only the old one has.
/// A switch that both have is one step of both; every other item is a step of one, and none of the other. Time: the items
/// and the lengths of their paths, the logarithm of their number, and the parts of one station for each of the other.
pub fn joint_steps(alloc: Global, old: &Station, new: &Station) -> Result<JointSteps, Memory>
    ensures { IfOk result (HaveJointSteps old.now new.now) }
{
    steps_by_part(alloc, old, new, &PartRanks::in_order(alloc))
}

/// The joint steps in the order in which the walks of this bay's switches are narrow: first the parts that lie deepest behind
/// the bay, so that of these only what is seen from nearer parts is told apart; of those of one depth, those together that
/// stand at one node, and of these first the parts that both stations have with as many switches, in which both take the
/// same choices; and this bay of the new station last, so that what stands before it is the same for each of its switches.
/// Time: that of `joint_steps`, and the switches and links for each depth.
pub fn joint_steps_of_bay(
    alloc: Global,
    old: &Station,
    new: &Station,
    bay: BayId,
) -> Result<JointSteps, Memory>
    ensures { IfOk result (HaveJointSteps old.now new.now) }
{
    let ranks = PartRanks::ending(alloc, old, new, bay)?;
    steps_by_part(alloc, old, new, &ranks)
}
