//! The steps of both stations in pairs, as they are taken in.
ghost use Rattle.std.specs.Prelude.{◌≡◌, ◌+◌, ◌<◌, [], length, IfOk, OnOk};
ghost use Rattle.station_graph.specs.Diagram.{part_count};
ghost use Rattle.step_graphs.specs.declared.step.Step.TheVariants.{OfSwitch};
ghost use Rattle.station_joints.specs.Together.{AreTogether};
ghost use Rattle.station_joints.specs.Taking.{Olds, News, ArePairs};

use crate::ranks::PartRanks;
use crate::same::same_switch;
use ilk_base::{BayId, Memory, SwitchId};
use station_graph::Station;
use std::alloc::Global;
use step_graphs::Step;

// A step of the old station and one of the new, and the part by which they are put in order.
#[derive(Clone, Copy)]
pub(crate) struct StepPair {
    pub(crate) first: Step,
    pub(crate) second: Step,
    pub(crate) rank: u16,
}

// The part with this path, and a number behind all parts where there is none.
fn rank_of(station: &Station, path: &str, behind: u16) -> u16 {
    for p in 0..station.part_count() {
        if station.part_path(BayId(p as u8)) == path {
            return p;
        }
    }
    behind
}

// For each part of the old station the part of the new one with its path, in the order of these ranks.
pub(crate) fn part_ranks(
    alloc: Global,
    old: &Station,
    new: &Station,
    ranks: &PartRanks,
) -> Result<Vec<u16>, Memory>
    ensures { IfOk result (λ v. length v.items ≡ part_count old.now) }
{
    let mut list = Vec::new(alloc);
    let parts = new.part_count();
    for p in 0..old.part_count() {
        let part = rank_of(new, old.part_path(BayId(p as u8)), parts + p);
        list.push(ranks.rank(part))?;
    }
    Ok(list)
}

// The pair of a switch of the new station, of this rank.
fn new_pair(old: &Station, new: &Station, id: SwitchId, rank: u16) -> StepPair
    requires { id.0 < length new.now.switches }
    ensures second { result.second ≡ OfSwitch id }
    ensures together { AreTogether old.now new.now result.first result.second }
{
    match same_switch(new, old, id) {
        Some(twin) => StepPair {
            first: Step::OfSwitch(twin),
            second: Step::OfSwitch(id),
            rank,
        },
        None => StepPair {
            first: Step::OfNothing,
            second: Step::OfSwitch(id),
            rank,
        },
    }
}

// Takes in the switches of the new station, each with that of the old one that is the same.
pub(crate) fn take_new_switches(
    pairs: &mut Vec<StepPair>,
    old: &Station,
    new: &Station,
    ranks: &PartRanks,
) -> Result<(), Memory>
    requires { pairs.old.items ≡ [] }
    ensures { OnOk result (ArePairs old.now new.now (Olds old.now new.now (length new.now.switches) 0 0 0)
        (News (length new.now.switches) 0 0)
        (length new.now.switches) pairs.new.items) }
{
    old.is_station();
    for k in 0..new.switch_count() {
        let rank = ranks.rank(u16::from(new.switch(SwitchId(k)).bay.0));
        let pair = new_pair(old, new, SwitchId(k), rank);
        pairs.push(pair)?;
    }
    Ok(())
}

// Takes in the next switch of the old station, unless it is taken in with one of the new.
fn take_old_switch(
    pairs: &mut Vec<StepPair>,
    old: &Station,
    new: &Station,
    rank: u16,
    id: SwitchId,
) -> Result<(), Memory>
    requires within { id.0 < length old.now.switches }
    requires pairs { ArePairs old.now new.now (Olds old.now new.now (length new.now.switches) id.0 0 0)
        (News (length new.now.switches) 0 0) (length new.now.switches + id.0) pairs.old.items }
    ensures { OnOk result (ArePairs old.now new.now (Olds old.now new.now (length new.now.switches) (id.0 + 1) 0 0)
        (News (length new.now.switches) 0 0) (length new.now.switches + (id.0 + 1)) pairs.new.items) }
{
    match same_switch(old, new, id) {
        Some(_) => Ok(()),
        None => {
            pairs.push(StepPair {
                first: Step::OfSwitch(id),
                second: Step::OfNothing,
                rank,
            })?;
            Ok(())
        }
    }
}

// Takes in the switches that only the old station has.
pub(crate) fn take_old_switches(
    pairs: &mut Vec<StepPair>,
    old: &Station,
    new: &Station,
    ranks: &[u16],
) -> Result<(), Memory>
    requires ranks { length ranks.now ≡ part_count old.now }
    requires pairs { ArePairs old.now new.now (Olds old.now new.now (length new.now.switches) 0 0 0)
        (News (length new.now.switches) 0 0) (length new.now.switches) pairs.old.items }
    ensures { OnOk result (ArePairs old.now new.now (Olds old.now new.now (length new.now.switches)
        (length old.now.switches) 0 0) (News (length new.now.switches) 0 0)
        (length new.now.switches + length old.now.switches) pairs.new.items) }
{
    let _new = new.switch_count();
    for i in 0..old.switch_count() {
        let bay = old.switch(SwitchId(i)).bay;
        take_old_switch(pairs, old, new, ranks[bay.0 as usize], SwitchId(i))?;
    }
    Ok(())
}

// Takes in the links of the new station.
pub(crate) fn take_new_links(
    pairs: &mut Vec<StepPair>,
    old: &Station,
    new: &Station,
    ranks: &PartRanks,
) -> Result<(), Memory>
    requires { ArePairs old.now new.now (Olds old.now new.now (length new.now.switches)
        (length old.now.switches) 0 0) (News (length new.now.switches) 0 0)
        (length new.now.switches + length old.now.switches) pairs.old.items }
    ensures { OnOk result (ArePairs old.now new.now (Olds old.now new.now (length new.now.switches)
        (length old.now.switches) 0 0) (News (length new.now.switches) (length new.now.links) 0)
        (length new.now.switches + length old.now.switches + length new.now.links) pairs.new.items) }
{
    let _old = old.switch_count();
    for i in 0..new.link_count() {
        let rank = ranks.rank(u16::from(new.link(i).part.0));
        pairs.push(StepPair {
            first: Step::OfNothing,
            second: Step::OfLink(i),
            rank,
        })?;
    }
    Ok(())
}

// Takes in the taps of the new station.
pub(crate) fn take_new_taps(
    pairs: &mut Vec<StepPair>,
    old: &Station,
    new: &Station,
    ranks: &PartRanks,
) -> Result<(), Memory>
    requires { ArePairs old.now new.now (Olds old.now new.now (length new.now.switches)
        (length old.now.switches) 0 0) (News (length new.now.switches) (length new.now.links) 0)
        (length new.now.switches + length old.now.switches + length new.now.links) pairs.old.items }
    ensures { OnOk result (ArePairs old.now new.now (Olds old.now new.now (length new.now.switches)
        (length old.now.switches) 0 0)
        (News (length new.now.switches) (length new.now.links) (length new.now.taps))
        (length new.now.switches + length old.now.switches + length new.now.links + length new.now.taps)
        pairs.new.items) }
{
    let _old = old.switch_count();
    for i in 0..new.tap_count() {
        let rank = ranks.rank(u16::from(new.tap(i).part.0));
        pairs.push(StepPair {
            first: Step::OfNothing,
            second: Step::OfTap(i),
            rank,
        })?;
    }
    Ok(())
}

// Takes in the links of the old station.
pub(crate) fn take_old_links(
    pairs: &mut Vec<StepPair>,
    old: &Station,
    new: &Station,
    ranks: &[u16],
) -> Result<(), Memory>
    requires ranks { length ranks.now ≡ part_count old.now }
    requires pairs { ArePairs old.now new.now (Olds old.now new.now (length new.now.switches)
        (length old.now.switches) 0 0)
        (News (length new.now.switches) (length new.now.links) (length new.now.taps))
        (length new.now.switches + length old.now.switches + length new.now.links + length new.now.taps)
        pairs.old.items }
    ensures { OnOk result (ArePairs old.now new.now (Olds old.now new.now (length new.now.switches)
        (length old.now.switches) (length old.now.links) 0)
        (News (length new.now.switches) (length new.now.links) (length new.now.taps))
        (length new.now.switches + length old.now.switches + length new.now.links + length new.now.taps
        + length old.now.links) pairs.new.items) }
{
    let _new = new.switch_count();
    for i in 0..old.link_count() {
        let part = old.link(i).part;
        pairs.push(StepPair {
            first: Step::OfLink(i),
            second: Step::OfNothing,
            rank: ranks[part.0 as usize],
        })?;
    }
    Ok(())
}

// Takes in the taps of the old station.
pub(crate) fn take_old_taps(
    pairs: &mut Vec<StepPair>,
    old: &Station,
    new: &Station,
    ranks: &[u16],
) -> Result<(), Memory>
    requires ranks { length ranks.now ≡ part_count old.now }
    requires pairs { ArePairs old.now new.now (Olds old.now new.now (length new.now.switches)
        (length old.now.switches) (length old.now.links) 0)
        (News (length new.now.switches) (length new.now.links) (length new.now.taps))
        (length new.now.switches + length old.now.switches + length new.now.links + length new.now.taps
        + length old.now.links) pairs.old.items }
    ensures { OnOk result (ArePairs old.now new.now (Olds old.now new.now (length new.now.switches)
        (length old.now.switches) (length old.now.links) (length old.now.taps))
        (News (length new.now.switches) (length new.now.links) (length new.now.taps))
        (length new.now.switches + length old.now.switches + length new.now.links + length new.now.taps
        + length old.now.links + length old.now.taps) pairs.new.items) }
{
    let _new = new.switch_count();
    for i in 0..old.tap_count() {
        let part = old.tap(i).part;
        pairs.push(StepPair {
            first: Step::OfTap(i),
            second: Step::OfNothing,
            rank: ranks[part.0 as usize],
        })?;
    }
    Ok(())
}
