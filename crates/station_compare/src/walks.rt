//! What the walks of a bay's switches are made of.
ghost use Rattle.std.specs.Prelude.{◌≡◌, ◌↔◌, ◌<◌, length, IsTrue, IfOk, OnOk};
ghost use Rattle.station_compare.specs.Sharing.{IsSharing};
ghost use Rattle.station_compare.specs.Turning.{AreBayWalks, IsOfBay, IsBayBefore, AreNarrowBefore};

use crate::sharing::{Sharing, like_at};
use crate::stocks::{Stocks, stocks_of};
use ilk_base::{BayId, Memory, SwitchId};
use station_graph::Station;
use station_joints::{JointSteps, joint_steps_of_bay};
use std::alloc::Global;

// The bay at work, what its walks are made of, and what the bays share. Where the bay takes over what is found of another,
// the walks are those of an earlier one.
#[derive(Drop)]
pub(crate) struct BayWalks {
    pub(crate) bay: BayId,
    pub(crate) steps: JointSteps,
    pub(crate) stocks: Stocks,
    pub(crate) sharing: Sharing,
}

// What the walks of this bay are made of.
pub(crate) fn walks_of(
    alloc: Global,
    old: &Station,
    new: &Station,
    sharing: Sharing,
    bay: BayId,
) -> Result<BayWalks, Memory>
    requires { IsSharing old.now new.now sharing }
    ensures walks { IfOk result (AreBayWalks old.now new.now) }
    ensures bay { IfOk result (λ w. w.bay ≡ bay) }
{
    let steps = joint_steps_of_bay(alloc, old, new, bay)?;
    let stocks = stocks_of(alloc, old, new, &steps)?;
    Ok(BayWalks {
        bay,
        steps,
        stocks,
        sharing,
    })
}

// Whether the work is on this bay.
fn is_at_work(walks: &BayWalks, bay: BayId) -> bool
    ensures { IsTrue result ↔ (walks.now.bay.0 ≡ bay.0) }
{
    walks.bay.0 == bay.0
}

// The work on another bay.
fn turn(
    alloc: Global,
    walks: &mut BayWalks,
    old: &Station,
    new: &Station,
    bay: BayId,
) -> Result<(), Memory>
    requires { AreBayWalks old.now new.now walks.old }
    ensures walks { OnOk result (AreBayWalks old.now new.now walks.new) }
    ensures bay { OnOk result (walks.new.bay ≡ bay) }
    ensures sharing { OnOk result (walks.new.sharing ≡ walks.old.sharing) }
{
    walks.bay = bay;
    if like_at(&walks.sharing.likes, bay).is_some() {
        return Ok(());
    }
    let steps = joint_steps_of_bay(alloc, old, new, bay)?;
    walks.stocks = stocks_of(alloc, old, new, &steps)?;
    walks.steps = steps;
    Ok(())
}

// The work on the bay of this switch, before which each switch is narrow.
pub(crate) fn turn_to(
    alloc: Global,
    walks: &mut BayWalks,
    old: &Station,
    new: &Station,
    id: SwitchId,
) -> Result<(), Memory>
    requires within { id.0 < length new.now.switches }
    requires walks { AreBayWalks old.now new.now walks.old }
    requires last { IsBayBefore new.now walks.old.bay.0 id.0 }
    requires before { AreNarrowBefore old.now new.now walks.old id.0 }
    ensures walks { OnOk result (AreBayWalks old.now new.now walks.new) }
    ensures bay { OnOk result (IsOfBay new.now walks.new.bay.0 id.0) }
    ensures before { OnOk result (AreNarrowBefore old.now new.now walks.new id.0) }
{
    new.is_station();
    let bay = new.switch(id).bay;
    if is_at_work(walks, bay) {
        return Ok(());
    }
    turn(alloc, walks, old, new, bay)?;
    Ok(())
}
