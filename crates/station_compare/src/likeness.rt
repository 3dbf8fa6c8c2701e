//! Bays that are like each other in both stations.
ghost use Rattle.std.specs.Prelude.{◌≡◌, ◌<◌, ℕ, ⊤, IsTrue, IfOk, MatchOption, length};
ghost use Rattle.station_graph.specs.Diagram.{part_count};
ghost use Rattle.station_changes.specs.Compare.{SameSwitch};
ghost use Rattle.like_bays.specs.Like.{led_by};
ghost use Rattle.station_compare.specs.Likeness.{AreExchanged};

use ilk_base::{BayId, Memory, SwitchId};
use like_bays::{exchange_of, led_to};
use station_graph::Station;
use station_joints::same_switch;
use std::alloc::Global;

// Where the exchange of two bays leads from each switch, in both stations.
#[derive(Drop)]
pub(crate) struct LikeBays {
    pub(crate) old: Vec<u16>,
    pub(crate) new: Vec<u16>,
}

// Whether two numbers lead to themselves.
fn both_stay(one: u16, there: u16, other: u16, wanted: u16) -> bool
    ensures { IsTrue result → (there ≡ one) × (wanted ≡ other) }
{
    there == one && wanted == other
}

impl LikeBays {
    // Whether the switch that stands for this one of the new station is the same as that which stands for its twin.
    fn twin_stands(&self, old: &Station, new: &Station, id: SwitchId, twin: SwitchId) -> bool
        requires { SameSwitch new.now old.now id.0 twin.0 }
        ensures { IsTrue result → (i : ℕ) → SameSwitch old.now new.now i id.0 →
            SameSwitch old.now new.now (led_by self.now.old.items i)
            (led_by self.now.new.items id.0) }
    {
        old.is_station();
        let there = led_to(&self.new, id.0);
        let wanted = led_to(&self.old, twin.0);
        if both_stay(id.0, there, twin.0, wanted) {
            return true;
        }
        if there >= new.switch_count() {
            return false;
        }
        match same_switch(new, old, SwitchId(there)) {
            Some(other) => other.0 == wanted,
            None => false,
        }
    }

    // Whether that holds of this switch, if it has a twin.
    fn twin_agrees(&self, old: &Station, new: &Station, id: SwitchId) -> bool
        requires { id.0 < length new.now.switches }
        ensures { IsTrue result → (i : ℕ) → SameSwitch old.now new.now i id.0 →
            SameSwitch old.now new.now (led_by self.now.old.items i)
            (led_by self.now.new.items id.0) }
    {
        match same_switch(new, old, id) {
            Some(twin) => self.twin_stands(old, new, id, twin),
            None => true,
        }
    }

    // Whether that holds of each switch of the new station.
    fn agrees(&self, old: &Station, new: &Station) -> bool
        ensures { IsTrue result → (i k : ℕ) → SameSwitch old.now new.now i k →
            SameSwitch old.now new.now (led_by self.now.old.items i)
            (led_by self.now.new.items k) }
    {
        for k in 0..new.switch_count() {
            if !self.twin_agrees(old, new, SwitchId(k)) {
                return false;
            }
        }
        true
    }
}

// The exchange of two bays of the new station, and of those of the old one with their paths, if both are alike in both.
fn like_with(
    alloc: Global,
    old: &Station,
    new: &Station,
    one: BayId,
    other: BayId,
    first: BayId,
    second: BayId,
) -> Result<Option<LikeBays>, Memory>
    ensures { IfOk result (λ found. MatchOption found ⊤ (AreExchanged old.now new.now)) }
{
    let Some(in_new) = exchange_of(alloc, new, one, other)? else {
        return Ok(None);
    };
    let Some(in_old) = exchange_of(alloc, old, first, second)? else {
        return Ok(None);
    };
    let like = LikeBays {
        old: in_old,
        new: in_new,
    };
    if like.agrees(old, new) {
        return Ok(Some(like));
    }
    Ok(None)
}

// The exchange of two bays of the new station, if both are alike in both stations.
fn like_of(
    alloc: Global,
    old: &Station,
    new: &Station,
    one: BayId,
    other: BayId,
) -> Result<Option<LikeBays>, Memory>
    requires one { one.0 < part_count new.now }
    requires other { other.0 < part_count new.now }
    ensures { IfOk result (λ found. MatchOption found ⊤ (AreExchanged old.now new.now)) }
{
    let Some(first) = old.find_bay(new.part_path(one)) else {
        return Ok(None);
    };
    let Some(second) = old.find_bay(new.part_path(other)) else {
        return Ok(None);
    };
    like_with(alloc, old, new, one, other, first, second)
}

// The exchange of this bay with one before it that is like it, if there is one: the nearest.
pub(crate) fn like_earlier(
    alloc: Global,
    old: &Station,
    new: &Station,
    bay: BayId,
) -> Result<Option<LikeBays>, Memory>
    requires { bay.0 < part_count new.now }
    ensures { IfOk result (λ found. MatchOption found ⊤ (AreExchanged old.now new.now)) }
{
    for before in 0..bay.0 {
        let other = BayId(bay.0 - 1 - before);
        if let Some(found) = like_of(alloc, old, new, other, bay)? {
            return Ok(Some(found));
        }
    }
    Ok(None)
}
