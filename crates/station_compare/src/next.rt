//! What is found of the next switch of the new station.
ghost use Rattle.std.specs.Prelude.{◌≡◌, ◌+◌, ◌<◌, ⊤, length, IfOk, IfErr, OnOk, MatchOption};
ghost use Rattle.station_compare.specs.Each.{AreEach};
ghost use Rattle.station_compare.specs.Comparing.{IsFound, IsRefusal};
ghost use Rattle.station_compare.specs.Orders.{IsCarried};
ghost use Rattle.station_compare.specs.Turning.{AreBayWalks, IsOfBay, AreNarrowBefore, likes_of};

use crate::exchanged::exchanged_found;
use crate::found::Found;
use crate::refusal::CompareRefusal;
use crate::sharing::like_at;
use crate::switch::found_of;
use crate::walks::BayWalks;
use ilk_base::{Memory, SwitchId};
use judge_pool::Trouble;
use like_bays::led_to;
use station_graph::Station;
use std::alloc::Global;

// What is known of a switch of the new station from those before it, of which this is found.
fn known(
    alloc: Global,
    walks: &BayWalks,
    old: &Station,
    new: &Station,
    list: &[Found],
    id: SwitchId,
) -> Result<Option<Found>, Memory>
    requires walks { AreBayWalks old.now new.now walks.now }
    requires list { AreEach (IsFound old.now new.now) id.0 list.now }
    ensures found { IfOk result (λ found. MatchOption found ⊤ (IsFound old.now new.now id.0)) }
    ensures carried { IfOk result (λ found. MatchOption found (¬ IsCarried (likes_of walks.now walks.now.bay.0) id.0)
        (λ _. IsCarried (likes_of walks.now walks.now.bay.0) id.0)) }
{
    let Some(like) = like_at(&walks.sharing.likes, walks.bay) else {
        return Ok(None);
    };
    let there = usize::from(led_to(&like.new, id.0));
    if there >= list.len() {
        return Ok(None);
    }
    let found = exchanged_found(alloc, like, old, new, &list[there])?;
    Ok(Some(found))
}

// What is found of a switch of the new station by its walk, or in which bay it is too wide. Each switch before it is narrow.
fn walked_found(
    alloc: Global,
    walks: &mut BayWalks,
    old: &Station,
    new: &Station,
    id: SwitchId,
) -> Result<Found, CompareRefusal>
    requires walks { AreBayWalks old.now new.now walks.old }
    requires within { id.0 < length new.now.switches }
    requires bay { IsOfBay new.now walks.old.bay.0 id.0 }
    requires not_carried { ¬ IsCarried (likes_of walks.old walks.old.bay.0) id.0 }
    requires before { AreNarrowBefore old.now new.now walks.old id.0 }
    ensures walks { OnOk result (AreBayWalks old.now new.now walks.new) }
    ensures bay { OnOk result (walks.new.bay ≡ walks.old.bay) }
    ensures before { OnOk result (AreNarrowBefore old.now new.now walks.new (id.0 + 1)) }
    ensures found { IfOk result (IsFound old.now new.now id.0) }
    ensures refusal { IfErr result (IsRefusal old.now new.now) }
{
    let limit = walks.sharing.limit;
    match found_of(alloc, &mut walks.stocks, old, new, &walks.steps, limit, id) {
        Ok(found) => Ok(found),
        Err(Trouble::Memory) => Err(CompareRefusal::Memory),
        Err(Trouble::Wide) => Err(CompareRefusal::Wide {
            bay: new.switch(id).bay,
        }),
    }
}

// What is found of a switch of the new station, after those before it, of which each is narrow.
pub(crate) fn next_found(
    alloc: Global,
    walks: &mut BayWalks,
    old: &Station,
    new: &Station,
    list: &[Found],
    id: SwitchId,
) -> Result<Found, CompareRefusal>
    requires walks { AreBayWalks old.now new.now walks.old }
    requires list { AreEach (IsFound old.now new.now) id.0 list.now }
    requires within { id.0 < length new.now.switches }
    requires bay { IsOfBay new.now walks.old.bay.0 id.0 }
    requires before { AreNarrowBefore old.now new.now walks.old id.0 }
    ensures walks { OnOk result (AreBayWalks old.now new.now walks.new) }
    ensures bay { OnOk result (walks.new.bay ≡ walks.old.bay) }
    ensures before { OnOk result (AreNarrowBefore old.now new.now walks.new (id.0 + 1)) }
    ensures found { IfOk result (IsFound old.now new.now id.0) }
    ensures refusal { IfErr result (IsRefusal old.now new.now) }
{
    let taken = known(alloc, walks, old, new, list, id)?;
    match taken {
        Some(found) => Ok(found),
        None => walked_found(alloc, walks, old, new, id),
    }
}
