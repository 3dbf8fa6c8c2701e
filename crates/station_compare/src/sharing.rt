//! Which bays take over what is found of others, and what the walks of the rest may cost.
ghost use Rattle.std.specs.Prelude.{◌≡◌, IfOk, MatchOption, None, Some, is_none};
ghost use Rattle.station_compare.specs.Sharing.{AreLikes, IsSharing, like_in, walked_switches as switches_walked};

use crate::likeness::{LikeBays, like_earlier};
use change_search::walk_limit;
use ilk_base::{BayId, Memory, SwitchId};
use station_graph::Station;
use std::alloc::Global;

// For each part of the new station the exchange with an earlier one that is like it in both, if there is one; and how many
// edges each walk of the other bays may have.
#[derive(Drop)]
pub(crate) struct Sharing {
    pub(crate) likes: Vec<Option<LikeBays>>,
    pub(crate) limit: usize,
}

// The exchange of each part of the new station.
fn all_likes(alloc: Global, old: &Station, new: &Station) -> Result<Vec<Option<LikeBays>>, Memory>
    ensures { IfOk result (λ v. AreLikes old.now new.now v.items) }
{
    let mut likes = Vec::new(alloc);
    for part in 0..new.part_count() {
        let like = like_earlier(alloc, old, new, BayId(part as u8))?;
        likes.push(like)?;
    }
    Ok(likes)
}

// The exchange of a bay, if there is one.
pub(crate) fn like_at(likes: &[Option<LikeBays>], bay: BayId) -> Option<&LikeBays>
    ensures { MatchOption result (like_in likes.now bay.0 ≡ None) (λ x. like_in likes.now bay.0 ≡ Some x.now) }
{
    let place = usize::from(bay.0);
    if place >= likes.len() {
        return None;
    }
    match &likes[place] {
        Some(like) => Some(like),
        None => None,
    }
}

// Whether a bay has none.
fn is_walked(likes: &[Option<LikeBays>], bay: BayId) -> bool
    ensures { result ≡ is_none (like_in likes.now bay.0) }
{
    match like_at(likes, bay) {
        Some(_) => false,
        None => true,
    }
}

// How many switches the bays have that have none.
fn walked_switches(new: &Station, likes: &[Option<LikeBays>]) -> u16
    ensures { result ≡ switches_walked new.now (like_in likes.now) }
{
    let mut count = 0;
    for k in 0..new.switch_count() {
        let bay = new.switch(SwitchId(k)).bay;
        if is_walked(likes, bay) {
            count += 1;
        }
    }
    count
}

// What the bays of both stations share.
pub(crate) fn sharing_of(alloc: Global, old: &Station, new: &Station) -> Result<Sharing, Memory>
    ensures { IfOk result (IsSharing old.now new.now) }
{
    let likes = all_likes(alloc, old, new)?;
    let limit = walk_limit(walked_switches(new, &likes));
    Ok(Sharing { likes, limit })
}
