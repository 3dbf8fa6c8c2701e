//! The order in which the parts of two stations are taken in.
use crate::near::{Depths, at, depths_of, put};
use ilk_base::{BayId, Memory};
use station_graph::Station;
use std::alloc::Global;

// For each part of the new station its rank; none where each keeps its number.
#[derive(Drop)]
pub(crate) struct PartRanks {
    ranks: Vec<u16>,
}

// Whether a bay of the old station has the path of this part of the new one, and as many switches.
fn is_alike(old: &Station, new: &Station, part: BayId) -> bool {
    if usize::from(part.0) >= usize::from(new.part_count()) {
        return false;
    }
    let (_, count) = new.switches_of(part);
    match old.find_bay(new.part_path(part)) {
        Some(twin) => {
            let (_, twin_count) = old.switches_of(twin);
            twin_count == count
        }
        None => count == 0,
    }
}

// What comes behind all parts of the new station but the bay, and what the bay comes as.
const BEHIND: u16 = 512;

const LAST: u16 = 2048;

// A part; those of less height come first, and of these those with the lower node.
#[derive(Clone, Copy)]
struct PartPlace {
    part: BayId,
    height: u16,
    node: u16,
}

// Appends the parts of the new station that are alike in both, or those that are not.
fn push_parts(
    old: &Station,
    new: &Station,
    depths: &Depths,
    alike: bool,
    places: &mut Vec<PartPlace>,
) -> Result<(), Memory> {
    for p in 0..new.part_count() {
        let part = BayId(p as u8);
        if is_alike(old, new, part) == alike {
            places.push(PartPlace {
                part,
                height: u16::MAX.saturating_sub(at(&depths.depths, p)),
                node: at(&depths.nodes, p),
            })?;
        }
    }
    Ok(())
}

// For each of so many parts its number in the list; the bay comes last.
fn numbered(
    alloc: Global,
    count: u16,
    places: &[PartPlace],
    bay: BayId,
) -> Result<Vec<u16>, Memory> {
    let mut ranks = Vec::new(alloc);
    ranks.resize(usize::from(count), 0)?;
    let mut number = 0u16;
    for place in places {
        put(&mut ranks, u16::from(place.part.0), number);
        number = number.saturating_add(1);
    }
    put(&mut ranks, u16::from(bay.0), LAST);
    Ok(ranks)
}

impl PartRanks {
    // Each part keeps its number.
    pub(crate) fn in_order(alloc: Global) -> PartRanks {
        PartRanks {
            ranks: Vec::new(alloc),
        }
    }

    // The deepest parts first, of those of one depth those that stand at one node together, of these the ones that are alike
    // in both stations first, and this bay last.
    pub(crate) fn ending(
        alloc: Global,
        old: &Station,
        new: &Station,
        bay: BayId,
    ) -> Result<PartRanks, Memory> {
        let depths = depths_of(alloc, new, bay)?;
        let mut places = Vec::new(alloc);
        push_parts(old, new, &depths, true, &mut places)?;
        push_parts(old, new, &depths, false, &mut places)?;
        places.sort_by_key(|place| place.node)?;
        places.sort_by_key(|place| place.height)?;
        let ranks = numbered(alloc, new.part_count(), &places, bay)?;
        Ok(PartRanks { ranks })
    }

    // The rank of the part of this number. What only the old station has comes behind the others of the new one.
    pub(crate) fn rank(&self, part: u16) -> u16 {
        if usize::from(part) < self.ranks.len() {
            self.ranks[usize::from(part)]
        } else if self.ranks.is_empty() {
            part
        } else {
            part.saturating_add(BEHIND)
        }
    }
}
