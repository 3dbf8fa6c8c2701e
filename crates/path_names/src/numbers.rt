//! The numbers of paths among the names.
ghost use Rattle.std.specs.Prelude.{◌≡◌, ◌<◌, [], length, slice_index_or};
ghost use Rattle.station_graph.specs.Diagram.{part_count, switch_path};
ghost use Rattle.path_names.specs.Tables.{paths_of, paths_of_both};

use ilk_base::{BayId, SwitchId};
use station_graph::Station;

/// The number of the path of a switch among those of `station_paths`. At once, as the others.
#[tactic(auto, using(crate::proofs::Places::switch_place))]
pub fn switch_name(station: &Station, id: SwitchId) -> u16
    requires { id.0 < length station.now.switches }
    ensures { slice_index_or (paths_of station.now) result [] ≡ switch_path station.now id.0 }
{
    station.is_station();
    id.0
}

/// That of the path of a part.
pub fn part_name(station: &Station, part: BayId) -> u16
    requires { part.0 < part_count station.now }
    ensures { slice_index_or (paths_of station.now) result [] ≡ slice_index_or station.now.part_paths part.0 [] }
{
    station.switch_count() + u16::from(part.0)
}

/// The number of the path of a switch of the new station among those of `both_paths`.
pub fn new_switch_name(old: &Station, new: &Station, id: SwitchId) -> u16
    requires { id.0 < length new.now.switches }
    ensures { slice_index_or (paths_of_both old.now new.now) result [] ≡ switch_path new.now id.0 }
{
    let _ = old;
    new.is_station();
    id.0
}

/// That of the path of a part of the new station.
pub fn new_part_name(old: &Station, new: &Station, part: BayId) -> u16
    requires { part.0 < part_count new.now }
    ensures { slice_index_or (paths_of_both old.now new.now) result []
        ≡ slice_index_or new.now.part_paths part.0 [] }
{
    let _ = old;
    new.switch_count() + u16::from(part.0)
}

/// That of the path of a switch of the old station.
pub fn old_switch_name(old: &Station, new: &Station, id: SwitchId) -> u16
    requires { id.0 < length old.now.switches }
    ensures { slice_index_or (paths_of_both old.now new.now) result [] ≡ switch_path old.now id.0 }
{
    old.is_station();
    new.switch_count() + new.part_count() + id.0
}

/// That of the path of a part of the old station.
pub fn old_part_name(old: &Station, new: &Station, part: BayId) -> u16
    requires { part.0 < part_count old.now }
    ensures { slice_index_or (paths_of_both old.now new.now) result []
        ≡ slice_index_or old.now.part_paths part.0 [] }
{
    let old_count = old.switch_count();
    new.switch_count() + new.part_count() + old_count + u16::from(part.0)
}
