//! The same switch of another station.
ghost use Rattle.std.specs.Prelude.{◌≡◌, ◌↔◌, ℕ, ◌<◌, IsTrue, length, IfSome, IfNone};
ghost use Rattle.station_changes.specs.Compare.{SameSwitch};

use ilk_base::{Kind, SwitchId};
use station_graph::Station;

// Whether the paths of two bays are equal, and two kinds.
fn is_alike(bay: &str, kind: Kind, other_bay: &str, other_kind: Kind) -> bool
    ensures { IsTrue result ↔ ((bay.now ≡ other_bay.now) × (kind ≡ other_kind)) }
{
    bay == other_bay && kind == other_kind
}

/// The switch of another station that is the same: its path, its bay's path and its kind are equal. Time: the length of
/// the paths.
pub fn same_switch(one: &Station, other: &Station, id: SwitchId) -> Option<SwitchId>
    requires { id.0 < length one.now.switches }
    ensures found { IfSome result (λ k. SameSwitch one.now other.now id.0 k.0) }
    ensures none { IfNone result ((k : ℕ) → ¬ SameSwitch one.now other.now id.0 k) }
{
    one.is_station();
    let path = one.switch_path(id);
    let switch = one.switch(id);
    let Some(found) = other.find_switch(path) else {
        return None;
    };
    let twin = other.switch(found);
    let bay = one.part_path(switch.bay);
    let twin_bay = other.part_path(twin.bay);
    if is_alike(bay, switch.kind, twin_bay, twin.kind) {
        Some(found)
    } else {
        None
    }
}
