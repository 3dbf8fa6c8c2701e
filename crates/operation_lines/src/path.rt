//! The switch of a path in bytes.
ghost use Rattle.std.specs.Prelude.{◌≡◌, ◌<◌, length, slice_get, Some, IfSome, IfNone, Contains};

use ilk_base::SwitchId;
use station_graph::Station;

// The switch of a path by comparison with each.
fn compared(station: &Station, path: &[u8]) -> Option<SwitchId>
    ensures found { IfSome result (λ id. slice_get station.now.switch_paths id.0 ≡ Some path.now) }
    ensures within { IfSome result (λ id. id.0 < length station.now.switches) }
    ensures none { IfNone result (¬ Contains station.now.switch_paths path.now) }
{
    for i in 0..station.switch_count() {
        if station.switch_path(SwitchId(i)).as_bytes() == path {
            return Some(SwitchId(i));
        }
    }
    None
}

/// The switch with this path, of which it is not known that it is UTF-8; none where no switch has it. Time:
/// the length of the path, by a hash; where the path is not UTF-8, that of a comparison with each switch's.
pub fn switch_of_path(station: &Station, path: &[u8]) -> Option<SwitchId>
    ensures found { IfSome result (λ id. slice_get station.now.switch_paths id.0 ≡ Some path.now) }
    ensures within { IfSome result (λ id. id.0 < length station.now.switches) }
    ensures none { IfNone result (¬ Contains station.now.switch_paths path.now) }
{
    match str::from_utf8(path) {
        Ok(text) => station.find_switch(text),
        Err(_) => compared(station, path),
    }
}
