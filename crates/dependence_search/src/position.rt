//! The position of all switches for which choices stand.
ghost use Rattle.std.specs.Prelude.{◌≡◌, ℕ, suc, ◌<◌, ◌≤◌, length, slice_get, Some, IfOk};
ghost use Rattle.station_graph.specs.Alike.{IsVector};
ghost use Rattle.step_graphs.specs.Moved.{AreGiven};
ghost use Rattle.station_joints.specs.Chosen.{closed_at};
ghost use Rattle.station_joints.specs.Joined.{HaveJointSteps};

use ilk_base::Memory;
use station_graph::Station;
use station_joints::JointSteps;
use std::alloc::Global;

// Whether the choices close the switch of the step at a place.
fn is_closed(choices: &[u32], moved: u16, place: u16) -> bool
    requires moved { moved ≤ length choices.now }
    requires place { place ≤ length choices.now }
    ensures { result ≡ closed_at moved choices.now place }
{
    if place == moved {
        return false;
    }
    let layer = if place < moved { place } else { place - 1 };
    choices[usize::from(layer)] == 1
}

// The position of all switches for which the choices stand, one for each step but that of the moved switch, which is open.
pub(crate) fn position_of(
    alloc: Global,
    station: &Station,
    steps: &JointSteps,
    moved: u16,
    choices: &[u32],
) -> Result<Vec<bool>, Memory>
    requires steps { HaveJointSteps station.now station.now steps.now }
    requires moved { moved < length steps.now.old_steps.items }
    requires count { suc (length choices.now) ≡ length steps.now.old_steps.items }
    requires small { (j c : ℕ) → slice_get choices.now j ≡ Some c → c < 2 }
    ensures vector { IfOk result (λ v. IsVector station.now v.items) }
    ensures given { IfOk result (λ v. AreGiven steps.now.old_steps.items moved v.items choices.now) }
{
    let mut closed = Vec::new(alloc);
    for i in 0..station.switch_count() {
        let place = steps.old_places[usize::from(i)];
        closed.push(is_closed(choices, moved, place))?;
    }
    Ok(closed)
}
