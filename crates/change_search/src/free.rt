//! Which steps are free.
ghost use Rattle.std.specs.Prelude.{◌≡◌, ◌↔◌, ◌<◌, ◌^◌, IsTrue, length, IfOk};
ghost use Rattle.station_joints.specs.Together.{IsAlone};
ghost use Rattle.change_search.specs.Showing.{AreFree};

use ilk_base::Memory;
use judge_intake::other_number;
use std::alloc::Global;
use step_graphs::Step;

// Whether of two steps only one is a switch, and the other is nothing.
fn is_alone(old: Step, new: Step) -> bool
    ensures { IsTrue result ↔ IsAlone old new }
{
    match old {
        Step::OfSwitch(_) => match new {
            Step::OfNothing => true,
            _ => false,
        },
        Step::OfNothing => match new {
            Step::OfSwitch(_) => true,
            _ => false,
        },
        _ => false,
    }
}

/// For each step but the one at a place whether it is free: where only one of the stations has a switch, it is not. Time:
/// the steps.
pub fn free_steps(
    alloc: Global,
    old_steps: &[Step],
    new_steps: &[Step],
    place: u16,
) -> Result<Vec<bool>, Memory>
    requires same { length new_steps.now ≡ length old_steps.now }
    requires place { place < length old_steps.now }
    requires few { length old_steps.now < 2 ^ 16 }
    ensures { IfOk result (λ v. AreFree old_steps.now new_steps.now place v.items) }
{
    let mut free = Vec::new(alloc);
    let others = (old_steps.len() - 1) as u16;
    for j in 0..others {
        let at = usize::from(other_number(0, place, j));
        free.push(!is_alone(old_steps[at], new_steps[at]))?;
    }
    Ok(free)
}
