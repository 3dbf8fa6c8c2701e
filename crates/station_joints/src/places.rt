//! The places of the switches among the steps.
ghost use Rattle.std.specs.Prelude.{◌≡◌, ◌<◌, ◌^◌, length, IfOk};
ghost use Rattle.step_graphs.specs.Steps.{AreSteps};
ghost use Rattle.station_joints.specs.Taking.{with_place, HasPlace};
ghost use Rattle.station_joints.specs.Together.{ArePlaces};

use ilk_base::Memory;
use station_graph::Station;
use std::alloc::Global;
use step_graphs::Step;

// Writes the place of the step's switch, if it has one.
fn place_step(places: &mut Vec<u16>, step: Step, p: u16)
    requires { HasPlace step (length places.old.items) }
    ensures { places.new.items ≡ with_place step p places.old.items }
{
    if let Step::OfSwitch(id) = step {
        places[id.0 as usize] = p;
    }
}

// For each switch the place of its step.
pub(crate) fn places_of(
    alloc: Global,
    station: &Station,
    steps: &[Step],
) -> Result<Vec<u16>, Memory>
    requires steps { AreSteps station.now steps.now }
    requires few { length steps.now < 2 ^ 16 }
    ensures { IfOk result (λ v. ArePlaces station.now steps.now v.items) }
{
    let count = station.switch_count();
    let mut places = Vec::new(alloc);
    places.resize(usize::from(count), 0)?;
    for p in 0..steps.len() {
        let step = steps[p];
        place_step(&mut places, step, p as u16);
    }
    Ok(places)
}
