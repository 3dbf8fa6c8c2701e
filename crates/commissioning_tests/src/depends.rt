//! On which switches the release of an operation does not depend, found at once for all of them.
ghost use Rattle.std.specs.Prelude.{◌≡◌, ◌≢◌, ◌↔◌, ◌<◌, IsTrue, IsFalse, Some, length, slice_get};
ghost use Rattle.ilk_base.specs.declared.words.Op.{Op as Operation};
ghost use Rattle.decision_graphs.specs.Reaching.{IsSet};
ghost use Rattle.release_dependence.specs.Depends.{DependsOn};
ghost use Rattle.station_joints.specs.Chosen.{layer_of};
ghost use Rattle.commissioning_tests.specs.Growing.{IsOperationWalk};

use crate::walked::OperationWalk;
use ilk_base::SwitchId;

// Whether the layer is marked.
fn is_marked(layers: &[bool], layer: u16) -> bool
    ensures { IsTrue result ↔ IsSet layers.now layer }
{
    usize::from(layer) < layers.len() && layers[usize::from(layer)]
}

// The layer of the step at a place, where that at another place has none.
fn layer_at(moved: u16, place: u16) -> u16
    requires { moved ≢ place }
    ensures { result ≡ layer_of moved place }
{
    if place < moved { place } else { place - 1 }
}

// Whether moving the switch may turn the operation, by the layers of its walk.
pub(crate) fn may_turn(walked: &OperationWalk<'_>, switch: SwitchId) -> bool
    requires walked { IsOperationWalk walked.now }
    requires switch { switch.0 < length walked.now.station.now.switches }
    ensures { IsFalse result → (op : Operation) → slice_get walked.now.operations.now walked.now.number ≡ Some op
        → ¬ DependsOn walked.now.station.now op switch.0 }
{
    walked.station.is_station();
    let op = walked.operations[walked.number];
    if switch.0 == op.switch.0 {
        return false;
    }
    let layer = layer_at(walked.place, walked.steps.old_places[usize::from(switch.0)]);
    is_marked(walked.layers, layer)
}
