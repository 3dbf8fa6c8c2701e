//! The walk of an operation.
use crate::switch_paths::SwitchPaths;
use decision_graphs::Graph;
use graph_walks::Walk;
use ilk_base::Op;
use station_graph::Station;
use station_joints::JointSteps;

// The walk of an operation of a bay, with what stands around it.
#[derive(Clone, Copy)]
pub(crate) struct OperationWalk<'a> {
    pub(crate) station: &'a Station,
    // the joint steps of the station with itself
    pub(crate) steps: &'a JointSteps,
    // the operations of the bay
    pub(crate) operations: &'a [Op],
    // which switch stands for each
    pub(crate) stands: &'a [u16],
    // the walk of the moved switch, and the place of its step
    pub(crate) walk: &'a Walk,
    pub(crate) place: u16,
    // what is made of it, and of the walks of all of the bay's switches, if these are few
    pub(crate) own: &'a SwitchPaths,
    pub(crate) bay: &'a [SwitchPaths],
    // the graph of the operation, and for each layer whether the choice there turns it
    pub(crate) released: &'a Graph,
    pub(crate) layers: &'a [bool],
    // which of the operations it is, and which opens the switch; the next to that closes it
    pub(crate) number: usize,
    pub(crate) opening: usize,
}
