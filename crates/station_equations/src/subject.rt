//! What the nodes of decision graphs look at.
ghost use Rattle.std.specs.Prelude.{◌≡◌, ◌+◌, ◌<◌, ◌≤◌};
ghost use Rattle.station_equations.specs.Subjects.{subject_at, SubjectsFit};

use ilk_base::{BayId, SwitchId};

// What a node looks at.
#[derive(Clone, Copy, PartialEq, Eq)]
pub(crate) enum Subject {
    // the index of a part
    Part(BayId),
    // the position of a switch
    Switch(SwitchId),
}

// What the layers of a graph look at.
#[derive(Clone, Copy, PartialEq, Eq)]
pub(crate) enum Subjects {
    // layer j at the j-th other part than this one
    OtherParts(BayId),
    // layer j + 1 at the j-th switch, from the first on, that is not the moved one
    OtherSwitches { first: SwitchId, moved: SwitchId },
}

impl Subjects {
    // What a layer looks at.
    pub(crate) fn at(self, layer: u16) -> Subject
        requires { SubjectsFit self layer }
        ensures { result ≡ subject_at self layer }
    {
        match self {
            Subjects::OtherParts(bay) => {
                let part = layer as u8;
                if part < bay.0 {
                    Subject::Part(BayId(part))
                } else {
                    Subject::Part(BayId(part + 1))
                }
            }
            Subjects::OtherSwitches { first, moved } => {
                let number = first.0 + (layer - 1);
                if number < moved.0 {
                    Subject::Switch(SwitchId(number))
                } else {
                    Subject::Switch(SwitchId(number + 1))
                }
            }
        }
    }
}
