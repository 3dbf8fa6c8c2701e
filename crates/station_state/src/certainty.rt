//! What holds over every reading of the positions.
ghost use Rattle.std.specs.Prelude.{◌≡◌};
ghost use Rattle.station_state.specs.State.{certainty_of};

/// In which readings of the positions something holds: in every one, in none, or in one and not in
/// another.
#[derive(Clone, Copy, PartialEq, Eq)]
pub enum Certainty {
    Always,
    Never,
    Unknown,
}

/// The state of a node: in which readings it is live (joined to the node of a closed infeed), and in
/// which it is earthed (joined to the node of a closed earthing switch).
#[derive(Clone, Copy, PartialEq, Eq)]
pub struct NodeState {
    pub live: Certainty,
    pub earthed: Certainty,
}

// What holds in every reading, by what holds in the least and in the greatest.
pub(crate) fn certainty_of(least: bool, greatest: bool) -> Certainty
    ensures { result ≡ certainty_of least greatest }
{
    if least {
        Certainty::Always
    } else if greatest {
        Certainty::Unknown
    } else {
        Certainty::Never
    }
}
