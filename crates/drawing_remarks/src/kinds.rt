//! The kinds of remarks.
ghost use Rattle.std.specs.Prelude.{◌≡◌};
ghost use Rattle.drawing_remarks.specs.Kinds.{kind_word};

/// What is likely not meant in a drawing.
#[derive(Clone, Copy, PartialEq, Eq)]
pub enum RemarkKind {
    /// the station has no switch
    NoSwitch,
    /// the station has no infeed, so nothing is ever live
    NoInfeed,
    /// a substation, voltage level, bay, transformer or equipment stands where it is passed over
    PassedOver,
    /// equipment of a type that is none of IEC 61850-6
    UnknownType,
    /// equipment of a type that differs from one of IEC 61850-6 in case alone
    TypeCase,
    /// equipment with a grounded terminal that is no earthing switch and does not stand at earth by its nature
    Grounded,
    /// equipment of a type of IEC 61850-6 that joins two nodes and is no bond
    NoBond,
    /// an infeed from which no links lead to a breaker or a disconnector
    LoneInfeed,
    /// a winding with more than one terminal on nodes, which it joins
    Winding,
    /// a node whose name is `grounded` in other letters
    EarthName,
    /// a node of a bay with equipment, at which one item ends that goes nowhere from there
    LooseEnd,
    /// the first node of those that no chain of items joins to the nodes before it
    Apart,
    /// a terminal whose two names of its node differ
    TwoNodes,
}

/// All kinds, in the order in which remarks of one element are written.
pub const KINDS: [RemarkKind; 13] = [
    RemarkKind::NoSwitch,
    RemarkKind::NoInfeed,
    RemarkKind::PassedOver,
    RemarkKind::UnknownType,
    RemarkKind::TypeCase,
    RemarkKind::Grounded,
    RemarkKind::NoBond,
    RemarkKind::LoneInfeed,
    RemarkKind::Winding,
    RemarkKind::EarthName,
    RemarkKind::LooseEnd,
    RemarkKind::Apart,
    RemarkKind::TwoNodes,
];

// What the text calls a remark of a kind.
pub(crate) fn kind_word(kind: RemarkKind) -> &'static [u8]
    ensures { result.now ≡ kind_word kind }
{
    match kind {
        RemarkKind::NoSwitch => b"no-switch",
        RemarkKind::NoInfeed => b"no-infeed",
        RemarkKind::PassedOver => b"passed-over",
        RemarkKind::UnknownType => b"unknown-type",
        RemarkKind::TypeCase => b"type-case",
        RemarkKind::Grounded => b"grounded",
        RemarkKind::NoBond => b"no-bond",
        RemarkKind::LoneInfeed => b"lone-infeed",
        RemarkKind::Winding => b"winding",
        RemarkKind::EarthName => b"earth-name",
        RemarkKind::LooseEnd => b"loose-end",
        RemarkKind::Apart => b"apart",
        RemarkKind::TwoNodes => b"two-nodes",
    }
}
