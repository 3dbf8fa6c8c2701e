//! The lines of a text.
use crate::name::Name;
use ilk_base::{BayId, SwitchId};

/// What denies that a switch is closed: what it would join may be live and may be earthed.
#[derive(Clone, Copy, PartialEq, Eq)]
pub enum GapDenial {
    /// this
    One(Name),
    /// both
    Two(Name, Name),
}

/// What denies that a disconnector is moved: its gap carries load.
#[derive(Clone, Copy, PartialEq, Eq)]
pub enum LoadDenial {
    /// both
    Loaded(Name, Name),
    /// the first two, and not the third
    Unbonded(Name, Name, Name),
}

/// One side of AND or OR.
#[derive(Clone, Copy, PartialEq, Eq)]
pub enum Operand {
    /// a variable
    Variable(Name),
    /// one AND another
    Product(Name, Name),
    /// one OR another
    Sum(Name, Name),
}

/// The right side of an assignment.
#[derive(Clone, Copy, PartialEq, Eq)]
pub enum Formula {
    /// TRUE
    Always,
    /// FALSE
    Never,
    /// the switch may be closed: the contact of its closed position is made, or that of its open position is not
    MayBeClosed(SwitchId),
    /// it is closed for certain: the contact of its closed position is made, and that of its open position is not
    IsClosed(SwitchId),
    /// one AND another
    Both(Operand, Operand),
    /// one OR another
    Either(Operand, Operand),
    /// the denial does not hold
    Apart(GapDenial),
    /// the denial does not hold
    Unloaded(LoadDenial),
    /// neither denial holds
    Released(GapDenial, LoadDenial),
}

/// A comment above a line.
#[derive(Clone, Copy, PartialEq, Eq)]
pub enum Heading {
    /// what a bay is to the others
    Signals(BayId),
    /// what bays are together
    Together,
    /// the releases of a bay
    Releases(BayId),
}

/// An assignment.
#[derive(Clone, Copy, PartialEq, Eq)]
pub struct Line {
    /// the comment above it
    pub heading: Option<Heading>,
    /// what is set
    pub name: Name,
    /// to what
    pub formula: Formula,
}
