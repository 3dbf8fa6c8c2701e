//! The variables of a text.
ghost use Rattle.std.specs.Prelude.{◌↔◌, IsTrue};
ghost use Rattle.structured_text.specs.Order.{IsInput, IsRelease};

use ilk_base::SwitchId;

/// A variable of the text.
#[derive(Clone, Copy, PartialEq, Eq)]
pub enum Name {
    /// input: the contact of the open position of a switch
    Off(SwitchId),
    /// input: the contact of its closed position
    On(SwitchId),
    /// what holds where each switch that may be closed is
    May(usize),
    /// what holds where each switch that is not certainly closed is open
    Sure(usize),
    /// output: opening a switch is released, EnaOpn of CILO (IEC 61850-7-4)
    Opens(SwitchId),
    /// output: closing it is, EnaCls
    Closes(SwitchId),
}

/// Whether the variable is a contact.
pub fn is_contact(name: Name) -> bool
    ensures { IsTrue result ↔ IsInput name }
{
    match name {
        Name::Off(_) => true,
        Name::On(_) => true,
        Name::May(_) => false,
        Name::Sure(_) => false,
        Name::Opens(_) => false,
        Name::Closes(_) => false,
    }
}

/// Whether the variable is a release.
pub fn is_release(name: Name) -> bool
    ensures { IsTrue result ↔ IsRelease name }
{
    match name {
        Name::Off(_) => false,
        Name::On(_) => false,
        Name::May(_) => false,
        Name::Sure(_) => false,
        Name::Opens(_) => true,
        Name::Closes(_) => true,
    }
}
