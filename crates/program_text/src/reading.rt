//! How positions that are not known count, and the variables of the formulas over them.
ghost use Rattle.std.specs.Prelude.{◌≡◌};
ghost use Rattle.program_text.specs.Names.{name_in, number_in};

use structured_text::Name;

/// How positions that are not known count.
#[derive(Clone, Copy, PartialEq, Eq)]
pub enum Reading {
    /// as closed
    May,
    /// as open
    Sure,
}

/// The variable of a formula.
pub(crate) fn name_of(reading: Reading, number: usize) -> Name
    ensures { result ≡ name_in reading number }
{
    match reading {
        Reading::May => Name::May(number),
        Reading::Sure => Name::Sure(number),
    }
}

/// The formula whose variable it is, if it is one of this reading.
pub(crate) fn number_of(reading: Reading, name: Name) -> Option<usize>
    ensures { result ≡ number_in reading name }
{
    match (reading, name) {
        (Reading::May, Name::May(number)) => Some(number),
        (Reading::Sure, Name::Sure(number)) => Some(number),
        (Reading::May, Name::Sure(_)) => None,
        (Reading::Sure, Name::May(_)) => None,
        (_, Name::Off(_)) => None,
        (_, Name::On(_)) => None,
        (_, Name::Opens(_)) => None,
        (_, Name::Closes(_)) => None,
    }
}
