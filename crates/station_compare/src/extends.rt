//! Whether the new station extends the old one.
ghost use Rattle.std.specs.Prelude.{◌≡◌, ◌↔◌, ◌≢◌, ℕ, true, slice_get, Some, IsTrue};
ghost use Rattle.station_changes.specs.Compare.{Extends};
ghost use Rattle.station_compare.specs.declared.found.Found.{Found as OneFound};
ghost use Rattle.station_compare.specs.Words.{IsUnchanged, switch_word};
ghost use Rattle.station_compare.specs.Comparing.{IsComparison};

use crate::found::{Comparison, Found, SwitchChanges};
use crate::word::Word;
use station_graph::Station;

impl SwitchChanges {
    /// The worse of the words of its two operations. At once.
    pub fn word(&self) -> Word
        ensures { result ≡ switch_word self.now }
    {
        self.opening.word().worse(self.closing.word())
    }
}

// Whether no operation of the switch is changed.
fn is_unchanged(found: &Found) -> bool
    ensures { IsTrue result ↔ IsUnchanged found.now }
{
    match found {
        Found::OnlyNew => true,
        Found::InBoth(changes) => changes.word() != Word::Changed,
    }
}

// Whether no operation is changed.
fn are_unchanged(here: &[Found]) -> bool
    ensures { IsTrue result ↔ ((k : ℕ) (f : OneFound) → slice_get here.now k ≡ Some f → IsUnchanged f) }
{
    for found in here {
        if !is_unchanged(found) {
            return false;
        }
    }
    true
}

// Whether no switch is gone.
fn none_gone(gone: &[bool]) -> bool
    ensures { IsTrue result ↔ ((i : ℕ) → slice_get gone.now i ≢ Some true) }
{
    for is_gone in gone {
        if *is_gone {
            return false;
        }
    }
    true
}

impl Comparison {
    /// Whether the new station extends the old one, of which this is the comparison: it has all its switches, and no
    /// operation is changed. Time: the switches.
    pub fn extends(&self, old: &Station, new: &Station) -> bool
        requires { IsComparison old.now new.now self.now }
        ensures { IsTrue result ↔ Extends old.now new.now }
    {
        old.is_station();
        new.is_station();
        none_gone(&self.gone) && are_unchanged(&self.here)
    }
}
